// The laws of the definitions and the third demand: statements in specs/, proofs in proofs/. No code.
#![tactic(auto)]
