// What the check of a survey plan says of the index that the index call wrote for a basin of an accepted sheet: the
// statement in specs/, its proof in proofs/. No code.
#![tactic(auto)]
