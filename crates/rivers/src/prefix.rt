// The digits gathered so far, held as a label.
ghost use Rattle.std.specs.Prelude.{◌≡◌, List, [], ◌∷◌, ◌++◌, ℕ, ◌≤◌};
ghost use Rattle.sheet.specs.Record.{Digits, record_of};
ghost use Rattle.rivers.specs.Prefix.{Prefix};

use sheet::{LEAST_OF_18_DIGITS, Label};

// The prefix with one digit more: in the first number while that has fewer than 18 digits, then in the second.
pub fn with_digit(prefix: Label, digit: u64) -> Label
    requires prefix { Prefix prefix 1 }
    requires le_digit { (1 ≤ digit) × (digit ≤ 9) }
    ensures { (gathered : List ℕ) → Digits 9 gathered → prefix ≡ record_of gathered
        → result ≡ record_of (gathered ++ (digit ∷ [])) }
{
    if prefix.first < LEAST_OF_18_DIGITS {
        return Label {
            first: prefix.first * 10 + digit,
            rest: 0,
        };
    }
    Label {
        first: prefix.first,
        rest: prefix.rest * 10 + digit,
    }
}
