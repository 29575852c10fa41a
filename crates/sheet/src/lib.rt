// The definitions of the whole product (specs/) and their laws (proofs/). The types and the bounds that the definitions
// share with the code stand here; no code.
#![tactic(auto)]

// A direction code with its signed step in rows and columns.
#[derive(Clone, Copy)]
pub struct Step {
    pub code: u8,
    pub row: i32,
    pub col: i32,
}

// Document 02's label: its first 18 digits as one decimal number, then the next ones as another, 0 if there are none.
#[derive(Clone, Copy, PartialEq, Eq)]
pub struct Label {
    pub first: u64,
    pub rest: u64,
}

// The most digits of each of its two numbers.
pub const NUMBER_DIGITS: usize = 18;

// The least number of so many digits.
pub const LEAST_OF_18_DIGITS: u64 = 100000000000000000;

// What names a unit of a sheet: the number of its basin and its label.
#[derive(Clone, Copy, PartialEq, Eq)]
pub struct UnitName {
    pub basin: u32,
    pub label: Label,
}

// Why a call is refused: document 01's number, and the place that goes with it, 0 where it names none. It is a number
// and no enum of reasons: `report::write_report` and `listing::write_refusal` tell every number that they are handed.
#[derive(Clone, Copy, Debug, PartialEq, Eq)]
pub struct Refusal {
    pub number: u8,
    pub place: usize,
}

// The answer to the outlet question, in the order of the answers' numbers; a refusal carries document 01's number. An enum
// and no Result: an answer has one number, a refusal's too, and `flow::outlet_answer_number` tells it for every byte.
#[derive(Clone, Copy)]
pub enum OutletFlow {
    No,
    Yes,
    Same,
    Refused(u8),
}

// The answer to the flow question, in the order of the answers' numbers; a refusal carries document 01's number. An enum
// and no Result: an answer has one number, a refusal's too, and `flow::answer_number` tells it for every byte.
#[derive(Clone, Copy)]
pub enum Flow {
    No,
    Yes,
    Same,
    Undecided,
    Refused(u8),
}
