// Drainage of a sheet: refusals 4 to 6, areas and sizes, by the search upstream of crate upstream.
#![tactic(auto)]

use sheet::Refusal;

pub mod inspect;
pub mod measure;

// What an inspection found, and how many cells its search queued: no `Result` of the two, since `InspectionResult` tells
// of the queued cells after refusal 6 too.
#[derive(Clone, Copy)]
pub struct Inspection {
    pub outcome: Result<(), Refusal>,
    pub queued: usize,
}
