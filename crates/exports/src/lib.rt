// The calls for hosts in C and in languages that call C; include/pfafstetter.h declares them. Each only calls proved
// functions.
#![tactic(auto)]

pub mod basin_levy;
pub mod survey_plan;
pub mod unit_index;

ghost use Rattle.std.specs.Prelude.{◌≡◌, ◌<◌, length};
ghost use Rattle.sheet.specs.Record.{label_of_numbers, labels_in, unit_name};
ghost use Rattle.sheet.specs.Refusal.{outcome_values, outcome, lent_after};
ghost use Rattle.sheet.specs.Word.{first_bad_of};
ghost use Rattle.sheet.specs.Flow.{flow, answer_number, outlet_flow, outlet_answer_number};
ghost use Rattle.flow.specs.Pairs.{pairs_answer, pairs_places};
ghost use Rattle.labelling.specs.Labelling.{sheet, lent};
ghost use Rattle.lookup.specs.Lookup.{lookup_answer, lookup_values};
ghost use Rattle.exports.specs.Exports.{outcome_code, indexed_code, CodeTells, pairs_code};

use faults::Sizes;
use sheet::{Label, Refusal, UnitName};

// The refusal's number + 256 × its place; 0 if accepted.
fn outcome_code(outcome: Result<(), Refusal>) -> u64
    requires { (outcome_values outcome).place < 65536 }
    ensures { result ≡ outcome_code outcome }
{
    match outcome {
        Ok(()) => 0,
        Err(refusal) => refusal.number as u64 + 256 * (refusal.place as u64),
    }
}

// Labels a sheet; `weights` has one for each row.
#[unsafe(no_mangle)]
pub extern "C" fn pf_label(
    rows: usize,
    cols: usize,
    depth: usize,
    least: usize,
    split: usize,
    dirs: &[u8],
    weights: &[u16],
    areas: &mut [u32],
    labels: &mut [u64],
    basins: &mut [u32],
    work: &mut [u32],
) -> u64
    ensures outcome { result ≡ outcome_code (outcome
        (sheet rows cols depth least split dirs.now weights.now)
        (lent areas.old labels.old basins.old work.old)) }
    ensures lent { lent areas.new labels.new basins.new work.new
        ≡ lent_after (sheet rows cols depth least split dirs.now weights.now)
        (lent areas.old labels.old basins.old work.old) }
{
    let sizes = Sizes {
        rows,
        cols,
        depth,
        least,
        split,
    };
    outcome_code(labelling::label(sizes, dirs, weights, areas, labels, basins, work))
}

// 256 × the number of units; else the refusal's number + 256 × its place.
fn indexed_code(answer: Result<usize, Refusal>) -> u64
    requires { CodeTells answer }
    ensures { result ≡ indexed_code answer }
{
    match answer {
        Ok(units) => 256 * (units as u64),
        Err(refusal) => 256 * (refusal.place as u64) + refusal.number as u64,
    }
}

// Where the labels of a basin that begin with the leading digits start, and how many there are. The refusal's number,
// or 0. The leading digits are a label of two numbers.
#[unsafe(no_mangle)]
pub extern "C" fn pf_lookup(
    basin: u32,
    first: u64,
    rest: u64,
    labels: &[u64],
    basins: &[u32],
    start: &mut usize,
    length: &mut usize,
) -> u32
    ensures number { result
        ≡ (lookup_values (lookup_answer (unit_name basin (label_of_numbers first rest)) (labels_in labels.now)
        basins.now)).number }
    ensures start { start.new
        ≡ (lookup_values (lookup_answer (unit_name basin (label_of_numbers first rest)) (labels_in labels.now)
        basins.now)).start }
    ensures length { length.new
        ≡ (lookup_values (lookup_answer (unit_name basin (label_of_numbers first rest)) (labels_in labels.now)
        basins.now)).length }
{
    match lookup::find(unit(basin, first, rest), labels, basins) {
        Ok(part) => {
            *start = part.start;
            *length = part.length;
            0
        }
        Err(refusal) => {
            *start = 0;
            *length = 0;
            refusal.number as u32
        }
    }
}

// The unit of a basin whose label has these two numbers.
fn unit(basin: u32, first: u64, rest: u64) -> UnitName
    ensures { result ≡ unit_name basin (label_of_numbers first rest) }
{
    UnitName {
        basin,
        label: Label { first, rest },
    }
}

// The flow question: does water from the unit q pass the unit p? A unit is a basin and a label.
#[unsafe(no_mangle)]
pub extern "C" fn pf_flow(
    depth: usize,
    least: usize,
    p_basin: u32,
    p_first: u64,
    p_rest: u64,
    q_basin: u32,
    q_first: u64,
    q_rest: u64,
) -> u32
    ensures { result ≡ answer_number (flow depth least (unit_name p_basin (label_of_numbers p_first p_rest))
        (unit_name q_basin (label_of_numbers q_first q_rest))) }
{
    let p = unit(p_basin, p_first, p_rest);
    let q = unit(q_basin, q_first, q_rest);
    flow::answer_number(flow::flow_of(depth, least, p, q))
}

// The outlet question: does water from the unit q pass the outlet of the unit p?
#[unsafe(no_mangle)]
pub extern "C" fn pf_outlet_flow(
    depth: usize,
    p_basin: u32,
    p_first: u64,
    p_rest: u64,
    q_basin: u32,
    q_first: u64,
    q_rest: u64,
) -> u32
    ensures { result ≡ outlet_answer_number (outlet_flow depth
        (unit_name p_basin (label_of_numbers p_first p_rest))
        (unit_name q_basin (label_of_numbers q_first q_rest))) }
{
    let p = unit(p_basin, p_first, p_rest);
    let q = unit(q_basin, q_first, q_rest);
    flow::outlet_answer_number(flow::outlet_flow_of(depth, p, q))
}

// 256 × the count of pairs, or the refusal's number.
fn pairs_code(answer: Result<usize, Refusal>) -> u64
    ensures { result ≡ pairs_code answer }
{
    match answer {
        Ok(count) => (count as u64) << 8,
        Err(refusal) => refusal.number as u64,
    }
}

// The flow question for each pair, P's basin and label and Q's at the same place.
#[unsafe(no_mangle)]
pub extern "C" fn pf_flow_pairs(
    depth: usize,
    least: usize,
    p: &[u64],
    p_basins: &[u32],
    q: &[u64],
    q_basins: &[u32],
    answers: &mut [u8],
) -> u64
    ensures answer { result ≡ pairs_code (pairs_answer depth least (length p.now)
        (length p_basins.now) (length q.now) (length q_basins.now)
        (length answers.old)) }
    ensures places { answers.new
        ≡ pairs_places depth least p.now p_basins.now q.now
        q_basins.now answers.old }
{
    pairs_code(flow::pairs::flow_pairs(depth, least, p, p_basins, q, q_basins, answers))
}

// The word test: the place of the first of a word's eight directions that is none of the nine codes.
#[unsafe(no_mangle)]
pub extern "C" fn pf_first_bad(word: u64) -> u32
    ensures { result ≡ first_bad_of word }
{
    directions::word::first_bad(word)
}
