// The flow question, does water from the unit q pass the unit p, and the outlet question, does it pass the outlet of p?
#![tactic(auto)]

pub mod pairs;

ghost use Rattle.std.specs.Prelude.{◌≡◌, true, ◌<◌, length};
ghost use Rattle.sheet.specs.Record.{digits_of};
ghost use Rattle.sheet.specs.Refusal.{depth_fits, least_fits};
ghost use Rattle.sheet.specs.Flow.{part_at, rule_at, is_label, answer_at, cell_answer, flow, outlet_flow};
ghost use Rattle.sheet.specs.Flow.{stem_alone, answer_number, outlet_answer_number};
ghost use Rattle.flow.specs.OutletAnswer.{outlet_answer};

use checks::{depth_fits, least_fits, same_label};
use digits::put_label;
use sheet::{Flow, OutletFlow, UnitName};

// The first place where both have a digit and the digits differ.
fn part_at(p: &[u8], q: &[u8]) -> Option<usize>
    ensures { result ≡ part_at p.now q.now }
{
    p.iter().zip(q).position(|(a, b)| *a != *b)
}

// The rule for labels that part at i: p's digit is smaller, and p's digits from there on are all odd.
fn rule_at(i: usize, p: &[u8], q: &[u8]) -> bool
    requires i_in_bounds { i < length p.now }
    requires i_in_bounds_2 { i < length q.now }
    ensures { result ≡ rule_at i p.now q.now }
{
    p[i] < q[i] && p[i..].iter().all(|digit| *digit % 2 == 1)
}

// The answer for unequal labels, by their digits.
#[tactic(auto, unfolding(sheet::specs::Flow::answer_at))]
fn answer_at(p: &[u8], q: &[u8]) -> OutletFlow
    ensures { result ≡ answer_at p.now q.now (part_at p.now q.now) }
{
    let Some(i) = part_at(p, q) else {
        return OutletFlow::Refused(12);
    };
    if rule_at(i, p, q) {
        return OutletFlow::Yes;
    }
    OutletFlow::No
}

// The unit of a label with so many digits is known to be stem cells alone: every mouth is counted, and no tributary was
// cut.
#[tactic(auto, unfolding(sheet::specs::Flow::stem_alone))]
fn is_stem_alone(depth: usize, least: usize, digits: usize) -> bool
    ensures { result ≡ stem_alone depth least digits }
{
    least == 1 && digits < depth
}

// The answer to the flow question from that to the outlet question; `alone` tells that p's unit is stem cells alone.
fn cell_answer(alone: bool, answer: OutletFlow) -> Flow
    ensures { result ≡ cell_answer alone answer }
{
    match answer {
        OutletFlow::Same => Flow::Same,
        OutletFlow::Yes => { if alone { Flow::Yes } else { Flow::Undecided } }
        OutletFlow::No => Flow::No,
        OutletFlow::Refused(number) => Flow::Refused(number),
    }
}

// The answer to the flow question where p has a label and its digits are at hand: 11 for q, No for different
// basins, Same, 12, then the rule.
fn answer_by_digits(depth: usize, least: usize, p: UnitName, digits: &[u8], q: UnitName) -> Flow
    requires depth_value { (depth_fits depth ≡ true) × (least_fits least ≡ true) }
    requires label_value { is_label depth p.label ≡ true }
    requires digits_value { digits.now ≡ digits_of p.label }
    ensures { result ≡ flow depth least p q }
{
    let mut places = [0u8; 36];
    let Some(start) = put_label(depth, q.label, &mut places) else {
        return Flow::Refused(11);
    };
    if p.basin != q.basin {
        return Flow::No;
    }
    if same_label(p.label, q.label) {
        return Flow::Same;
    }
    let alone = is_stem_alone(depth, least, digits.len());
    cell_answer(alone, answer_at(digits, &places[start..]))
}

// The answer to the flow question where depth and least fit: 11, No for different basins, Same, 12, then the rule.
fn answer_fitting(depth: usize, least: usize, p: UnitName, q: UnitName) -> Flow
    requires { (depth_fits depth ≡ true) × (least_fits least ≡ true) }
    ensures { result ≡ flow depth least p q }
{
    let mut places = [0u8; 36];
    let Some(start) = put_label(depth, p.label, &mut places) else {
        return Flow::Refused(11);
    };
    answer_by_digits(depth, least, p, &places[start..], q)
}

// The flow question: does water from the unit q pass the unit p? 2, 19, 11, No for different basins, Same, 12, then the
// rule; Undecided where it is met and least is above 1 or p's label has as many digits as the depth.
#[tactic(auto, unfolding(sheet::specs::Flow::flow))]
pub fn flow_of(depth: usize, least: usize, p: UnitName, q: UnitName) -> Flow
    ensures answer { result ≡ flow depth least p q }
    ensures number { answer_number result ≡ answer_number (flow depth least p q) }
{
    if !depth_fits(depth) {
        return Flow::Refused(2);
    }
    if !least_fits(least) {
        return Flow::Refused(19);
    }
    answer_fitting(depth, least, p, q)
}

// The answer to the outlet question from that to the flow question: Yes for Undecided.
fn outlet_answer(answer: Flow) -> OutletFlow
    ensures { result ≡ outlet_answer answer }
{
    match answer {
        Flow::Same => OutletFlow::Same,
        Flow::Yes => OutletFlow::Yes,
        Flow::No => OutletFlow::No,
        Flow::Undecided => OutletFlow::Yes,
        Flow::Refused(number) => OutletFlow::Refused(number),
    }
}

// The outlet question: does water from the unit q pass the outlet of the unit p? 2, 11, No for different basins, Same,
// 12, then the rule.
#[tactic(auto, using(crate::proofs::Answers::outlet_from_flow))]
pub fn outlet_flow_of(depth: usize, p: UnitName, q: UnitName) -> OutletFlow
    ensures answer { result ≡ outlet_flow depth p q }
    ensures number { outlet_answer_number result ≡ outlet_answer_number (outlet_flow depth p q) }
{
    outlet_answer(flow_of(depth, 1, p, q))
}

// The number of an answer: 0 No, 1 Yes, 2 Same, 3 Undecided, 128 + the refusal's number. A refusal may carry any byte,
// so this is no byte; the number of an answer of flow_of fits one.
pub fn answer_number(a: Flow) -> u32
    ensures { result ≡ answer_number a }
{
    match a {
        Flow::No => 0,
        Flow::Yes => 1,
        Flow::Same => 2,
        Flow::Undecided => 3,
        Flow::Refused(number) => 128 + u32::from(number),
    }
}

// The number of an answer to the outlet question: that of the flow question's answer of the same name.
pub fn outlet_answer_number(a: OutletFlow) -> u32
    ensures { result ≡ outlet_answer_number a }
{
    answer_number(cell_answer(true, a))
}
