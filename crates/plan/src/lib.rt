// The check of a survey plan: a list of unit labels of one basin, against the labels of that basin's index. No grid.
#![tactic(auto)]

ghost use Rattle.std.specs.Prelude.{◌≡◌, true, [], ◌≤◌, ◌^◌, length, replicate, Some};
ghost use Rattle.sheet.specs.Answer.{outcome_of_fault};
ghost use Rattle.sheet.specs.Record.{number, decimal_digits, number_digits, labels_in};
ghost use Rattle.sheet.specs.Flow.{every, is_label};
ghost use Rattle.lookup.specs.Lookup.{greatest_depth, is_rising};
ghost use Rattle.lookup.specs.Padded.{count_below};
ghost use Rattle.lookup.specs.PaddedHalves.{joined};
ghost use Rattle.plan.specs.Plan.{units_of_one, all_part, index_fault, plan_from, plan_answer, plan_values, work_after};
ghost use Rattle.plan.specs.Steps.{Rising, Judged, StandFirst, Spans, place_of, before_last_odd, label_before_last_odd};
ghost use Rattle.plan.specs.Steps.{end_of, all_come, span_of, judged_at, place_judged, missing_in, plan_judged};

use checks::{clear_first, clear_places, label_at, label_count, same_label};
use digits::is_label;
use lookup::{GREATEST_DEPTH, Halves, all_labels, is_below, padded, padded_end};
use sheet::{Label, Refusal};

// Each label of the index stands before the next.
fn labels_rise(index: &[u64]) -> bool
    requires { every (is_label greatest_depth) (labels_in index.now) ≡ true }
    ensures { result ≡ is_rising (units_of_one (labels_in index.now)) }
{
    (1..label_count(index)).all(|i| is_below(label_at(index, i - 1), padded(label_at(index, i))))
}

// Every two labels part: as they rise, it is enough that none begins the next.
fn labels_part(index: &[u64]) -> bool
    requires { Rising (labels_in index.now) }
    ensures { result ≡ all_part (labels_in index.now) }
{
    (1..label_count(index)).all(|i| !is_below(
        label_at(index, i),
        padded_end(label_at(index, i - 1)),
    ))
}

// Judges the index by 11, 16, 12, in this order.
#[tactic(auto, unfolding(crate::specs::Plan::index_fault))]
fn index_fault(index: &[u64]) -> Result<(), Refusal>
    ensures { result ≡ outcome_of_fault (index_fault (labels_in index.now)) }
{
    if !all_labels(index) {
        return Err(checks::numbered(11));
    }
    if !labels_rise(index) {
        return Err(checks::numbered(16));
    }
    if !labels_part(index) {
        return Err(checks::numbered(12));
    }
    Ok(())
}

// How many labels of the index stand before a limit. It halves by hand: a slice's partition_point takes each number for
// an item, and in the lent slice, which the C interface fixes, a label is two numbers.
fn count_below(limit: Halves, index: &[u64]) -> usize
    requires rest_bound { limit.rest ≤ 10 ^ number_digits }
    requires index_value { every (is_label greatest_depth) (labels_in index.now) ≡ true }
    requires stand_first { StandFirst (joined limit) (units_of_one (labels_in index.now)) }
    ensures { result ≡ count_below 1 (joined limit) (units_of_one (labels_in index.now)) }
{
    let mut from = 0;
    let mut to = label_count(index);
    while from < to {
        let middle = from + (to - from) / 2;
        if is_below(label_at(index, middle), limit) {
            from = middle + 1;
        } else {
            to = middle;
        }
    }
    from
}

// The place of a record in the index. One that is no label has none.
fn place_of(index: &[u64], p: Label) -> Option<usize>
    requires { Rising (labels_in index.now) }
    ensures { result ≡ place_of (labels_in index.now) p }
{
    if !is_label(GREATEST_DEPTH, p) {
        return None;
    }
    let place = count_below(padded(p), index);
    if place < label_count(index) && same_label(label_at(index, place), p) {
        return Some(place);
    }
    None
}

// A number without the odd digits at its end.
fn without_last_odd(m: u64) -> u64
    ensures { result ≡ number (before_last_odd (decimal_digits m)) }
{
    let mut left = m;
    while left % 2 == 1 {
        left /= 10;
    }
    left
}

// A label up to where its last odd digits start.
fn before_last_odd(p: Label) -> Label
    requires { is_label greatest_depth p ≡ true }
    ensures { result ≡ label_before_last_odd p }
{
    let rest = without_last_odd(p.rest);
    if rest == 0 {
        let first = without_last_odd(p.first);
        return Label { first, rest: 0 };
    }
    Label {
        first: p.first,
        rest,
    }
}

// The place where the units upstream of a unit end; they stand right after it.
fn end_of(index: &[u64], p: Label) -> usize
    requires rising { Rising (labels_in index.now) }
    requires p_value { is_label greatest_depth p ≡ true }
    ensures { result ≡ end_of (labels_in index.now) p }
{
    count_below(padded_end(before_last_odd(p)), index)
}

// The units from a place up to an end have all come. No `for`: a step is as long as the span that its place holds.
fn all_come(work: &[u32], from: usize, end: usize) -> bool
    requires end_in_bounds { end ≤ length work.now }
    requires spans { Spans work.now }
    ensures { result ≡ all_come from end work.now }
{
    let mut place = from;
    while place < end {
        let span = work[place];
        if span == 0 {
            return false;
        }
        place += span as usize;
    }
    true
}

// What a work place holds once the units from it up to an end have come.
#[tactic(auto, unfolding(crate::specs::Steps::span_of))]
fn span_of(place: usize, end: usize) -> u32
    requires { place ≤ end }
    ensures { result ≡ span_of place end }
{
    u32::try_from(end - place).unwrap_or(u32::MAX)
}

// Judges a place of the plan that names the unit at a place of the index: refused by 20 or 21, or the unit has come.
fn judge_unit(index: &[u64], place: usize, p: Label, work: &mut [u32]) -> Result<(), Refusal>
    requires judged { Judged (labels_in index.now) }
    requires p_value { place_of (labels_in index.now) p ≡ Some place }
    requires work_len { length work.old ≡ length (labels_in index.now) }
    requires spans { Spans work.old }
    ensures answer { result
        ≡ outcome_of_fault (judged_at (Some place) (labels_in index.now) p work.old).number }
    ensures work { work.new ≡ (judged_at (Some place) (labels_in index.now) p work.old).work }
{
    if 0 < work[place] {
        return Err(checks::numbered(20));
    }
    let end = end_of(index, p);
    if !all_come(work, place + 1, end) {
        return Err(checks::numbered(21));
    }
    work[place] = span_of(place, end);
    Ok(())
}

// Judges a place of the plan: refused by 20 or 21, or its unit has come.
fn judge_place(index: &[u64], p: Label, work: &mut [u32]) -> Result<(), Refusal>
    requires judged { Judged (labels_in index.now) }
    requires work_len { length work.old ≡ length (labels_in index.now) }
    requires spans { Spans work.old }
    ensures answer { result
        ≡ outcome_of_fault (place_judged (labels_in index.now) p work.old).number }
    ensures work { work.new ≡ (place_judged (labels_in index.now) p work.old).work }
{
    let Some(place) = place_of(index, p) else {
        return Err(checks::numbered(20));
    };
    judge_unit(index, place, p, work)
}

// After the last place of the plan: 22 with the first unit that has not come, or accepted.
fn first_missing(work: &[u32]) -> Result<(), Refusal>
    ensures { result ≡ missing_in 0 work.now }
{
    match work.iter().position(|span| *span == 0) {
        Some(place) => Err(Refusal {
            number: 22,
            place: place + 1,
        }),
        None => Ok(()),
    }
}

// Judges the places of the plan from the first, and then whether a unit is missing.
fn judge_plan(index: &[u64], plan: &[u64], work: &mut [u32]) -> Result<(), Refusal>
    requires judged { Judged (labels_in index.now) }
    requires work_len { length work.old ≡ length (labels_in index.now) }
    requires spans { Spans work.old }
    ensures { record { answer = result; work = work.new }
        ≡ plan_judged (labels_in index.now) 0 (labels_in plan.now) work.old }
{
    for k in 0..label_count(plan) {
        let place = k + 1;
        judge_place(index, label_at(plan, k), work).map_err(|refusal| Refusal {
            place,
            ..refusal
        })?;
    }
    first_missing(work)
}

// Judges a plan of an index that is accepted, with one work place for each of its labels, which are set to 0 first.
fn judge_from_start(index: &[u64], plan: &[u64], work: &mut [u32]) -> Result<(), Refusal>
    requires judged { Judged (labels_in index.now) }
    requires work_len { length work.old ≡ length (labels_in index.now) }
    ensures answer { result ≡ plan_from (labels_in index.now) [] 0 (labels_in plan.now) }
    ensures work { work.new
        ≡ (plan_judged (labels_in index.now) 0 (labels_in plan.now)
        (replicate (length work.old) 0)).work }
{
    clear_places(work);
    judge_plan(index, plan, work)
}

// Checks a plan: each unit of the index stands in it once, after every other unit whose water passes its outlet.
// Refused by 11, 16, 12 for the index, 3 for fewer work places than its labels, in this order; then, at the first place
// of the plan that is wrong, by 20 or 21, the lower number first, with that place from 1; then by 22, with the first
// missing unit's place in the index from 1. Once 3 is passed, the work places of the index's labels are 0; no other
// place is written.
pub fn check_plan(index: &[u64], plan: &[u64], work: &mut [u32]) -> Result<(), Refusal>
    ensures answer { result
        ≡ plan_answer (labels_in index.now) (labels_in plan.now) (length work.old) }
    ensures values { plan_values result
        ≡ plan_values (plan_answer (labels_in index.now) (labels_in plan.now)
        (length work.old)) }
    ensures work { work.new ≡ work_after (labels_in index.now) work.old }
{
    index_fault(index)?;
    let count = label_count(index);
    if work.len() < count {
        return Err(checks::numbered(3));
    }
    let answer = judge_from_start(index, plan, &mut work[..count]);
    clear_first(work, count);
    answer
}
