// Many pairs of units in one call: the flow question for the units of P and Q at the same place.
ghost use Rattle.std.specs.Prelude.{◌≡◌, true, length};
ghost use Rattle.sheet.specs.Record.{labels_in, label_places, units_in};
ghost use Rattle.sheet.specs.Refusal.{depth_fits, least_fits, written};
ghost use Rattle.flow.specs.Pairs.{pair_numbers, pair_count, slices_fit, pairs_answer, pairs_values, pairs_places};

use crate::{answer_fitting, answer_number};
use checks::{depth_fits, label_count, least_fits, unit_at};
use sheet::Refusal;

// P's basins, Q's basins and the answers, which have so many places, have one for each pair.
#[tactic(auto, unfolding(crate::specs::Pairs::slices_fit))]
fn slices_fit(count: usize, p_basins: usize, q_basins: usize, answers: usize) -> bool
    ensures { result ≡ slices_fit count p_basins q_basins answers }
{
    count <= p_basins && count <= q_basins && count <= answers
}

// Writes the answer for each of the pairs, of which there are count, as a byte.
fn answer_pairs(
    depth: usize,
    least: usize,
    count: usize,
    p: &[u64],
    p_basins: &[u32],
    q: &[u64],
    q_basins: &[u32],
    answers: &mut [u8],
)
    requires depth_value { (depth_fits depth ≡ true) × (least_fits least ≡ true) }
    requires count_value { count ≡ pair_count (label_places (length p.now)) (label_places (length q.now)) }
    requires answers_value { slices_fit count (length p_basins.now) (length q_basins.now) (length answers.old) ≡ true }
    ensures { answers.new ≡ written (pair_numbers depth least
        (units_in p_basins.now (labels_in p.now))
        (units_in q_basins.now (labels_in q.now))) answers.old }
{
    for i in 0..count {
        let of_p = unit_at(p_basins, p, i);
        let of_q = unit_at(q_basins, q, i);
        let answer = answer_fitting(depth, least, of_p, of_q);
        answers[i] = answer_number(answer) as u8;
    }
}

// The flow question for each pair, P's unit and Q's at the same place, with two numbers for each label: 0 No, 1 Yes, 2
// Same, 3 Undecided, 128 + the refusal's number. Answers how many pairs there are; a refused pair stops no other.
// Refused by 2, 19, 3, in this order; then no place is written.
#[tactic(auto, unfolding(crate::specs::Pairs::pairs_answer, crate::specs::Pairs::pairs_places, crate::specs::Pairs::pair_count, sheet::specs::Record::label_places))]
pub fn flow_pairs(
    depth: usize,
    least: usize,
    p: &[u64],
    p_basins: &[u32],
    q: &[u64],
    q_basins: &[u32],
    answers: &mut [u8],
) -> Result<usize, Refusal>
    ensures answer { result ≡ pairs_answer depth least (length p.now) (length p_basins.now)
        (length q.now) (length q_basins.now) (length answers.old) }
    ensures values { pairs_values result ≡ pairs_values (pairs_answer depth least (length p.now)
        (length p_basins.now) (length q.now) (length q_basins.now)
        (length answers.old)) }
    ensures places { answers.new
        ≡ pairs_places depth least p.now p_basins.now q.now
        q_basins.now answers.old }
{
    if !depth_fits(depth) {
        return Err(checks::numbered(2));
    }
    if !least_fits(least) {
        return Err(checks::numbered(19));
    }
    // as many pairs as the shorter slice of labels has
    let count = label_count(p).min(label_count(q));
    if !slices_fit(count, p_basins.len(), q_basins.len(), answers.len()) {
        return Err(checks::numbered(3));
    }
    answer_pairs(depth, least, count, p, p_basins, q, q_basins, answers);
    Ok(count)
}
