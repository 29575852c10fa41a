// The check of a survey plan for hosts in C.
ghost use Rattle.std.specs.Prelude.{◌≡◌, length};
ghost use Rattle.sheet.specs.Record.{labels_in};
ghost use Rattle.plan.specs.Plan.{plan_answer, work_after};
ghost use Rattle.exports.specs.Exports.{plan_code};

use sheet::Refusal;

// The refusal's number + 256 × its place; 0 if accepted.
fn plan_code(answer: Result<(), Refusal>) -> u64
    ensures { result ≡ plan_code answer }
{
    match answer {
        Ok(()) => 0,
        Err(refusal) => refusal.number as u64 + ((refusal.place as u64) << 8),
    }
}

// Checks a plan of the units of one basin against the labels of that basin's index.
#[unsafe(no_mangle)]
pub extern "C" fn pf_check_plan(index: &[u64], plan: &[u64], work: &mut [u32]) -> u64
    ensures answer { result ≡ plan_code (plan_answer (labels_in index.now) (labels_in plan.now)
        (length work.old)) }
    ensures work { work.new ≡ work_after (labels_in index.now) work.old }
{
    plan_code(plan::check_plan(index, plan, work))
}
