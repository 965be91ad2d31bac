// The lines of a session (document 01, stage E; document 02, card 7): the one that logs a subject in, and the one that sets the day.
ghost use Rattle.std.specs.Prelude.{◌≡◌, true, Some, IfOk};
ghost use Rattle.rights.specs.PolicyBytes.{policy_of};
ghost use Rattle.rights.specs.PolicyCheck.{policy_ok};
ghost use Rattle.lines.specs.PolicyEdit.{subject_named};
ghost use Rattle.lines.specs.State.{store_ok};
ghost use Rattle.lines.specs.Refusal.{first_refusal, numbered, refusal_number};
ghost use Rattle.lines.specs.Effect.{Performs};
ghost use Rattle.lines.specs.Work.{user_checks, work_user, day_checks, work_day};

use crate::limits::{DAY_AT, POLICY_AT};
use crate::line::Answer;
use crate::policy_edit::find_name;
use crate::refusals::{Refusal, area_refusal};
use answers::answer::answer_ok;
use forms::stage::Stage;
use rights::table::day_ok;

// The number of the subject that `(user N)` names, or its refusal.
fn user_subject(policy: &[u8], name: &[u8]) -> Result<usize, Refusal>
    requires { policy_ok policy.now ≡ true }
    ensures refusal { refusal_number result ≡ first_refusal (user_checks (subject_named (policy_of policy.now) name.now)) }
    ensures subject { IfOk result (λ found. subject_named (policy_of policy.now) name.now ≡ Some found) }
{
    find_name(policy, name).ok_or(Refusal::BadName)
}

// `(user N)`.
pub fn log_in(state: &mut [u8], table: &[u8], name: &[u8], area: &mut [u8]) -> Answer
    requires { store_ok state.old table.now ≡ true }
    ensures { Performs (work_user state.old name.now)
        state.old table.now area.old (numbered result) state.new table.now area.new }
{
    let who = user_subject(&state[POLICY_AT..], name)?;
    let need = answer_ok(area);
    area_refusal(need, area.len())?;
    state[0] = u8::from(Stage::E);
    state[1] = (who + 1) as u8;
    Ok(need)
}

// The refusal of a day.
fn day_refusal(day: usize) -> Result<(), Refusal>
    ensures { refusal_number result ≡ first_refusal (day_checks day) }
{
    if !day_ok(day) {
        return Err(Refusal::BadDay);
    }
    Ok(())
}

// `(day D)`.
pub fn set_day(state: &mut [u8], table: &[u8], day: usize, area: &mut [u8]) -> Answer
    requires { store_ok state.old table.now ≡ true }
    ensures { Performs (work_day day)
        state.old table.now area.old (numbered result) state.new table.now area.new }
{
    day_refusal(day)?;
    let need = answer_ok(area);
    area_refusal(need, area.len())?;
    state[0] = u8::from(Stage::E);
    state[DAY_AT] = ((day - 1) % 256) as u8;
    state[DAY_AT + 1] = ((day - 1) / 256) as u8;
    Ok(need)
}
