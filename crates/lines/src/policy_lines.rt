// The lines that write the policy (document 01, stages A and B).
ghost use Rattle.std.specs.Prelude.{◌≡◌, true, ◌≤◌, length, Some, IfOk};
ghost use Rattle.rights.specs.Limits.{label_max};
ghost use Rattle.rights.specs.PolicyBytes.{policy_of};
ghost use Rattle.rights.specs.PolicyCheck.{policy_ok};
ghost use Rattle.lines.specs.PolicyEdit.{subject_named};
ghost use Rattle.lines.specs.State.{store_ok};
ghost use Rattle.lines.specs.Refusal.{first_refusal, numbered, refusal_number};
ghost use Rattle.lines.specs.Effect.{Performs};
ghost use Rattle.lines.specs.Work.{subject_checks, isa_checks, rule_checks, work_subject, work_isa, work_rule};

use crate::limits::POLICY_AT;
use crate::line::Answer;
use crate::policy_edit::{
    add_isa, add_rule, add_subject, find_name, has_bracket, isa_held, path_restricted,
};
use crate::refusals::{Refusal, area_refusal};
use answers::answer::answer_ok;
use forms::stage::Stage;
use rights::labels::is_restricted;
use rights::limits::{ISA_MAX, RULES_MAX, SUBJECTS_MAX};
use rights::path::check_path;

// The refusal of `(subject N)`.
fn subject_refusal(policy: &[u8], name: &[u8]) -> Result<(), Refusal>
    requires { policy_ok policy.now ≡ true }
    ensures { refusal_number result ≡ first_refusal (subject_checks policy.now name.now) }
{
    if find_name(policy, name).is_some() {
        return Err(Refusal::BadName);
    }
    if SUBJECTS_MAX <= usize::from(policy[0]) {
        return Err(Refusal::PolicyFull);
    }
    if is_restricted(name) {
        return Err(Refusal::BannedLabel);
    }
    Ok(())
}

// `(subject N)`.
pub fn declare(state: &mut [u8], table: &[u8], name: &[u8], area: &mut [u8]) -> Answer
    requires { (store_ok state.old table.now ≡ true) × (length name.now ≤ label_max) }
    ensures { Performs (work_subject state.old name.now)
        state.old table.now area.old (numbered result) state.new table.now area.new }
{
    subject_refusal(&state[POLICY_AT..], name)?;
    let need = answer_ok(area);
    area_refusal(need, area.len())?;
    add_subject(&mut state[POLICY_AT..], name);
    Ok(need)
}

// The numbers of the subjects that `(isa N R)` names, or its refusal.
fn isa_subjects(policy: &[u8], member: &[u8], role: &[u8]) -> Result<(usize, usize), Refusal>
    requires { policy_ok policy.now ≡ true }
    ensures refusal { refusal_number result ≡ first_refusal (isa_checks policy.now
        (subject_named (policy_of policy.now) member.now) (subject_named (policy_of policy.now) role.now)) }
    ensures subjects { IfOk result (λ found. (subject_named (policy_of policy.now) member.now ≡ Some found.0)
        × (subject_named (policy_of policy.now) role.now ≡ Some found.1)) }
{
    let n = find_name(policy, member).ok_or(Refusal::BadName)?;
    let r = find_name(policy, role).ok_or(Refusal::BadName)?;
    if n <= r || isa_held(policy, n, r) {
        return Err(Refusal::BadName);
    }
    if ISA_MAX <= usize::from(policy[1]) {
        return Err(Refusal::PolicyFull);
    }
    Ok((n, r))
}

// `(isa N R)`: member is a role.
pub fn relate(state: &mut [u8], table: &[u8], member: &[u8], role: &[u8], area: &mut [u8]) -> Answer
    requires { store_ok state.old table.now ≡ true }
    ensures { Performs (work_isa state.old member.now role.now)
        state.old table.now area.old (numbered result) state.new table.now area.new }
{
    let (n, r) = isa_subjects(&state[POLICY_AT..], member, role)?;
    let need = answer_ok(area);
    area_refusal(need, area.len())?;
    add_isa(&mut state[POLICY_AT..], n, r);
    Ok(need)
}

// The number of the subject that `(rule accept|deny RIGHT PATH N)` names, or its refusal.
fn rule_subject(policy: &[u8], path: &[u8], name: &[u8]) -> Result<usize, Refusal>
    requires { policy_ok policy.now ≡ true }
    ensures refusal { refusal_number result
        ≡ first_refusal (rule_checks policy.now path.now (subject_named (policy_of policy.now) name.now)) }
    ensures subject { IfOk result (λ found. subject_named (policy_of policy.now) name.now ≡ Some found) }
{
    let Some(_) = check_path(path) else {
        return Err(Refusal::BadPath);
    };
    let who = find_name(policy, name).ok_or(Refusal::BadName)?;
    if has_bracket(path) {
        return Err(Refusal::RuleBracket);
    }
    if RULES_MAX <= usize::from(policy[2]) {
        return Err(Refusal::PolicyFull);
    }
    if path_restricted(path) {
        return Err(Refusal::BannedLabel);
    }
    Ok(who)
}

// `(rule accept|deny RIGHT PATH N)`: accept is 1 or 0, right the right's bit.
pub fn rule(
    state: &mut [u8],
    table: &[u8],
    accept: u8,
    right: u8,
    path: &[u8],
    name: &[u8],
    area: &mut [u8],
) -> Answer
    requires { store_ok state.old table.now ≡ true }
    ensures { Performs (work_rule state.old accept right path.now name.now)
        state.old table.now area.old (numbered result) state.new table.now area.new }
{
    let who = rule_subject(&state[POLICY_AT..], path, name)?;
    let need = answer_ok(area);
    area_refusal(need, area.len())?;
    add_rule(&mut state[POLICY_AT..], accept, right, who, path);
    state[0] = u8::from(Stage::B);
    Ok(need)
}
