// What the lines of stages A and B ask of a policy and write into it (document 01, "Lines" and "Rights"; refusals 5, 6, 7 and 9).
ghost use Rattle.std.specs.Prelude.{◌≡◌, true, ◌+◌, ◌*◌, ◌≤◌, ◌<◌, length, take, drop};
ghost use Rattle.rights.specs.Limits.{label_max, policy_size};
ghost use Rattle.rights.specs.PathReader.{bad, path_of};
ghost use Rattle.rights.specs.PolicyBytes.{policy_of, subject_count, isa_count, rule_count, isa_n, isa_r};
ghost use Rattle.rights.specs.PolicyCheck.{policy_ok};
ghost use Rattle.lines.specs.PolicyEdit.{subject_named, is_line, isa_held, has_bracket, Plain, steps_in, path_restricted, axis_byte, step_records, rule_head, with_subject, with_isa, with_rule};
ghost use Rattle.rights.specs.Record.{pasted};

use rights::labels::is_restricted;
use rights::limits::{
    ISA_AT, ISA_BYTES, RECORD_BYTES, RULE_BYTES, RULES_AT, STEPS_AT, SUBJECTS_AT,
};
use rights::path::{Axis, byte_is, read_step};
use rights::policy::is_name;
use rights::record::put_name;

// The number of the subject of a name.
pub(crate) fn find_name(policy: &[u8], name: &[u8]) -> Option<usize>
    requires { policy_ok policy.now ≡ true }
    ensures { result ≡ subject_named (policy_of policy.now) name.now }
{
    for u in 0..usize::from(policy[0]) {
        if is_name(policy, u, name) {
            return Some(u);
        }
    }
    None
}

// Whether isa line k says that subject n is an r.
fn is_line(policy: &[u8], k: usize, n: usize, r: usize) -> bool
    requires { (k < 128) × (policy_size ≤ length policy.now) }
    ensures { result ≡ is_line n r (isa_n policy.now k, isa_r policy.now k) }
{
    let a = ISA_AT + k * ISA_BYTES;
    usize::from(policy[a]) == n && usize::from(policy[a + 1]) == r
}

// Whether the isa line of subjects n and r is held already.
pub(crate) fn isa_held(policy: &[u8], n: usize, r: usize) -> bool
    requires { policy_ok policy.now ≡ true }
    ensures { result ≡ isa_held (policy_of policy.now) n r }
{
    (0..usize::from(policy[1])).any(|k| is_line(policy, k, n, r))
}

// Whether a rule's path has a bracket: one stands after the test of a step.
pub(crate) fn has_bracket(s: &[u8]) -> bool
    requires { path_of s.now ≡ bad → ⊥ }
    ensures { result ≡ has_bracket s.now }
{
    let mut at = 1;
    while at < s.len() {
        let Some(step) = read_step(s, at) else {
            return false;
        };
        if byte_is(s, step.end, b'[') {
            return true;
        }
        if !byte_is(s, step.end, b'/') {
            return false;
        }
        at = step.end + 1;
    }
    false
}

// The first byte of a step's record.
fn axis_byte(axis: Axis) -> u8
    ensures { result ≡ axis_byte axis }
{
    match axis {
        Axis::Child => 0,
        Axis::Descendant => 1,
    }
}

// Whether a step of a rule's path names RESTRICTED.
pub(crate) fn path_restricted(s: &[u8]) -> bool
    requires { Plain s.now }
    ensures { result ≡ path_restricted s.now }
{
    let mut i = 0;
    while i < s.len() {
        let Some(step) = read_step(s, i + 1) else {
            return false;
        };
        if is_restricted(&s[step.at..step.end]) {
            return true;
        }
        i = step.end;
    }
    false
}

// Adds a subject of this name.
pub(crate) fn add_subject(policy: &mut [u8], name: &[u8])
    requires { (policy_ok policy.old ≡ true) × (subject_count policy.old < 64) × (length name.now ≤ label_max) }
    ensures { policy.new ≡ with_subject policy.old name.now }
{
    let count = policy[0];
    let a = SUBJECTS_AT + usize::from(count) * RECORD_BYTES;
    put_name(policy, a, 0, name);
    policy[0] = count + 1;
}

// Adds the isa line of subjects n and r.
pub(crate) fn add_isa(policy: &mut [u8], n: usize, r: usize)
    requires { (policy_ok policy.old ≡ true) × (isa_count policy.old < 128) × (n < subject_count policy.old)
        × (r < subject_count policy.old) }
    ensures { policy.new ≡ with_isa policy.old n r }
{
    let count = policy[1];
    let a = ISA_AT + usize::from(count) * ISA_BYTES;
    policy[a] = n as u8;
    policy[a + 1] = r as u8;
    policy[1] = count + 1;
}

// Puts the steps that a path writes at byte `at`, and says how many they are.
fn put_steps(policy: &mut [u8], at: usize, path: &[u8]) -> usize
    requires { Plain path.now × (at + 512 ≤ length policy.old) }
    ensures { (result ≡ length (steps_in path.now))
        × (policy.new ≡ pasted policy.old at (step_records (steps_in path.now))) }
{
    let mut n = 0;
    let mut i = 0;
    while i < path.len() {
        let Some(step) = read_step(path, i + 1) else {
            return n;
        };
        let first = axis_byte(step.axis);
        put_name(
            policy,
            at + n * RECORD_BYTES,
            first,
            &path[step.at..step.end],
        );
        n += 1;
        i = step.end;
    }
    n
}

// Puts what stands before a rule's steps at byte a.
fn put_head(policy: &mut [u8], a: usize, accept: u8, bit: u8, who: u8, n: u8)
    requires { a + 8 ≤ length policy.old }
    ensures { policy.new ≡ pasted policy.old a (rule_head accept bit who n) }
{
    policy[a..a + STEPS_AT].copy_from_slice(&[accept, bit, who, n, 0, 0, 0, 0]);
}

// Adds a rule: accept is 1 to accept and 0 to deny, bit the right's, who the subject's number, path the text of its path.
pub(crate) fn add_rule(policy: &mut [u8], accept: u8, bit: u8, who: usize, path: &[u8])
    requires { (policy_ok policy.old ≡ true) × (rule_count policy.old < 128) × (who < subject_count policy.old) × Plain path.now }
    ensures { policy.new ≡ with_rule policy.old accept bit who (steps_in path.now) }
{
    let count = policy[2];
    let a = RULES_AT + usize::from(count) * RULE_BYTES;
    let n = put_steps(policy, a + STEPS_AT, path);
    put_head(policy, a, accept, bit, who as u8, n as u8);
    policy[2] = count + 1;
}
