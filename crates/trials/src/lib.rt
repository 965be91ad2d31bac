#![tactic(auto)]
// The lower crate for callers that have checked nothing: C programs (by crate trials_c), tests and benches. Each function checks all that it is lent first,
// and says so where the bytes are no table or no policy, the subject is not declared or an area is too short.
ghost use Rattle.std.specs.Prelude.{◌≡◌, ◌≤◌, true, false, length, IfSome, IfOk};
ghost use Rattle.rights.specs.Bytes.{all};
ghost use Rattle.rights.specs.PathReader.{path_of};
ghost use Rattle.rights.specs.Table.{table_ok};
ghost use Rattle.rights.specs.PolicyCheck.{policy_ok};
ghost use Rattle.trials.specs.Trials.{either, word_answer, asks, asks_rights, below, RightsAnswered, asks_nodes, SelectionAnswered};

use rights::isa::{own_subjects, roles_of};
use rights::limits::{RECORDS_MAX, SUBJECTS_MAX};
use rights::nodes::Shown;
use rights::path::check_path;
use rights::policy::is_policy_word;
use rights::policy_check::policy_ok;
use rights::rights::rights_on;
use rights::selection::select;
use rights::table::{count_of, table_ok};

// Why a path was not run.
#[derive(Clone, Copy, Debug, PartialEq, Eq)]
pub enum TrialError {
    // The path is not well formed.
    NotWellFormed,
    // It was asked of something else than nodes of a table.
    NotAsked,
}

// Whether s is a well-formed path.
pub fn trial_path(s: &[u8]) -> bool
    ensures { result ≡ either (path_of s.now) true false }
{
    check_path(s).is_some()
}

// Whether t is a table.
pub fn trial_table(t: &[u8]) -> bool
    ensures { result ≡ table_ok t.now }
{
    table_ok(t)
}

// Whether p is a policy.
pub fn trial_policy(p: &[u8]) -> bool
    ensures { result ≡ policy_ok p.now }
{
    policy_ok(p)
}

// Whether a label is a policy word; nothing where the bytes are no policy.
pub fn trial_word(policy: &[u8], label: &[u8]) -> Option<bool>
    ensures { result ≡ word_answer policy.now label.now }
{
    if !policy_ok(policy) {
        return None;
    }
    Some(is_policy_word(policy, label))
}

// Whether these are a policy, a subject of it and a table.
fn may_ask(policy: &[u8], u: usize, table: &[u8]) -> bool
    ensures { result ≡ asks policy.now u table.now }
{
    policy_ok(policy) && (u < usize::from(policy[0]) && table_ok(table))
}

// Whether they are, with room for a byte a node.
fn may_ask_rights(policy: &[u8], u: usize, table: &[u8], room: usize) -> bool
    ensures { result ≡ asks_rights policy.now u table.now room }
{
    may_ask(policy, u, table) && count_of(table) <= room
}

// The rights of subject u on each node of a table, one byte a node in out, and the number of nodes; or nothing, and out as it was.
pub fn trial_rights(policy: &[u8], u: usize, table: &[u8], out: &mut [u8]) -> Option<usize>
    ensures tried { RightsAnswered policy.now u table.now out.old out.new result }
    ensures few { IfSome result (λ n. n ≤ 16384) }
{
    if !may_ask_rights(policy, u, table, out.len()) {
        return None;
    }
    rights_on(policy, u, table, out);
    Some(count_of(table))
}

// Whether each number is that of one of n records, hidden or not.
fn all_below(shown: &[u16], n: usize) -> bool
    ensures { result ≡ all (below n) shown.now }
{
    shown.iter().all(|x| usize::from(*x) % RECORDS_MAX < n)
}

// Whether they are, with at most 16,384 numbers of the table's records and room for a byte a number.
fn may_select(policy: &[u8], u: usize, table: &[u8], shown: &[u16], room: usize) -> bool
    ensures { result ≡ asks_nodes policy.now u table.now shown.now room }
{
    may_ask(policy, u, table)
        && (shown.len() <= RECORDS_MAX
            && (shown.len() <= room && all_below(shown, count_of(table))))
}

// Which of the shown nodes a path selects, 1 or 0 in the first bytes of marks, and the number of shown nodes; or why not, and marks as it was.
pub fn trial_select(
    policy: &[u8],
    u: usize,
    table: &[u8],
    shown: &[u16],
    path: &[u8],
    marks: &mut [u8],
) -> Result<usize, TrialError>
    ensures tried { SelectionAnswered policy.now u table.now shown.now path.now marks.old
        marks.new result }
    ensures few { IfOk result (λ n. n ≤ 16384) }
{
    if !may_select(policy, u, table, shown, marks.len()) {
        return Err(TrialError::NotAsked);
    }
    let Some(_) = check_path(path) else {
        return Err(TrialError::NotWellFormed);
    };
    let roles = roles_of(policy, u);
    let mut subjects = [0u8; SUBJECTS_MAX];
    let m = own_subjects(policy, u, &roles, &mut subjects);
    let nodes = Shown {
        table,
        numbers: shown,
    };
    select(policy, &subjects[0..m], &nodes, path, marks);
    Ok(shown.len())
}
