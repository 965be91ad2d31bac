#![tactic(auto)]
// The functions of crate trials for C programs: tests and benches, with a number for each answer. Each slice is lent as a pointer and a length.
ghost use Rattle.std.specs.Prelude.{◌≡◌, ◌≤◌, IfOk};
ghost use Rattle.rights.specs.Table.{table_ok};
ghost use Rattle.rights.specs.PolicyCheck.{policy_ok};
ghost use Rattle.trials.specs.Trials.{answer_code, yes, path_code, word_code, RightsTried, SelectionTried};

use trials::TrialError;

// For what was asked of something else.
const REFUSED: i64 = -1;

// For a path that is not well formed.
const NOT_WELL_FORMED: i64 = -2;

// The number of an answer.
// Kept: a number, which the C interface returns.
fn number(answer: Result<usize, TrialError>) -> i64
    requires { IfOk answer (λ n. n ≤ 16384) }
    ensures { result ≡ answer_code answer }
{
    match answer {
        Ok(n) => n as i64,
        Err(TrialError::NotWellFormed) => NOT_WELL_FORMED,
        Err(TrialError::NotAsked) => REFUSED,
    }
}

// Whether s is a well-formed path: 1 or 0.
#[unsafe(no_mangle)]
pub extern "C" fn trial_path(s: &[u8]) -> i64
    ensures { result ≡ path_code s.now }
{
    i64::from(trials::trial_path(s))
}

// Whether t is a table: 1 or 0.
#[unsafe(no_mangle)]
pub extern "C" fn trial_table(t: &[u8]) -> i64
    ensures { result ≡ yes (table_ok t.now) }
{
    i64::from(trials::trial_table(t))
}

// Whether p is a policy: 1 or 0.
#[unsafe(no_mangle)]
pub extern "C" fn trial_policy(p: &[u8]) -> i64
    ensures { result ≡ yes (policy_ok p.now) }
{
    i64::from(trials::trial_policy(p))
}

// Whether a label is a policy word: 1 or 0, or -1 where the bytes are no policy.
#[unsafe(no_mangle)]
pub extern "C" fn trial_word(policy: &[u8], label: &[u8]) -> i64
    ensures { result ≡ word_code policy.now label.now }
{
    let Some(is_word) = trials::trial_word(policy, label) else {
        return REFUSED;
    };
    i64::from(is_word)
}

// The rights of subject u on each node of a table, one byte a node in out, and the number of nodes; or -1, and out as it was.
#[unsafe(no_mangle)]
pub extern "C" fn trial_rights(policy: &[u8], u: usize, table: &[u8], out: &mut [u8]) -> i64
    ensures { RightsTried policy.now u table.now out.old out.new result }
{
    number(trials::trial_rights(policy, u, table, out).ok_or(TrialError::NotAsked))
}

// Which of the shown nodes a path selects, 1 or 0 in the first bytes of marks, and the number of shown nodes; or marks as it was, and -2 where the path
// is not well formed, -1 where it was asked of something else than nodes of a table.
#[unsafe(no_mangle)]
pub extern "C" fn trial_select(
    policy: &[u8],
    u: usize,
    table: &[u8],
    shown: &[u16],
    path: &[u8],
    marks: &mut [u8],
) -> i64
    ensures { SelectionTried policy.now u table.now shown.now path.now marks.old
        marks.new result }
{
    number(trials::trial_select(policy, u, table, shown, path, marks))
}
