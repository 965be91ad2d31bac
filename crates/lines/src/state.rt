// The state (document 01, "Lines" and 13; docs/FORMAT.md): the session, then the policy.
ghost use Rattle.std.specs.Prelude.{◌≡◌, true, ◌||◌, ◌≤◌, eqb, leb, length};
ghost use Rattle.rights.specs.Limits.{state_size};
ghost use Rattle.rights.specs.Table.{table_ok};
ghost use Rattle.lines.specs.State.{user_at_e, day_in, session_ok, state_ok, agrees, store_ok};

use crate::limits::{DAY_AT, POLICY_AT, STATE_BYTES};
use forms::stage::Stage;
use rights::bytes::all_zero;
use rights::limits::DAYS_MAX;
use rights::policy_check::policy_ok;
use rights::table::{count_of, day_at, table_ok};

// Whether rules are held from stage B on only.
fn rules_in_stage(rules: u8, stage: u8) -> bool
    ensures { result ≡ (eqb rules 0 || leb 1 stage) }
{
    rules == 0 || u8::from(Stage::B) <= stage
}

// Whether there is a user at stage E alone.
fn user_at_e(state: &[u8]) -> bool
    requires { 2 ≤ length state.now }
    ensures { result ≡ user_at_e state.now }
{
    state[1] == 0 || state[0] == u8::from(Stage::E)
}

// The session's day, which is held less one.
pub(crate) fn day_in(state: &[u8]) -> usize
    requires { 4 ≤ length state.now }
    ensures { result ≡ day_in state.now }
{
    day_at(state, DAY_AT) + 1
}

// Whether the session fits its policy.
#[tactic(auto, unfolding(crate::specs::State::session_ok))]
fn session_ok(state: &[u8]) -> bool
    requires { length state.now ≡ state_size }
    ensures { result ≡ session_ok state.now }
{
    state[0] <= u8::from(Stage::E)
        && state[1] <= state[POLICY_AT]
        && day_in(state) <= DAYS_MAX
        && all_zero(&state[DAY_AT + 2..POLICY_AT])
        && rules_in_stage(state[POLICY_AT + 2], state[0])
        && user_at_e(state)
}

// Whether a state is one that 13 lets pass, beside its table or alone, whatever was lent.
#[tactic(auto, unfolding(crate::specs::State::state_ok))]
fn state_ok(state: &[u8]) -> bool
    ensures { result ≡ state_ok state.now }
{
    state.len() == STATE_BYTES && policy_ok(&state[POLICY_AT..]) && session_ok(state)
}

// Whether the root line was taken exactly if the table has a root.
fn agree(state: &[u8], table: &[u8]) -> bool
    requires { (1 ≤ length state.now) × (table_ok table.now ≡ true) }
    ensures { result ≡ agrees state.now table.now }
{
    (u8::from(Stage::C) <= state[0]) == (1 <= count_of(table))
}

// Whether state and table are what 13 lets pass, whatever was lent.
#[tactic(auto, unfolding(crate::specs::State::store_ok))]
pub fn store_ok(state: &[u8], table: &[u8]) -> bool
    ensures { result ≡ store_ok state.now table.now }
{
    table_ok(table) && state_ok(state) && agree(state, table)
}
