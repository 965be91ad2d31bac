// The numbers of a state, in one place.

// The state's parts (docs/FORMAT.md): the session's day is at byte 2, the policy at byte 8.
pub const DAY_AT: usize = 2;

pub const POLICY_AT: usize = 8;

pub const STATE_BYTES: usize = 68880;
