// What a call of the library returns.

use crate::refusals::Refusal;

// What became of a line: accepted, with the answer's length, or refused.
pub type Answer = Result<usize, Refusal>;
