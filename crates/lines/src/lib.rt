#![tactic(auto)]
// Lines (document 01): the state, stages and refusals, and the work of every form.
pub mod changes;
pub mod limits;
pub mod line;
pub mod policy_edit;
pub mod policy_lines;
pub mod queries;
pub mod refusals;
pub mod session;
pub mod state;
pub mod tree_lines;
