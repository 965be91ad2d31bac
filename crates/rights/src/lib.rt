#![tactic(auto)]
// The lower crate: labels, tables, paths, policies and rights (document 01). It knows nothing of commands.
pub mod bytes;
mod groups;
pub mod isa;
pub mod labels;
pub mod limits;
pub mod marks;
pub mod nodes;
mod passes;
pub mod path;
pub mod policy;
pub mod policy_check;
pub mod record;
pub mod rights;
pub mod selection;
pub mod table;
mod vocabulary;
