#![tactic(auto)]
// The upper crate: what is shown, the view and the changes (document 01). It knows nothing of lines, stages or text, and defines nothing of labels, paths or rights.
pub mod done;
pub mod insert;
pub mod moves;
mod overwrite;
pub mod remove;
pub mod rename;
pub mod shown;
