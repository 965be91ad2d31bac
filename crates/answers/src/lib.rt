#![tactic(auto)]
// Answers (document 01, "What is written"): the bytes of each answer, put into the lent area.
pub mod answer;
pub mod sheet;
