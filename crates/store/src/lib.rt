#![tactic(auto)]
// The store: one call for every line (document 01), and one that loads the solver's file (document 02, card 2).
pub mod line;
pub mod load;
