#![tactic(auto)]
// The solver's file (document 02, card 2): XML of a narrow kind.
pub mod document;
mod lexer;
pub mod writer;
