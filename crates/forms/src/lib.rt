#![tactic(auto)]
// Forms (document 01, "Lines"): the bytes of a line, its word and its parts, trees, and what the line says.
pub mod form;
pub mod kind;
pub mod layout;
pub mod limits;
pub mod part;
pub mod reader;
pub mod stage;
pub mod text;
pub mod tree;
pub mod word;
