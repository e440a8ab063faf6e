//! The lowest layer: the bytes of a script, its tokens, its statements, and the search by name.
#![tactic(auto)]

mod lex;
pub mod names;
pub mod reader;
mod spell;
pub mod statement;
pub mod token;
