//! Reading: the words of a statement are read by the grammar into cells.
#![tactic(auto)]

pub mod ahead;
pub mod fault;
pub mod parse;
pub mod parser;
pub mod read;
pub mod scope;
