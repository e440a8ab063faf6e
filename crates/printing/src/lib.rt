//! The printer: writes the text of a term into the caller's bytes.
#![tactic(auto)]

pub mod fault;
mod forms;
mod lead;
mod measure;
mod page;
pub mod printer;
mod sink;
#[cfg(test)]
mod tests;
