//! The lines that the programs print.
#![tactic(auto)]

pub mod input;
pub mod lines;
pub mod outline;
mod refusal;
pub mod reprint;
mod told;
