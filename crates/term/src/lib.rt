//! Terms as trees of cells in one arena: lifting, lowering, putting in, counting, comparing,
//! contexts, and the storing of what is kept.
#![tactic(auto)]

pub mod arena;
mod change;
pub mod faults;
pub mod laws;
pub mod node;
