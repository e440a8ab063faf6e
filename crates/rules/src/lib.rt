//! The rules of types and of normal forms as a table, what follows from them, and the names that
//! the table and the code share.
#![tactic(auto)]

pub mod laws;
pub mod refusal;
