//! Types: what a term has, what it meets, and the judging of statements.
#![tactic(auto)]

pub mod fault;
pub mod judge;
mod steps;
pub mod typing;
