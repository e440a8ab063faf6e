//! Normal forms, with their exact cost.
#![tactic(auto)]

pub mod halt;
pub mod look;
pub mod norm;
pub mod site;
