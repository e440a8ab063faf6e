//! Examples of lifting, lowering, putting in, counting, comparing and storing, worked by hand.
#![tactic(auto)]

#[cfg(test)]
mod binders;
#[cfg(test)]
mod keeping;
