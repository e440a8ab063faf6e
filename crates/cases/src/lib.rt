//! Scripts and inputs, worked by hand, and what is told or read of them.
#![tactic(auto)]

#[cfg(test)]
mod case;
#[cfg(test)]
mod inputs;
#[cfg(test)]
mod outlines;
#[cfg(test)]
mod reprints;
