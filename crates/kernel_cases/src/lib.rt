//! Statements judged after no entries, with their types, values, refusals and costs, worked from the
//! rules.
#![tactic(auto)]

#[cfg(test)]
mod case;
#[cfg(test)]
mod lcplus_first;
#[cfg(test)]
mod lcplus_second;
#[cfg(test)]
mod others;
