// What names remember between their openings: at most one entry for each, in memory that never grows.
#![tactic(auto)]

pub mod entries;

pub use entries::{NAMES, Pending};

#[cfg(test)]
mod tests;
