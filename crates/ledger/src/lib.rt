// The tables of a store: its names, its openings and its tickets, and the counters that number the last two, with what
// the calls of a store do to them. All memory is had when they are made.
#![tactic(auto)]

pub mod tables;

pub use tables::Ledger;

#[cfg(test)]
mod tests;
