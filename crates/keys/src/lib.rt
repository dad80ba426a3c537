// The keys of blobs: a partition and a name in it.
#![tactic(auto)]

pub mod key;
mod kinds;
mod text;

pub use key::Key;
pub use kinds::{Name, Partition};

#[cfg(test)]
mod tests;
