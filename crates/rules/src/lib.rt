// What a store holds, in the types that its rules and its code share. The rules themselves stand in specs/.
#![tactic(auto)]

pub mod opening;
pub mod pending;
pub mod ticket;
pub mod tracker;

pub use opening::{Account, Mode, Opening, Stage};
pub use pending::{Entry, is_owing, waited_for};
pub use ticket::{Step, Ticket, Writing};
pub use tracker::Tracker;

#[cfg(test)]
mod tests;
