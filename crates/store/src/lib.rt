// A store of blobs over any disk: the tables of the ledger, and what the calls ask of the disk.
#![tactic(auto)]

mod answers;
pub mod asks;
pub mod counts;
pub mod finishes;
mod found;
pub mod opens;
pub mod storage;
pub mod tokens;

pub use counts::Counts;
pub use storage::Store;
pub use tokens::{Blob, Kind, Opened, Owing, Token};
