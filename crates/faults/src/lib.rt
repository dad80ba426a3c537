// Why a disk failed, and why a call was refused.
#![tactic(auto)]

pub mod disk;
pub mod kinds;
pub mod store;

pub use disk::DiskFault;
pub use kinds::{
    Failed, FlushFault, Kind, LengthFault, OpenFault, Refuses, ResizeFault, UnbindFault, WriteFault,
};
pub use store::{Failure, Fault};

#[cfg(test)]
mod tests;
