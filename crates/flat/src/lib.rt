// A disk in memory: eight files of up to 4,096 bytes, steered by a plan.
#![tactic(auto)]

mod files;
mod memory;

pub use memory::FlatDisk;
pub use slots::FileView;
