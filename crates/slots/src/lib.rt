// What the flat disk is made of: one file in its place, as it is seen from outside too, and the plan.
#![tactic(auto)]

pub mod codes;
mod plan;
mod slot;
mod view;

pub use plan::{Plan, Planned};
pub use slot::FileSlot;
pub use view::FileView;
