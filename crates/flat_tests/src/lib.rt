// The flat disk at its boundaries, seen from outside. Apart from the disk, so that an edit of it is proved without them.
#![tactic(auto)]

#[cfg(test)]
mod tests;
