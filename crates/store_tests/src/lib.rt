// The store over the flat disk, seen from outside. Apart from the store, so that an edit of it is proved without them.
#![tactic(auto)]

#[cfg(test)]
mod tests;
