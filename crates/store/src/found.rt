// An opening that is worked on, under its number.
use rules::Opening;

#[derive(Clone, Copy)]
pub(crate) struct Found {
    pub number: u64,
    pub opening: Opening,
}
