// A file as it is seen from outside. Its key is asked for apart, since a view that is there or not cannot hold one.

#[derive(Clone, Copy)]
pub struct FileView<'a> {
    pub bytes: &'a [u8],
    // How many mutations have landed, and how many of these are covered.
    pub n: u64,
    pub k: u64,
    pub holds: u64,
}
