//! Suffixes in a list.

/// A suffix in a list.
#[derive(Clone, Copy)]
pub(crate) struct Written {
    /// Where its octets begin among those of the list.
    pub start: usize,
    /// How many octets it has.
    pub len: usize,
    /// Its place in the message.
    pub place: usize,
    /// The place after its spelling.
    pub stop: usize,
    /// The hash of its octets.
    pub hash: u64,
    /// One more than the index of the last suffix before it in the same bucket, or 0 if there is none.
    pub older: usize,
}
