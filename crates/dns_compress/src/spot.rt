//! Places of suffixes.

/// The place of a suffix, and the place after its spelling.
#[derive(Clone, Copy, Default)]
pub(crate) struct Spot {
    pub place: usize,
    pub stop: usize,
}
