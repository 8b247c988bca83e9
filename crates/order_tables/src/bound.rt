//! A bound between the numbers of two items.

/// A bound from one item to another. It asks that the number of `high` be at least that of `low`,
/// and greater where the bound is negative.
#[derive(Clone, Copy, Debug)]
pub struct Bound {
    pub low: u32,
    pub high: u32,
    pub negative: bool,
}
