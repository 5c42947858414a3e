//! Where a row of cells stands in a list of slots by bucket.

/// Where the slots of a row of cells stand in a list of slots by bucket: at the places from `from` to below `to`, and
/// where the row goes on in the first buckets also at those below `wrapped`.
#[derive(Clone, Copy, Debug, PartialEq, Eq)]
pub struct RowPlaces {
    pub from: usize,
    pub to: usize,
    pub wrapped: usize,
}
