// How RANGE orders lines.
#[derive(Clone, Copy, Debug, PartialEq, Eq)]
pub struct SortOptions {
    pub descending: bool,
    pub unmarked_first: bool,
}
