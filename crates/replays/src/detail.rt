//! How much of a run has lines.

/// Which events of a run have lines.
#[derive(Clone, Copy, Debug, PartialEq, Eq)]
pub enum Detail {
    /// None of them.
    Nothing,
    /// All but uses, moves, the ends of scopes, and conditions that go one way only.
    Notable,
    /// All of them.
    Everything,
}
