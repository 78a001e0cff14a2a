//! Positions of consecutive numbers.

ghost use Rattle.std.specs.Prelude.{◌≡◌, ◌<◌, ◌↔◌, IsTrue, Contains, length, slice_index};
ghost use Rattle.contracts.specs.Positions.{numbers_of};

/// Consecutive numbers, by the first of them and their count.
#[derive(Clone, Copy)]
pub struct Listing {
    first: u32,
    count: usize,
}

impl Listing {
    ghost use Rattle.std.specs.List.{range_with_len};

    /// Returns `count` numbers, from `first` on.
    pub fn new(first: u32, count: usize) -> Listing
        ensures { numbers_of result ≡ range_with_len first count }
    {
        Listing { first, count }
    }

    /// Returns how many numbers there are.
    pub fn len(self) -> usize
        ensures { result ≡ length (numbers_of self) }
    {
        self.count
    }

    /// Returns whether a number is one of them.
    pub fn has(self, number: u32) -> bool
        ensures { IsTrue result ↔ Contains (numbers_of self) number }
    {
        number >= self.first && ((number - self.first) as usize) < self.count
    }

    /// Returns the position of one of the numbers.
    pub fn position(self, number: u32) -> usize
        requires { Contains (numbers_of self) number }
        ensures within { result < length (numbers_of self) }
        ensures at { slice_index (numbers_of self) result ≡ number }
    {
        (number - self.first) as usize
    }
}
