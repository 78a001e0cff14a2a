//! The numbers of leaves in words.

ghost use Rattle.std.specs.Prelude.{◌≡◌, ◌<◌};
ghost use Rattle.rows.specs.Leaves.{IsNumbered};
ghost use Rattle.intern.specs.Codes.{code};
ghost use Rattle.intern.specs.declared.codes.TheConstants.{LEAF_CODES};

use program::MOST_STATES;
use rows::Leaf;

/// The numbers of leaves are below this: one each for nothing, a block and an endpoint that is cut off, and one for each state.
pub const LEAF_CODES: u64 = MOST_STATES as u64 + 3;

/// Returns the number of a leaf. No two leaves have the same number.
pub fn code_of(leaf: Leaf) -> u64
    requires { IsNumbered leaf }
    ensures value { result ≡ code leaf }
    ensures below { result < LEAF_CODES }
{
    match leaf {
        Leaf::Nothing => 0,
        Leaf::Block => 1,
        Leaf::CutOff => 2,
        Leaf::State(state) => u64::from(state) + 3,
    }
}

/// Returns the leaf with this number.
pub fn leaf_at(number: u64) -> Leaf
    requires { number < LEAF_CODES }
    ensures { code result ≡ number }
{
    match number {
        0 => Leaf::Nothing,
        1 => Leaf::Block,
        2 => Leaf::CutOff,
        _ => Leaf::State((number - 3) as u32),
    }
}
