//! Laws of the pool.

ghost use Rattle.std.specs.Prelude.{◌≡◌};
ghost use Rattle.pool.specs.declared.sharing.TheConstants.{MOST_WORKERS};

/// The limit in digits.
pub fn limits()
    ensures workers { MOST_WORKERS ≡ 64 }
{}
