//! The lengths and values of numbers.

ghost use Rattle.std.specs.Prelude.{◌≡◌, ◌^◌, ◌-◌, ◌<◌, ◌≤◌, ℕ, true, false, min, length, slice_index};
ghost use Rattle.std.specs.Char.{is_ascii_digit};
ghost use Rattle.source.specs.Numbers.{number_value};

/// The greatest number allowed.
pub(crate) const MAX_NUMBER: u32 = 2_147_483_647;

/// Returns the number of digits at the front.
pub(crate) fn front_len(bytes: &[u8]) -> usize
    ensures within { result ≤ length bytes.now }
    ensures each { (k : ℕ) → k < result → is_ascii_digit (slice_index bytes.now k) ≡ true }
    ensures stop { result < length bytes.now → is_ascii_digit (slice_index bytes.now result) ≡ false }
{
    let mut n = 0;
    'digits: while n < bytes.len() && bytes[n].is_ascii_digit() {
        n += 1;
    }
    n
}

/// Returns the value of the digits, or `u32::MAX` if it is greater.
pub(crate) fn capped_value(digits: &[u8]) -> u32
    requires { (k : ℕ) → k < length digits.now → is_ascii_digit (slice_index digits.now k) ≡ true }
    ensures { result ≡ min (number_value digits.now) (2 ^ 32 - 1) }
{
    let mut value = 0u32;
    for digit in digits {
        value = value
            .saturating_mul(10)
            .saturating_add(u32::from(*digit - b'0'));
    }
    value
}
