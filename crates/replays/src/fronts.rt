//! Digits, spaces and lines at the front of bytes, and what does not count at the end of a line.

ghost use Rattle.std.specs.Prelude.{◌≡◌, ◌<◌, ◌∷◌, [], ℕ, ◌==◌, ◌-◌, ◌^◌, List, min, length, IfNone, IfSome};
ghost use Rattle.std.specs.Char.{is_ascii_digit};
ghost use Rattle.std.specs.List.{prefix_len, position_or_len, slice_split};
ghost use Rattle.std.specs.Str.Lines.{strip_carriage_return};
ghost use Rattle.std.specs.Str.Parse.{AllDigits, digits_value};
ghost use Rattle.replays.specs.Fronts.{BeginsWith, is_space};
ghost use Rattle.replays.specs.Schedules.{without_comment, without_spaces_at_end};

use crate::limits::MOST_NUMBER;

/// Returns the number of digits at the front.
fn digits_at(bytes: &[u8]) -> usize
    ensures { result ≡ prefix_len is_ascii_digit bytes.now }
{
    let mut n = 0;
    'digits: while n < bytes.len() && bytes[n].is_ascii_digit() {
        n += 1;
    }
    n
}

/// Returns the number of spaces at the front.
pub(crate) fn spaces_at(bytes: &[u8]) -> usize
    ensures { result ≡ prefix_len is_space bytes.now }
{
    let mut n = 0;
    'spaces: while n < bytes.len() && bytes[n] == b' ' {
        n += 1;
    }
    n
}

/// Returns the number of bytes before the first one of this value.
fn bytes_before(byte: u8, bytes: &[u8]) -> usize
    ensures { result ≡ position_or_len (λ b. b == byte) bytes.now }
{
    let mut n = 0;
    'others: while n < bytes.len() && bytes[n] != byte {
        n += 1;
    }
    n
}

/// Returns the value of digits, at most `u64::MAX`.
fn capped_value(digits: &[u8]) -> u64
    requires { AllDigits 10 digits.now }
    ensures { result ≡ min (digits_value 10 digits.now) (2 ^ 64 - 1) }
{
    let mut value = 0u64;
    for digit in digits {
        value = value
            .saturating_mul(10)
            .saturating_add(u64::from(*digit - b'0'));
    }
    value
}

/// Returns the number at the front and the bytes after its digits. `None` if there is no digit or the number is above
/// `MOST_NUMBER`.
pub(crate) fn number_at(bytes: &[u8]) -> Option<(u64, &[u8])>
    ensures some { IfSome result (λ r. BeginsWith bytes.now r.0 r.1.now) }
    ensures none { IfNone result ((n : ℕ) (rest : List ℕ) → ¬ BeginsWith bytes.now n rest) }
{
    let (digits, rest) = bytes.split_at(digits_at(bytes));
    let value = capped_value(digits);
    if digits.is_empty() || value > MOST_NUMBER {
        return None;
    }
    Some((value, rest))
}

/// Returns the first line, without its end, and the bytes after that end. `None` if no line ends.
pub(crate) fn first_line(bytes: &[u8]) -> Option<(&[u8], &[u8])>
    ensures some { IfSome result (λ r. slice_split (λ b. b == 10) bytes.now ≡ r.0.now ∷ slice_split (λ b. b == 10) r.1.now) }
    ensures shorter { IfSome result (λ r. length r.1.now < length bytes.now) }
    ensures none { IfNone result (slice_split (λ b. b == 10) bytes.now ≡ bytes.now ∷ []) }
{
    let (line, rest) = bytes.split_at(bytes_before(b'\n', bytes));
    match rest {
        [_, behind @ ..] => Some((line, behind)),
        [] => None,
    }
}

/// Returns a line without the CR at its end, if it has one.
pub(crate) fn without_return(line: &[u8]) -> &[u8]
    ensures { result.now ≡ strip_carriage_return line.now }
{
    match line.split_last() {
        Some((b'\r', front)) => front,
        _ => line,
    }
}

/// Returns the bytes without the spaces at their end.
fn without_spaces_at_end(bytes: &[u8]) -> &[u8]
    ensures { result.now ≡ without_spaces_at_end bytes.now }
{
    let mut n = bytes.len();
    'trailing: while n > 0 && bytes[n - 1] == b' ' {
        n -= 1;
    }
    &bytes[..n]
}

/// Returns a line without its comment, which goes from the first `#` to the end, and without the spaces before the
/// comment. A line without a `#` is returned as it is.
pub(crate) fn without_comment(line: &[u8]) -> &[u8]
    ensures { result.now ≡ without_comment line.now }
{
    let end = bytes_before(b'#', line);
    if end < line.len() {
        without_spaces_at_end(&line[..end])
    } else {
        line
    }
}
