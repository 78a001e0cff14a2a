//! Numbers of workers and slots that no machine word holds.

use singcheck::RunFault;

/// Returns the fault of the first option whose number has more digits than a machine word holds, if there is one.
///
/// `clap` refuses such a word as no number, but it is out of range like any other large number, and gets the same line.
pub(crate) fn fault_of(words: &[&str]) -> Option<RunFault> {
    if is_long(value_of(words, "--workers")) {
        return Some(RunFault::Workers);
    }
    if is_long(value_of(words, "--slots")) {
        return Some(RunFault::Slots);
    }
    None
}

/// Returns the value of an option, as the next word or after `=`; the empty word if there is none.
fn value_of<'a>(words: &[&'a str], option: &str) -> &'a str {
    for (number, word) in words.iter().enumerate() {
        let Some(rest) = word.strip_prefix(option) else {
            continue;
        };
        if let Some(value) = rest.strip_prefix("=") {
            return value;
        }
        if rest.is_empty() {
            return words.get(number.saturating_add(1)).copied().unwrap_or("");
        }
    }
    ""
}

/// Returns whether a word is a number with more digits than a machine word holds.
fn is_long(word: &str) -> bool {
    for byte in word.bytes() {
        if !byte.is_ascii_digit() {
            return false;
        }
    }
    !word.is_empty() && word.parse::<u64>().is_err()
}
