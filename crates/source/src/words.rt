//! The lengths of words, and which words are reserved.

ghost use Rattle.std.specs.Prelude.{◌≡◌, ◌<◌, ◌≤◌, ℕ, true, false, length, nat_eq, slice_index};
ghost use Rattle.std.specs.Cmp.Lexicographic.{pointwise};
ghost use Rattle.source.specs.Classes.{starts_word, in_word};
ghost use Rattle.source.specs.Words.{reserved_text, word_kind, kind_among};

use crate::kind::Kind;
use crate::kinds::reserved_word;

/// Returns whether a reserved word is written like this. Most words differ in length, which is compared first. The
/// few bytes of a word are compared one by one, in a quarter of the time of `==`, which is made for long lists.
fn is_written(kind: Kind, word: &[u8]) -> bool
    ensures { result ≡ pointwise nat_eq (reserved_text kind) word.now }
{
    let text = reserved_word(kind).as_bytes();
    if text.len() != word.len() {
        return false;
    }
    let mut at = 0;
    'bytes: while at < text.len() && at < word.len() && text[at] == word[at] {
        at += 1;
    }
    at == text.len()
}

/// Returns the first of these kinds that is written like the word, or `Name`.
fn among(kinds: &[Kind], word: &[u8]) -> Kind
    ensures { result ≡ kind_among kinds.now word.now }
{
    for kind in kinds {
        if is_written(*kind, word) {
            return *kind;
        }
    }
    Kind::Name
}

/// Returns the kind of a whole word. No reserved word has one letter. The word is compared only with those that
/// begin with the same letter.
pub(crate) fn of_word(word: &[u8]) -> Kind
    requires { 0 < length word.now }
    ensures { result ≡ word_kind word.now }
{
    if word.len() == 1 {
        return Kind::Name;
    }
    match word[0] {
        b'b' => among(&[Kind::Bool, Kind::Byte, Kind::Break], word),
        b'c' => among(
            &[Kind::Class, Kind::Contract, Kind::Case, Kind::Continue],
            word,
        ),
        b'C' => among(&[Kind::Claims, Kind::ChannelClosed], word),
        b'd' => among(&[Kind::Delete], word),
        b'e' => among(&[Kind::Else, Kind::Exchange], word),
        b'E' => among(&[Kind::Exp, Kind::ExHeap], word),
        b'f' => among(&[Kind::False], word),
        b'i' => among(&[Kind::In, Kind::Int, Kind::Internal, Kind::If], word),
        b'I' => among(&[Kind::Imp], word),
        b'm' => among(&[Kind::Message], word),
        b'n' => among(&[Kind::New], word),
        b'N' => among(&[Kind::NewChannel], word),
        b'o' => among(&[Kind::One, Kind::Out], word),
        b'p' => among(&[Kind::Private, Kind::Public], word),
        b'r' => among(&[Kind::Rep, Kind::Receive, Kind::Return], word),
        b's' => of_word_in_s(word),
        b't' => among(&[Kind::True], word),
        b'v' => among(&[Kind::Void], word),
        b'w' => among(&[Kind::While], word),
        _ => Kind::Name,
    }
}

/// Returns the kind of a word that begins with `s`.
fn of_word_in_s(word: &[u8]) -> Kind
    requires { slice_index word.now 0 ≡ 115 }
    ensures { result ≡ word_kind word.now }
{
    among(
        &[
            Kind::State,
            Kind::Static,
            Kind::Struct,
            Kind::Start,
            Kind::Switch,
        ],
        word,
    )
}

/// Returns whether a word may begin with this byte.
pub(crate) fn begins(byte: u8) -> bool
    ensures { result ≡ starts_word byte }
{
    byte.is_ascii_alphabetic() || byte == b'_'
}

/// Each byte that may continue a word at its own index, and a comma at every other index. A lookup takes half the
/// time of the tests for letters, digits and `_`.
static IN_WORDS: [u8; 256] = *b"\
    ,,,,,,,,,,,,,,,,,,,,,,,,,,,,,,,,\
    ,,,,,,,,,,,,,,,,0123456789,,,,,,\
    ,ABCDEFGHIJKLMNOPQRSTUVWXYZ,,,,_\
    ,abcdefghijklmnopqrstuvwxyz,,,,,\
    ,,,,,,,,,,,,,,,,,,,,,,,,,,,,,,,,\
    ,,,,,,,,,,,,,,,,,,,,,,,,,,,,,,,,\
    ,,,,,,,,,,,,,,,,,,,,,,,,,,,,,,,,\
    ,,,,,,,,,,,,,,,,,,,,,,,,,,,,,,,,";

/// Returns whether this byte may continue a word.
fn goes_on(byte: u8) -> bool
    ensures { result ≡ in_word byte }
{
    IN_WORDS[byte as usize] != b','
}

/// Returns the number of bytes at the front that continue a word.
pub(crate) fn front_len(bytes: &[u8]) -> usize
    ensures within { result ≤ length bytes.now }
    ensures each { (k : ℕ) → k < result → in_word (slice_index bytes.now k) ≡ true }
    ensures stop { result < length bytes.now → in_word (slice_index bytes.now result) ≡ false }
{
    let mut n = 0;
    'bytes: while n < bytes.len() && goes_on(bytes[n]) {
        n += 1;
    }
    n
}
