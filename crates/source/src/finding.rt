//! Findings and their codes.

ghost use Rattle.std.specs.Prelude.{◌≡◌};
ghost use Rattle.source.specs.Findings.{finding_cmp};

use crate::place::Place;
use std::cmp::Ordering;

/// The code of a finding: A for methods, C for contracts, N for names and types, S for the text, in the order in
/// which a report lists them at one place.
#[derive(Clone, Copy, Debug, PartialEq, Eq, PartialOrd, Ord)]
pub enum Code {
    A01,
    A02,
    A03,
    A04,
    A05,
    A06,
    A07,
    A08,
    A09,
    A10,
    A11,
    A12,
    A13,
    A14,
    A15,
    C01,
    C02,
    C03,
    C04,
    N01,
    N02,
    N03,
    N04,
    N05,
    N06,
    N07,
    N08,
    N09,
    S01,
    S02,
    S03,
    S04,
    S05,
    S06,
}

impl Code {
    ghost use Rattle.source.specs.Findings.{code_name};

    /// Returns the code as it is printed.
    pub fn name(self) -> &'static str
        ensures { result.now ≡ code_name self }
    {
        match self {
            Code::A01 => "A01",
            Code::A02 => "A02",
            Code::A03 => "A03",
            Code::A04 => "A04",
            Code::A05 => "A05",
            Code::A06 => "A06",
            Code::A07 => "A07",
            Code::A08 => "A08",
            Code::A09 => "A09",
            Code::A10 => "A10",
            Code::A11 => "A11",
            Code::A12 => "A12",
            Code::A13 => "A13",
            Code::A14 => "A14",
            Code::A15 => "A15",
            Code::C01 => "C01",
            Code::C02 => "C02",
            Code::C03 => "C03",
            Code::C04 => "C04",
            Code::N01 => "N01",
            Code::N02 => "N02",
            Code::N03 => "N03",
            Code::N04 => "N04",
            Code::N05 => "N05",
            Code::N06 => "N06",
            Code::N07 => "N07",
            Code::N08 => "N08",
            Code::N09 => "N09",
            Code::S01 => "S01",
            Code::S02 => "S02",
            Code::S03 => "S03",
            Code::S04 => "S04",
            Code::S05 => "S05",
            Code::S06 => "S06",
        }
    }
}

/// What is wrong, and where.
#[derive(Debug, Drop)]
pub struct Finding {
    pub place: Place,
    pub code: Code,
    pub text: String,
}

/// Compares two findings in report order: by line, by column, by the name of the code, by the bytes of the text.
pub fn compare(a: &Finding, b: &Finding) -> Ordering
    ensures { result ≡ finding_cmp a.now b.now }
{
    let lines = a.place.line.cmp(&b.place.line);
    let places = lines.then(a.place.col.cmp(&b.place.col));
    if places != Ordering::Equal {
        return places;
    }
    let codes = a.code.name().cmp(b.code.name());
    codes.then(a.text.as_bytes().cmp(b.text.as_bytes()))
}
