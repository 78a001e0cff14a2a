//! Findings in a sorted set.

ghost use Rattle.std.specs.Prelude.{◌≡◌};
ghost use Rattle.std.specs.Cmp.{partial_equiv_from_equiv, partial_order_from_total};
ghost use Rattle.std.specs.Cmp.Rules.{comparing};
ghost use Rattle.std.specs.Ordering.{as_partial_cmp, eq_by_cmp};
ghost use Rattle.std.proofs.Common.{rules};
ghost use Rattle.std.proofs.lemmas.Cmp.{eq_by_cmp_equiv};
ghost use Rattle.analyse.specs.Told.{told_cmp, told_total};

use source::{Finding, compare};
use std::cmp::Ordering;

/// A finding in a sorted set, in the order of a report.
#[derive(Drop)]
pub(crate) struct Told {
    pub(crate) finding: Finding,
}

impl PartialEq for Told {
    ghost eq = { eq_by_cmp told_cmp };

    ghost laws = { partial_equiv_from_equiv (eq_by_cmp_equiv told_total) };

    fn eq(&self, other: &Told) -> bool {
        self.cmp(other) == Ordering::Equal
    }
}

impl Eq for Told {
    ghost laws = { eq_by_cmp_equiv told_total };
}

impl PartialOrd for Told {
    ghost partial_cmp = { as_partial_cmp told_cmp };

    ghost laws = { partial_order_from_total told_total };

    fn partial_cmp(&self, other: &Told) -> Option<Ordering> {
        Some(self.cmp(other))
    }
}

impl Ord for Told {
    ghost cmp = { told_cmp };

    ghost total = { Prim.search (comparing, rules) };

    ghost matches_partial_cmp = { Prim.search (comparing, rules) };

    ghost matches_eq = { Prim.search (comparing, rules) };

    fn cmp(&self, other: &Told) -> Ordering {
        compare(&self.finding, &other.finding)
    }
}
