//! The terms of a sum, while its factors are judged from the left.

ghost use Rattle.std.specs.Prelude.{IfOk, List};
ghost use Rattle.declarations.specs.declared.mistake.Mistake.{Mistake as MistakeModel};
ghost use Rattle.names.specs.Expressions.{InScope};
ghost use Rattle.names.specs.Operands.{IsOperand};
ghost use Rattle.names.specs.Shapes.{Shape};
ghost use Rattle.names.specs.Terms.{IsJudgedTerms, TermShapes, first_term, whole};

use crate::operands::{Joint, Operand, join};
use declarations::Mistake;
use source::Memory;

/// The terms before the last one, joined, if there are any, and the last one.
#[derive(Clone, Copy)]
pub(crate) struct Terms {
    pub(crate) before: Option<Operand>,
    pub(crate) last: Operand,
}

impl Terms {
    /// Returns the terms of a sum with this factor alone.
    pub(crate) fn from_first(first: Operand) -> Terms
        ensures { (s : InScope) (e : Shape) (old new : List MistakeModel) → IsOperand s e old new first
            → IsJudgedTerms s (first_term e) old new result }
    {
        Terms {
            before: None,
            last: first,
        }
    }
}

/// Returns all terms as one operand; adds the mistakes in the operator before the last one.
#[inline(always)]
pub(crate) fn joined_terms(terms: Terms, found: &mut Vec<Mistake>) -> Result<Operand, Memory>
    ensures { IfOk result (λ o. (s : InScope) (t : TermShapes) (start : List MistakeModel) → IsJudgedTerms s t start found.old.items terms
        → IsOperand s (whole t) start found.new.items o) }
{
    match terms.before {
        None => Ok(terms.last),
        Some(before) => join(Joint::Sum, before, terms.last, found),
    }
}
