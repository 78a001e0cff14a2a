//! Steps of a path.

ghost use Rattle.std.specs.Prelude.{◌≡◌, ◌==◌, ◌||◌};
ghost use Rattle.std.specs.List.{list_all};
ghost use Rattle.rows.specs.Rows.{row_model};
ghost use Rattle.traces.specs.Lines.{keeps};

use crate::changes::leaf_of;
use program::{Mention, VarId};
use rules::Row;

/// A step of a path: the point and the row from which it is taken, and those to which it leads.
#[derive(Clone, Copy)]
pub(crate) struct PathStep<'a> {
    pub(crate) point: usize,
    pub(crate) before: &'a Row,
    pub(crate) next: usize,
    pub(crate) after: &'a Row,
}

impl PathStep<'_> {
    /// Returns whether a variable has after the step what it had before.
    pub(crate) fn keeps(&self, variable: VarId) -> bool
        ensures { result ≡ keeps (row_model self.now.before.now) (row_model self.now.after.now) variable.0 }
    {
        leaf_of(self.before.leaves(), variable) == leaf_of(self.after.leaves(), variable)
    }

    /// Returns whether all of these variables have what they had.
    pub(crate) fn keeps_all(&self, variables: &[VarId]) -> bool
        ensures { result ≡ list_all (λ v. keeps (row_model self.now.before.now) (row_model self.now.after.now) v.0) variables.now }
    {
        for variable in variables {
            if !self.keeps(*variable) {
                return false;
            }
        }
        true
    }

    /// Returns whether these endpoints have what they had, except this one.
    pub(crate) fn keeps_others(&self, endpoints: &[Mention], own: VarId) -> bool
        ensures { result ≡ list_all (λ e. (e.variable.0 == own.0)
            || keeps (row_model self.now.before.now) (row_model self.now.after.now) e.variable.0) endpoints.now }
    {
        for endpoint in endpoints {
            if endpoint.variable != own && !self.keeps(endpoint.variable) {
                return false;
            }
        }
        true
    }
}
