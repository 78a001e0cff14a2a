//! The checks of a variable that is mentioned. A check that fails returns a breach, and a rule passes that on.

ghost use Rattle.std.specs.Prelude.{◌≡◌};
ghost use Rattle.program.specs.Methods.{method_model};
ghost use Rattle.rules.specs.Mentions as table;
ghost use Rattle.rules.specs.Repeats.{require_none_again};
ghost use Rattle.rules.specs.Checks.{AnswersCheck};
ghost use Rattle.rules.specs.Sites.{method_of, row_of};

use crate::breach::{Breach, Reason};
use crate::here::Here;
use program::{Mention, Method, Role, VarId};

/// Returns the name of a variable; empty if there is no such variable.
pub(crate) fn name_of(method: &Method, variable: VarId) -> &[u8]
    ensures { result.now ≡ table.name_of (method_model method.now) variable.0 }
{
    match method.variables.get(variable.0) {
        Some(variable) => &variable.name,
        None => &[],
    }
}

/// Returns whether this is the role of a lent parameter.
pub(crate) fn is_lent_role(role: Role) -> bool
    ensures { result ≡ table.is_lent_role role }
{
    match role {
        Role::Lent => true,
        Role::Claimed | Role::Local => false,
    }
}

/// Returns whether a variable is lent; `false` if there is no such variable.
pub(crate) fn lends(method: &Method, variable: VarId) -> bool
    ensures { result ≡ table.is_lent (method_model method.now) variable.0 }
{
    match method.variables.get(variable.0) {
        Some(variable) => is_lent_role(variable.role),
        None => false,
    }
}

/// Checks that the variable has something.
pub(crate) fn require_owned(here: &Here<'_>, mention: Mention) -> Result<(), Breach>
    ensures { AnswersCheck result
        (table.require_owned (row_of here.now) mention) }
{
    if here.row.owns(mention.variable) {
        return Ok(());
    }
    Err(Breach::at(mention.place, Reason::NotOwned(mention.variable)))
}

/// Checks that the variable has nothing.
pub(crate) fn require_empty(here: &Here<'_>, mention: Mention) -> Result<(), Breach>
    ensures { AnswersCheck result
        (table.require_empty (row_of here.now) mention) }
{
    if !here.row.owns(mention.variable) {
        return Ok(());
    }
    Err(Breach::at(mention.place, Reason::Overwritten(mention.variable)))
}

/// Checks that the variable is not lent.
pub(crate) fn require_not_lent(here: &Here<'_>, mention: Mention) -> Result<(), Breach>
    ensures { AnswersCheck result (table.require_not_lent (method_of here.now) mention) }
{
    if !lends(here.site.method, mention.variable) {
        return Ok(());
    }
    Err(Breach::at(mention.place, Reason::Lent(mention.variable)))
}

/// Checks that nothing is given twice. `again` is the first mention that gives something again, if one does.
pub(crate) fn require_none_again(here: &Here<'_>, again: Option<Mention>) -> Result<(), Breach>
    ensures { AnswersCheck result (require_none_again again) }
{
    match again {
        Some(again) => Err(Breach::at(again.place, Reason::Twice(again.variable))),
        None => Ok(()),
    }
}

/// Checks that the source is another variable than the target.
pub(crate) fn require_another(
    here: &Here<'_>,
    target: Mention,
    source: Mention,
) -> Result<(), Breach>
    ensures { AnswersCheck result (table.require_another target source) }
{
    if target.variable.0 != source.variable.0 {
        return Ok(());
    }
    Err(Breach::at(source.place, Reason::Twice(source.variable)))
}
