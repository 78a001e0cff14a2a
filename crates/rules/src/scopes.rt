//! The check of variables that go out of scope: they have nothing, except the one that is given.

ghost use Rattle.std.specs.Prelude.{◌≡◌, ◌<◌, ℕ, IfSome, None, false, option_map, true};
ghost use Rattle.program.specs.Methods.{method_model};
ghost use Rattle.program.specs.Scopes.{outer_of};
ghost use Rattle.rules.specs.Checks as checks;
ghost use Rattle.rules.specs.Checks.{AllLeadTo, IsFirstKept, IsPlain, LeadsTo, StandsFor};
ghost use Rattle.rules.specs.Mentions as table;
ghost use Rattle.rules.specs.Mentions.{given_back};
ghost use Rattle.rules.specs.Scopes.{declared_between, is_this};
ghost use Rattle.rules.specs.Sites.{method_of, row_of};

use crate::breach::{Breach, Reason};
use crate::checks::lends;
use crate::here::Here;
use program::{Mention, Method, VarId};
use source::Place;

/// Returns whether the mention names this variable; `false` if there is no mention.
fn is_named(mention: Option<Mention>, variable: VarId) -> bool
    ensures { result ≡ table.is_named mention variable.0 }
{
    match mention {
        Some(mention) => mention.variable.0 == variable.0,
        None => false,
    }
}

/// Returns whether a variable still has something that is not lent, and is not the one that is given.
fn is_kept(here: &Here<'_>, given: Option<Mention>, variable: VarId) -> bool
    ensures { result ≡ table.is_kept (method_of here.now) (row_of here.now) given variable.0 }
{
    !is_named(given, variable) && !lends(here.site.method, variable) && here.row.owns(variable)
}

/// Returns the variable of the exchange heap before this one in scope.
fn outer_of(method: &Method, variable: VarId) -> Option<VarId>
    ensures { result ≡ outer_of (method_model method.now).variables variable }
{
    method.variables.get(variable.0)?.outer
}

/// Returns whether the other is the same variable; `false` if there is no other.
fn is_this(variable: VarId, other: Option<VarId>) -> bool
    ensures { result ≡ is_this variable other }
{
    match other {
        Some(other) => variable.0 == other.0,
        None => false,
    }
}

/// Returns this variable if it still has something, else the one that was found before.
fn kept_or(
    here: &Here<'_>,
    given: Option<Mention>,
    variable: VarId,
    before: Option<VarId>,
) -> Option<VarId>
    ensures { option_map (λ v. v.0) result
        ≡ checks.kept_or (checks.if_kept (method_of here.now) (row_of here.now) given variable.0)
        (option_map (λ v. v.0) before) }
{
    if is_kept(here, given, variable) {
        Some(variable)
    } else {
        before
    }
}

/// Returns the first of all variables, in scope or not, that still has something that is not lent, and is not the one that is given.
/// Goes over the row, which is short, and looks up only the variables that have something.
fn first_of_all(here: &Here<'_>, given: Option<Mention>) -> Option<VarId>
    ensures none { result ≡ None
        → (v : ℕ) → table.is_kept (method_of here.now) (row_of here.now) given v ≡ false }
    ensures some { IfSome result
        (λ first. IsFirstKept (method_of here.now) (row_of here.now) given first.0) }
{
    for (number, leaf) in here.row.leaves().iter().enumerate() {
        if leaf.is_something() && is_kept(here, given, VarId(number)) {
            return Some(VarId(number));
        }
    }
    None
}

/// Returns whether the variable before this one in scope was declared before it, and not before the first one if this one was declared
/// after that. If there is none before this one in scope, this one was not declared after the first one.
fn leads_to(method: &Method, first: VarId, variable: VarId) -> bool
    ensures { result ≡ true → LeadsTo first.0 variable.0
        (outer_of (method_model method.now).variables variable) }
{
    match outer_of(method, variable) {
        Some(outer) => outer.0 < variable.0 && (variable.0 <= first.0 || first.0 <= outer.0),
        None => variable.0 <= first.0,
    }
}

/// Returns whether all variables up to the last one lead to the first one.
fn all_lead_to(method: &Method, first: VarId, last: VarId) -> bool
    ensures { result ≡ true → AllLeadTo (method_model method.now).variables first.0 last.0 }
{
    for number in 0..method.variables.len() {
        if number > last.0 {
            return true;
        }
        if !leads_to(method, first, VarId(number)) {
            return false;
        }
    }
    last.0 < method.variables.len()
}

/// Returns whether a variable was declared after the outer one, if there is one.
fn is_behind(variable: VarId, outer: Option<VarId>) -> bool
    ensures { result ≡ true → IfSome outer (λ o. o.0 < variable.0) }
{
    match outer {
        Some(outer) => outer.0 < variable.0,
        None => true,
    }
}

/// Returns whether `first` is plainly among the variables in scope up to `last`, without those in scope up to `outer`. Looking at each
/// variable up to the last takes less than half as long as going outwards from variable to variable, since no look-up waits for another.
fn is_in_scope(method: &Method, first: VarId, outer: Option<VarId>, last: Option<VarId>) -> bool
    ensures { result ≡ true → IsPlain (method_model method.now).variables first.0 outer last }
{
    let Some(last) = last else {
        return false;
    };
    is_behind(first, outer) && first.0 <= last.0 && all_lead_to(method, first, last)
}

/// Returns the first variable, in order of declaration, that still has something, of those in scope up to `last` without those in scope
/// up to `outer`. Usually none has, which the row alone shows, or the first of all is in scope.
fn first_kept(
    here: &Here<'_>,
    given: Option<Mention>,
    outer: Option<VarId>,
    last: Option<VarId>,
) -> Option<VarId>
    ensures { option_map (λ v. v.0) result
        ≡ checks.first_kept (method_of here.now) (row_of here.now) given
        (declared_between (method_of here.now) outer last) }
{
    let Some(first) = first_of_all(here, given) else {
        return None;
    };
    if is_in_scope(here.site.method, first, outer, last) {
        return Some(first);
    }
    first_outwards(here, given, outer, last)
}

/// Finds the same variable on the way outwards from the last one.
fn first_outwards(
    here: &Here<'_>,
    given: Option<Mention>,
    outer: Option<VarId>,
    last: Option<VarId>,
) -> Option<VarId>
    ensures { option_map (λ v. v.0) result
        ≡ checks.first_kept (method_of here.now) (row_of here.now) given
        (declared_between (method_of here.now) outer last) }
{
    let mut first = None;
    let mut at = last;
    for _ in 0..here.site.method.variables.len() {
        let Some(variable) = at else {
            return first;
        };
        if is_this(variable, outer) {
            return first;
        }
        first = kept_or(here, given, variable, first);
        at = outer_of(here.site.method, variable);
    }
    first
}

/// Checks that the variables that go out of scope at this place have nothing, except the one that is given. They are those in scope
/// up to `last`, without those in scope up to `outer`.
pub(crate) fn require_given_back(
    here: &Here<'_>,
    place: Place,
    given: Option<Mention>,
    outer: Option<VarId>,
    last: Option<VarId>,
) -> Result<(), Breach>
    ensures { StandsFor result
        (given_back (method_of here.now) (row_of here.now) place given
        (declared_between (method_of here.now) outer last)) }
{
    match first_kept(here, given, outer, last) {
        Some(variable) => Err(Breach::at(place, Reason::StillOwned(variable))),
        None => Ok(()),
    }
}
