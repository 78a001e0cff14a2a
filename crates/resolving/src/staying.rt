//! What stays in scope when a block, a loop or a switch is left, and what does not.

ghost use Rattle.std.specs.Prelude.{◌≡◌, ℕ, List, []};
ghost use Rattle.program.specs.Statements as seen;
ghost use Rattle.program.specs.Statements.{statement_model};
ghost use Rattle.program.specs.declared.statement.Effect.TheVariants.{Break, Continue};
ghost use Rattle.resolving.specs.Frames.{IsLocalFrame, number_model, staying_model};
ghost use Rattle.resolving.specs.Locals.{LocalFrame, forget};
ghost use Rattle.resolving.specs.Staying.{stays_here, in_switch};

use crate::locals::Locals;
use crate::values::unread;
use program::{Effect, Forget, Statement, VarId};
use source::Place;
use std::alloc::Global;

/// The last variable of the exchange heap that stays in scope at a `break`, and at a `continue`. Variables declared
/// after it go out of scope.
#[derive(Clone, Copy)]
pub(crate) struct Staying {
    pub(crate) at_break: Option<VarId>,
    pub(crate) at_continue: Option<VarId>,
}

impl Staying {
    /// Returns what stays in a loop or a method. `last` is the last variable in scope before the loop, or the last
    /// parameter of the method.
    pub(crate) fn here(last: Option<VarId>) -> Staying
        ensures { (f : LocalFrame) → number_model last ≡ f.last → staying_model result ≡ stays_here f }
    {
        Staying {
            at_break: last,
            at_continue: last,
        }
    }

    /// Returns what stays in a switch. `last` is the last variable in scope before it.
    pub(crate) fn in_switch(self, last: Option<VarId>) -> Staying
        ensures { (f : LocalFrame) → number_model last ≡ f.last → staying_model result ≡ in_switch (staying_model self) f }
    {
        Staying {
            at_break: last,
            at_continue: self.at_continue,
        }
    }
}

/// Returns what goes out of scope. `outer` is the last variable that stays, and `last` the last one in scope.
pub(crate) fn forget_past(place: Place, outer: Option<VarId>, last: Option<VarId>) -> Option<Forget>
    ensures { result ≡ forget place (number_model outer) (number_model last) }
{
    let last = last?;
    if outer == Some(last) {
        return None;
    }
    Some(Forget { place, last, outer })
}

/// Returns what goes out of scope at a `break` or a `continue`. `stays` is the last variable that stays.
fn forget_at_exit(locals: &Locals<'_>, place: Place, stays: Option<VarId>) -> Option<Forget>
    ensures { (text : List ℕ) (f : LocalFrame) → IsLocalFrame text f locals.now → result ≡ forget place (number_model stays) f.last }
{
    forget_past(place, stays, locals.last())
}

/// Returns the statement that a `break` yields.
pub(crate) fn tell_break(
    alloc: Global,
    locals: &Locals<'_>,
    place: Place,
    stays: Staying,
) -> Statement
    ensures { (text : List ℕ) (f : LocalFrame) → IsLocalFrame text f locals.now
        → statement_model result ≡ seen.Simple [] (Break (forget place (number_model stays.at_break) f.last)) }
{
    unread(
        alloc,
        Effect::Break(forget_at_exit(locals, place, stays.at_break)),
    )
}

/// Returns the statement that a `continue` yields.
pub(crate) fn tell_continue(
    alloc: Global,
    locals: &Locals<'_>,
    place: Place,
    stays: Staying,
) -> Statement
    ensures { (text : List ℕ) (f : LocalFrame) → IsLocalFrame text f locals.now
        → statement_model result ≡ seen.Simple [] (Continue (forget place (number_model stays.at_continue) f.last)) }
{
    unread(
        alloc,
        Effect::Continue(forget_at_exit(locals, place, stays.at_continue)),
    )
}
