//! What exchanges yield.

ghost use Rattle.std.specs.Prelude.{◌≡◌, ℕ, List, option_and_then};
ghost use Rattle.tree.specs.Trees.{ItemTree};
ghost use Rattle.resolving.specs.Around.{IsAround, program_in};
ghost use Rattle.resolving.specs.Fields as fields;
ghost use Rattle.resolving.specs.Frames.{IsLocalFrame};
ghost use Rattle.resolving.specs.Locals.{LocalFrame, local_named};
ghost use Rattle.resolving.specs.Plain as told;

use crate::around::Around;
use crate::fields::field_number;
use crate::locals::Locals;
use program::Action;
use tree::Exchange;

/// Returns the number of the exchanged field among the owning fields.
fn exchanged_field(
    text: &[u8],
    around: &Around<'_, '_>,
    locals: &Locals<'_>,
    exchange: Exchange,
) -> Option<usize>
    ensures { (items : List ItemTree) (own : ℕ) (f : LocalFrame) → IsAround (program_in text.now items) own around.now
        → IsLocalFrame text.now f locals.now
        → result ≡ option_and_then (λ v. fields.field_number (program_in text.now items) v.ty exchange.field)
        (local_named text.now f.locals exchange.holder) }
{
    let ty = locals.ty(text, exchange.holder)?;
    field_number(around, ty, exchange.field)
}

/// Returns the action that an exchange yields, if its field and its two variables are found.
pub(crate) fn exchange_of(
    text: &[u8],
    around: &Around<'_, '_>,
    locals: &Locals<'_>,
    exchange: Exchange,
) -> Option<Action>
    ensures { (items : List ItemTree) (own : ℕ) (f : LocalFrame)
        → IsAround (program_in text.now items) own around.now → IsLocalFrame text.now f locals.now
        → result ≡ told.exchange_found (program_in text.now items) own f exchange }
{
    let field = exchanged_field(text, around, locals, exchange)?;
    let holder = locals.mention(text, exchange.holder)?;
    let given = locals.mention(text, exchange.given)?;
    Some(Action::Exchange(program::Exchange {
        place: exchange.word.place,
        holder,
        field,
        given,
    }))
}
