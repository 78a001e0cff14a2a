//! The rule table's lines for new blocks and exchanges.

ghost use Rattle.std.specs.Prelude.{◌≡◌, [], IfSome};
ghost use Rattle.std.specs.Option.{option_map_or};
ghost use Rattle.program.specs.declared.statement.Action.TheVariants as does;
ghost use Rattle.flow.specs.Graphs.{Act, New};
ghost use Rattle.rules.specs.Arguments.{field_checks, payload};
ghost use Rattle.rules.specs.Endpoints as table;
ghost use Rattle.rows.specs.Leaves.{IsNumbered};
ghost use Rattle.rules.specs.Onwards.{KeepsRow, onward_of};
ghost use Rattle.rows.specs.Rows.{row_model};
ghost use Rattle.rows.specs.declared.row.Leaf.TheVariants.{Nothing};
ghost use Rattle.rules.specs.Checks.{StandsFor};
ghost use Rattle.rules.specs.Sites.{Follows, method_of, row_of};

use crate::arguments::require_target;
use crate::breach::Breach;
use crate::checks::{require_another, require_owned};
use crate::endpoints::declared_leaf;
use crate::here::{Here, Site};
use crate::onward::Onward;
use crate::payloads::{Taker, claim_payloads, require_payload, require_payloads};
use program::{Exchange, HeapType, Mention};
use rows::{Leaf, Row};

/// Applies a new block: the variable takes it, and what is given for its fields is gone.
pub(crate) fn new(
    site: &Site<'_>,
    row: &mut Row,
    target: Mention,
    arguments: &[Mention],
    next: usize,
) -> Result<Onward, Breach>
    ensures outcome { Follows site.now (New target arguments.now next) row.old row.new result }
    ensures kept { KeepsRow (onward_of result) (row_model row.old) (row_model row.new) }
{
    let here = Here { site: *site, row };
    let types = site.program.fields_of(site.method, target.variable);
    require_payloads(&here, Taker::Field, types, arguments)?;
    claim_payloads(row, arguments);
    let behind = Here { site: *site, row };
    require_target(&behind, Some(target))?;
    row.set(target.variable, Leaf::Block);
    Ok(Onward::Changed(next))
}

/// Checks that what is given for a field is not lent, has something, and is in the state that the field asks for. Passes if there is
/// no such field.
fn require_field(here: &Here<'_>, field: Option<HeapType>, given: Mention) -> Result<(), Breach>
    ensures { StandsFor result
        (option_map_or
        (λ ty. field_checks (method_of here.now) (row_of here.now) ty (payload given)) field []) }
{
    match field {
        Some(ty) => require_payload(here, Taker::Field, ty, given),
        None => Ok(()),
    }
}

/// Returns what comes out of a field; nothing if there is no such field.
fn leaf_out_of(field: Option<HeapType>) -> Leaf
    requires numbered { IfSome field (λ ty. IsNumbered (table.declared_leaf ty)) }
    ensures leaf { result ≡ option_map_or table.declared_leaf field Nothing }
    ensures numbered { IsNumbered result }
{
    match field {
        Some(ty) => declared_leaf(ty),
        None => Leaf::Nothing,
    }
}

/// Applies an exchange: what a field holds and what a variable has change places.
pub(crate) fn exchange(
    site: &Site<'_>,
    row: &mut Row,
    exchange: Exchange,
    next: usize,
) -> Result<Onward, Breach>
    ensures outcome { Follows site.now (Act (does.Exchange exchange) next) row.old row.new result }
    ensures kept { KeepsRow (onward_of result) (row_model row.old) (row_model row.new) }
{
    let here = Here { site: *site, row };
    require_another(&here, exchange.holder, exchange.given)?;
    require_owned(&here, exchange.holder)?;
    let field = site
        .program
        .field_of(site.method, exchange.holder.variable, exchange.field);
    require_field(&here, field, exchange.given)?;
    row.set(exchange.given.variable, leaf_out_of(field));
    Ok(Onward::Changed(next))
}
