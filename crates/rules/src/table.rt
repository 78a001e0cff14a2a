//! The rule table: a function for each instruction, with its checks in order and the row after it. The first check that fails gives
//! the breach.

ghost use Rattle.std.specs.Prelude.{◌≡◌, IfOk, List, Ok, []};
ghost use Rattle.program.specs.declared.statement.Action.TheVariants as does;
ghost use Rattle.flow.specs.Graphs as graphs;
ghost use Rattle.flow.specs.Graphs.{Act, instruction_model};
ghost use Rattle.flow.specs.declared.graph.Instr.{Instr};
ghost use Rattle.rules.specs.Onwards.{KeepsRow, onward_model, onward_of};
ghost use Rattle.rules.specs.Outcomes.{Goes, Fails, breach_at};
ghost use Rattle.rules.specs.Repeats.{first_again, given_again, repeated_in};
ghost use Rattle.rows.specs.Rows.{row_model};
ghost use Rattle.rules.specs.RuleTable.{ways};
ghost use Rattle.rules.specs.declared.breach.Reason.TheVariants as reasons;
ghost use Rattle.rows.specs.declared.row.Leaf.{Leaf as LeafModel};
ghost use Rattle.rules.specs.Sites.{Follows, FollowsHere};

use crate::arguments::{claim_all, give, require_arguments, require_target};
use crate::breach::{Breach, Reason};
use crate::checks::{require_another, require_empty, require_not_lent, require_owned};
use crate::fields::{exchange, new};
use crate::here::{Here, Site};
use crate::onward::Onward;
use crate::returning::return_;
use crate::scopes::require_given_back;
use crate::sending::send;
use crate::switching::switch;
use flow::{Branches, Calling, Instr, Starting};
use program::{Action, Channel, Forget, Mention};
use rows::{Leaf, Row, Spare};
use source::{Memory, Place};

/// Applies an instruction to a row, in place. A switch makes its rows of spare ones.
///
/// # Errors
/// `Memory` if out of memory for the rows of a switch.
pub(crate) fn apply(
    site: &Site<'_>,
    row: &mut Row,
    instruction: &Instr,
    spare: &mut Spare,
) -> Result<Onward, Memory>
    requires { repeated_in site.now.repeats.now site.now.point
        ≡ given_again (instruction_model instruction.now) }
    ensures outcome { IfOk result
        (λ o. Follows site.now (instruction_model instruction.now) row.old row.new (Ok o)) }
    ensures kept { IfOk result (λ o. KeepsRow o (row_model row.old) (row_model row.new)) }
{
    let here = Here { site: *site, row };
    match instruction {
        Instr::Act { action, next } => answer(act(site, row, *action, *next)),
        Instr::New {
            target,
            arguments,
            next,
        } => answer(new(site, row, *target, arguments, *next)),
        Instr::Send(sending) => answer(send(site, row, sending)),
        Instr::Switch { place, cases } => switch(&here, *place, cases, spare),
        Instr::Call(calling) => answer(call(site, row, calling)),
        Instr::Start(starting) => answer(start(site, row, starting)),
        Instr::Branch { branches, .. } => Ok(branch(*branches)),
        Instr::Forget { forget, next } => answer(forget_(&here, *forget, *next)),
        Instr::Return(returning) => answer(return_(&here, *returning)),
        Instr::Stop { place } => Ok(stop(*place)),
    }
}

/// Turns the result of a rule into that of a step: a breach becomes `Onward::Found`.
fn answer(told: Result<Onward, Breach>) -> Result<Onward, Memory>
    ensures { result ≡ Ok (onward_of told) }
{
    match told {
        Ok(onward) => Ok(onward),
        Err(breach) => Ok(Onward::Found(breach)),
    }
}

/// Applies an action to what variables and fields have.
fn act(site: &Site<'_>, row: &mut Row, action: Action, next: usize) -> Result<Onward, Breach>
    ensures outcome { Follows site.now (Act action next) row.old row.new result }
    ensures kept { KeepsRow (onward_of result) (row_model row.old) (row_model row.new) }
{
    match action {
        Action::Use(at) => use_(&Here { site: *site, row }, at, next),
        Action::Move { target, source } => move_(site, row, target, source, next),
        Action::Delete(freed) => delete(site, row, freed, next),
        Action::Exchange(exchanged) => exchange(site, row, exchanged, next),
        Action::NewChannel(channel) => new_channel(site, row, channel, next),
    }
}

/// Applies a use, which reads or writes the block that a variable has. The row stays as it is.
fn use_(here: &Here<'_>, at: Mention, next: usize) -> Result<Onward, Breach>
    ensures { FollowsHere here.now (Act (does.Use at) next) result }
{
    require_owned(here, at)?;
    Ok(Onward::Same(next))
}

/// Applies a new channel: two variables take its two ends, each in the first state of its contract.
fn new_channel(
    site: &Site<'_>,
    row: &mut Row,
    channel: Channel,
    next: usize,
) -> Result<Onward, Breach>
    ensures outcome { Follows site.now (Act (does.NewChannel channel) next) row.old row.new result }
    ensures kept { KeepsRow (onward_of result) (row_model row.old) (row_model row.new) }
{
    let here = Here { site: *site, row };
    require_not_lent(&here, channel.first)?;
    require_empty(&here, channel.first)?;
    require_not_lent(&here, channel.second)?;
    require_empty(&here, channel.second)?;
    let state = site.program.first_state(channel.contract);
    row.set(channel.first.variable, Leaf::State(state.0));
    row.set(channel.second.variable, Leaf::State(state.0));
    Ok(Onward::Changed(next))
}

/// Applies a move: the target takes what the source has, which then has nothing.
fn move_(
    site: &Site<'_>,
    row: &mut Row,
    target: Mention,
    source: Mention,
    next: usize,
) -> Result<Onward, Breach>
    ensures outcome { Follows site.now (Act (does.Move target source) next) row.old row.new result }
    ensures kept { KeepsRow (onward_of result) (row_model row.old) (row_model row.new) }
{
    let here = Here { site: *site, row };
    require_another(&here, target, source)?;
    require_not_lent(&here, source)?;
    require_owned(&here, source)?;
    require_not_lent(&here, target)?;
    require_empty(&here, target)?;
    let taken = row.leaf(source.variable);
    row.set(target.variable, taken);
    row.set(source.variable, Leaf::Nothing);
    Ok(Onward::Changed(next))
}

/// Applies a delete, which frees what a variable has.
fn delete(site: &Site<'_>, row: &mut Row, freed: Mention, next: usize) -> Result<Onward, Breach>
    ensures outcome { Follows site.now (Act (does.Delete freed) next) row.old row.new result }
    ensures kept { KeepsRow (onward_of result) (row_model row.old) (row_model row.new) }
{
    let here = Here { site: *site, row };
    require_not_lent(&here, freed)?;
    require_owned(&here, freed)?;
    row.set(freed.variable, Leaf::Nothing);
    Ok(Onward::Changed(next))
}

/// Applies a call. Claimed arguments are gone, lent ones come back as they were, and the target has the result.
fn call(site: &Site<'_>, row: &mut Row, calling: &Calling) -> Result<Onward, Breach>
    requires { repeated_in site.now.repeats.now site.now.point
        ≡ first_again [] calling.now.arguments.items }
    ensures outcome { Follows site.now (instruction_model (Instr.Call calling.now)) row.old row.new result }
    ensures kept { KeepsRow (onward_of result) (row_model row.old) (row_model row.new) }
{
    let here = Here { site: *site, row };
    let types = site.program.parameter_types(calling.method);
    let again = site.repeats.at(site.point);
    require_arguments(&here, again, types, &calling.arguments)?;
    claim_all(row, &calling.arguments);
    let behind = Here { site: *site, row };
    require_target(&behind, calling.target)?;
    let result = site.program.result_of(calling.method);
    give(row, result, calling.target);
    Ok(Onward::Changed(calling.next))
}

/// Applies a start. Claimed arguments are gone.
fn start(site: &Site<'_>, row: &mut Row, starting: &Starting) -> Result<Onward, Breach>
    requires { repeated_in site.now.repeats.now site.now.point
        ≡ first_again [] starting.now.arguments.items }
    ensures outcome { Follows site.now (instruction_model (Instr.Start starting.now)) row.old
        row.new result }
    ensures kept { KeepsRow (onward_of result) (row_model row.old) (row_model row.new) }
{
    let here = Here { site: *site, row };
    let types = site.program.parameter_types(starting.method);
    let again = site.repeats.at(site.point);
    require_arguments(&here, again, types, &starting.arguments)?;
    claim_all(row, &starting.arguments);
    Ok(Onward::Changed(starting.next))
}

/// Applies a condition. The row stays as it is on each way that the condition can go.
fn branch(branches: Branches) -> Onward
    ensures outcome { (row : List LeafModel) → onward_model result row ≡ Goes (ways branches row) }
    ensures kept { (row : List LeafModel) → KeepsRow result row row }
{
    match branches {
        Branches::Either { inside, past } => Onward::Both(inside, past),
        Branches::Only(point) => Onward::Same(point),
    }
}

/// Applies a forget: variables go out of scope, and must have nothing.
fn forget_(here: &Here<'_>, forget: Forget, next: usize) -> Result<Onward, Breach>
    ensures { FollowsHere here.now (graphs.Forget forget next) result }
{
    let last = Some(forget.last);
    require_given_back(here, forget.place, None, forget.outer, last)?;
    Ok(Onward::Same(next))
}

/// Reports the end of a method that should have returned something.
fn stop(place: Place) -> Onward
    ensures { (row : List LeafModel) → onward_model result row ≡ Fails (breach_at place reasons.NoResult) }
{
    Onward::Found(Breach::at(place, Reason::NoResult))
}
