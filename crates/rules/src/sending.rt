//! The rule table's line for a send.

ghost use Rattle.std.specs.Prelude.{◌≡◌, IfSome, MatchOption, true, false};
ghost use Rattle.flow.specs.Graphs.{instruction_model};
ghost use Rattle.flow.specs.declared.graph.Instr.{Instr};
ghost use Rattle.rules.specs.Arguments as table;
ghost use Rattle.rows.specs.Leaves.{IsNumbered};
ghost use Rattle.rules.specs.Onwards.{KeepsRow, onward_of};
ghost use Rattle.rules.specs.Programs.{model_of};
ghost use Rattle.rows.specs.Rows.{row_model};
ghost use Rattle.rules.specs.Sites.{Follows};

use crate::breach::{Breach, Reason};
use crate::checks::require_owned;
use crate::endpoints::type_of;
use crate::here::{Here, Site};
use crate::lowered::Program;
use crate::onward::Onward;
use crate::payloads::{Taker, claim_payloads, require_payloads};
use flow::Sending;
use program::{HeapType, MessageId};
use rows::{Leaf, Row};

/// Applies a send. The payloads are gone, and the endpoint is in the next state, or still cut off.
pub(crate) fn send(site: &Site<'_>, row: &mut Row, sending: &Sending) -> Result<Onward, Breach>
    ensures outcome { Follows site.now (instruction_model (Instr.Send sending.now)) row.old row.new
        result }
    ensures kept { KeepsRow (onward_of result) (row_model row.old) (row_model row.new) }
{
    let here = Here { site: *site, row };
    let (endpoint, message) = (sending.endpoint, sending.message);
    require_owned(&here, endpoint)?;
    let payloads = sending.payloads.as_slice();
    let types = site.program.payload_types(message);
    let taker = Taker::Message { endpoint, message };
    require_payloads(&here, taker, types, payloads)?;
    let ty = type_of(site.method, endpoint.variable);
    let leaf = row.leaf(endpoint.variable);
    let sent = sent_leaf(site.program, ty, message, leaf);
    let Some(after) = sent else {
        let endpoint = endpoint.variable;
        let reason = Reason::NotSent { endpoint, message };
        return Err(Breach::at(sending.place, reason));
    };
    claim_payloads(row, payloads);
    row.set(endpoint.variable, after);
    Ok(Onward::Changed(sending.next))
}

/// Returns what an endpoint has after it sends the message. `None` if it is in a state that does not send it.
fn sent_leaf(
    program: &Program,
    ty: Option<HeapType>,
    message: MessageId,
    leaf: Leaf,
) -> Option<Leaf>
    requires numbered { IsNumbered leaf }
    ensures sent { MatchOption result
        (table.lacks_edge (model_of program.now) ty message.0 leaf ≡ true)
        (λ after. (table.lacks_edge (model_of program.now) ty message.0 leaf ≡ false)
        × (after ≡ table.sent_leaf (model_of program.now) ty message.0 leaf)) }
    ensures numbered { IfSome result IsNumbered }
{
    match leaf {
        Leaf::State(state) => {
            let next = program.state_after_send(ty, state, message)?;
            Some(Leaf::State(next.0))
        }
        Leaf::Nothing | Leaf::Block | Leaf::CutOff => Some(leaf),
    }
}
