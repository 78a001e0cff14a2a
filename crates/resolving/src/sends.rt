//! What sends and new channels yield.

ghost use Rattle.std.specs.Prelude.{◌≡◌, ℕ, List, IfOk, map, option_map};
ghost use Rattle.tree.specs.ExpressionTrees.{expression_tree};
ghost use Rattle.tree.specs.Trees.{ItemTree};
ghost use Rattle.tree.specs.Values.{call_tree};
ghost use Rattle.program.specs.Statements.{send_model};
ghost use Rattle.resolving.specs.Around.{IsAround, meant_model, program_in};
ghost use Rattle.resolving.specs.Frames.{IsLocalFrame};
ghost use Rattle.resolving.specs.Locals.{LocalFrame};
ghost use Rattle.resolving.specs.Steps.{TellsStatement, TellsSend};
ghost use Rattle.resolving.specs.Plain as told;

use crate::around::Around;
use crate::calls::{ResultUse, add_argument_reads, tell_call};
use crate::given::payloads_of;
use crate::locals::Locals;
use crate::messages::{Meant, message_sent};
use crate::types::contract_named;
use program::{Action, Channel, Mention, Send, Statement};
use source::Span;
use std::alloc::{AllocError, Global};
use tree::{Call, NewChannel};

/// What the names of a send mean: the endpoint, and the message that this word names.
#[derive(Clone, Copy)]
struct SendMeaning<'a> {
    endpoint: Mention,
    word: Span,
    meant: Meant<'a>,
}

/// Returns the send that a call with this meaning yields.
fn send_of(
    alloc: Global,
    text: &[u8],
    locals: &Locals<'_>,
    call: &Call,
    sending: SendMeaning<'_>,
) -> Result<Send, AllocError>
    ensures { (items : List ItemTree) (own : ℕ) (f : LocalFrame) → IsLocalFrame text.now f locals.now → IfOk result (λ s. send_model s
        ≡ told.send_of (program_in text.now items) own f
        sending.entry.word (call_tree call.now) sending.entry.endpoint (meant_model sending.entry.meant)) }
{
    let mut reads = Vec::new(alloc);
    add_argument_reads(text, locals, &call.arguments, &mut reads)?;
    Ok(Send {
        reads,
        place: sending.word.place,
        endpoint: sending.endpoint,
        message: sending.meant.id,
        payloads: payloads_of(alloc, text, locals, &call.arguments)?,
    })
}

/// Returns the message that a call by two names sends, if the first one means an endpoint.
fn sent_by<'a>(
    text: &[u8],
    around: &Around<'_, 'a>,
    locals: &Locals<'_>,
    call: &Call,
    word: Span,
) -> Option<Meant<'a>>
    ensures { (items : List ItemTree) (own : ℕ) (f : LocalFrame)
        → IsAround (program_in text.now items) own around.now → IsLocalFrame text.now f locals.now
        → option_map meant_model result ≡ told.meant_by (program_in text.now items) f (call_tree call.now) word }
{
    let contract = locals.contract(text, call.name)?;
    message_sent(&around.directory, contract, word)
}

/// Returns the send that a call statement yields, if it is one.
fn tell_send(
    text: &[u8],
    around: &Around<'_, '_>,
    locals: &Locals<'_>,
    call: &Call,
) -> Result<Option<Send>, AllocError>
    ensures { (items : List ItemTree) (own : ℕ) → IsAround (program_in text.now items) own around.now
        → IfOk result (TellsSend text.now locals.now
        (λ f. told.send_told (program_in text.now items) own f (call_tree call.now))) }
{
    let Some(word) = call.member else {
        return Ok(None);
    };
    let Some(meant) = sent_by(text, around, locals, call, word) else {
        return Ok(None);
    };
    let Some(endpoint) = locals.mention(text, call.name) else {
        return Ok(None);
    };
    let sending = SendMeaning {
        endpoint,
        word,
        meant,
    };
    let send = send_of(around.alloc, text, locals, call, sending)?;
    Ok(Some(send))
}

/// Returns what a call statement yields.
pub(crate) fn tell_stated(
    text: &[u8],
    around: &Around<'_, '_>,
    locals: &Locals<'_>,
    call: &Call,
) -> Result<Statement, AllocError>
    ensures { (items : List ItemTree) (own : ℕ) → IsAround (program_in text.now items) own around.now → IfOk result (TellsStatement
        text.now locals.now (λ f. told.stated_call (program_in text.now items) own f (call_tree call.now))) }
{
    match tell_send(text, around, locals, call)? {
        Some(send) => Ok(Statement::Send(send)),
        None => {
            let after = ResultUse {
                target: None,
                behind: Vec::new(around.alloc),
            };
            tell_call(text, around, locals, call, after)
        }
    }
}

/// Returns the action that a new channel yields, if its contract and its two targets are found.
pub(crate) fn channel_of(
    text: &[u8],
    around: &Around<'_, '_>,
    locals: &Locals<'_>,
    channel: NewChannel,
) -> Option<Action>
    ensures { (items : List ItemTree) (own : ℕ) (f : LocalFrame)
        → IsAround (program_in text.now items) own around.now → IsLocalFrame text.now f locals.now
        → result ≡ told.channel_found (program_in text.now items) own f channel }
{
    let contract = contract_named(&around.directory, channel.contract)?;
    let first = locals.mention(text, channel.first)?;
    let second = locals.mention(text, channel.second)?;
    Some(Action::NewChannel(Channel {
        place: channel.word.place,
        contract,
        first,
        second,
    }))
}
