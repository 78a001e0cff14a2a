//! The messages that names mean, and their numbers.

ghost use Rattle.std.specs.Prelude.{◌≡◌, ℕ, option_map};
ghost use Rattle.declarations.specs.Program.{ProgramText};
ghost use Rattle.resolving.specs.Around.{IsDirectory, meant_model};
ghost use Rattle.resolving.specs.Messages as model;

use crate::around::Directory;
use crate::types::contract_at;
use program::MessageId;
use source::Span;
use tree::Message;

/// A message, and its number.
#[derive(Clone, Copy)]
pub(crate) struct Meant<'a> {
    pub(crate) id: MessageId,
    pub(crate) message: &'a Message,
}

/// Returns the number of the message at `index` in the contract that is item `contract`.
fn message_number(directory: &Directory<'_, '_>, contract: usize, index: usize) -> Option<MessageId>
    ensures { (p : ProgramText) → IsDirectory p directory.now → result ≡ model.message_number p contract index }
{
    let numbered = contract_at(directory, contract)?.messages.get(index)?;
    Some(numbered.id)
}

/// Returns the message at `index` in the contract that is item `contract`, with its number.
fn message_there<'a>(
    directory: &Directory<'_, 'a>,
    contract: usize,
    index: usize,
) -> Option<Meant<'a>>
    ensures { (p : ProgramText) → IsDirectory p directory.now → option_map meant_model result ≡ model.message_there p contract index }
{
    let message = directory.scope.message_at(contract, index)?;
    let id = message_number(directory, contract, index)?;
    Some(Meant { id, message })
}

/// Returns the message of this name in the contract that is item `contract`.
pub(crate) fn message_named<'a>(
    directory: &Directory<'_, 'a>,
    contract: usize,
    name: Span,
) -> Option<Meant<'a>>
    ensures { (p : ProgramText) → IsDirectory p directory.now → option_map meant_model result ≡ model.message_named p contract name }
{
    let place = directory.scope.message_index(contract, name)?;
    message_there(directory, contract, place)
}

/// Returns the message that a word like `SendM` sends, in the contract that is item `contract`.
pub(crate) fn message_sent<'a>(
    directory: &Directory<'_, 'a>,
    contract: usize,
    word: Span,
) -> Option<Meant<'a>>
    ensures { (p : ProgramText) → IsDirectory p directory.now → option_map meant_model result ≡ model.message_sent p contract word }
{
    let place = directory.scope.sent_index(contract, word)?;
    message_there(directory, contract, place)
}
