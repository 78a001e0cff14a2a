//! How the states of a contract are printed: their names, one after another in a string.

ghost use Rattle.std.specs.Prelude.{◌≡◌, ℕ, List, IfOk, IfSome, string_bytes};
ghost use Rattle.declarations.specs.Declarations.{names_of_messages};
ghost use Rattle.declarations.specs.Labels.{AreLabels, IsTold, Stands, in_parentheses};
ghost use Rattle.declarations.specs.Numbered.{counted_as};
ghost use Rattle.declarations.specs.Outlines.{outlined_messages};
ghost use Rattle.declarations.specs.Resolution.{printed_name};
ghost use Rattle.tables.specs.Tables.{IsTable};
ghost use Rattle.tables.specs.Words.{words_at};

use crate::members::Declared;
use crate::state_names::StateName;
use program::Part;
use source::{Memory, Span, texts};
use std::alloc::Global;
use tables::Table;

/// The names of the unnamed states of a contract, as parts of the string of names: one for each message.
#[derive(Drop)]
pub(crate) struct Labels<'a, 't> {
    pub(crate) text: &'a [u8],
    messages: &'a Table<'t>,
    by_message: Vec<Part>,
}

impl<'a, 't> Labels<'a, 't> {
    /// Appends the names of the unnamed states of a contract with these declarations, one for each message.
    pub(crate) fn of(
        alloc: Global,
        text: &'a [u8],
        declared: &'a Declared<'t>,
        names: &mut String,
    ) -> Result<Labels<'a, 't>, Memory>
        requires { IsTable (words_at text.now (names_of_messages (outlined_messages declared.now.outline))) declared.now.messages }
        ensures labels { IfOk result (λ labels. AreLabels labels (string_bytes names.new)) }
        ensures text { IfOk result (λ labels. labels.text.now ≡ text.now) }
    {
        let messages = &declared.outline.messages;
        let mut by_message = Vec::with_capacity(alloc, messages.len())?;
        for message in messages {
            by_message.push(add_enclosed(alloc, names, text, message.name)?)?;
        }
        Ok(Labels {
            text,
            messages: &declared.messages,
            by_message,
        })
    }

    /// Returns the part that is the name of a state. Appends the name of a named state; unnamed states share the name
    /// of their message, if the contract declares it.
    pub(crate) fn part(
        &self,
        alloc: Global,
        names: &mut String,
        name: StateName,
    ) -> Result<Part, Memory>
        requires { AreLabels self.now (string_bytes names.old) }
        ensures { IfOk result (λ part. IsTold (string_bytes names.old) (string_bytes names.new) part
            (counted_as self.now.text.now name).name) }
    {
        match name {
            StateName::Named(span) => add_name(alloc, names, self.text, span),
            StateName::Unnamed(message) => match self.shared_part(message) {
                Some(part) => Ok(part),
                None => add_enclosed(alloc, names, self.text, message),
            },
        }
    }

    /// Returns the part that the unnamed states of this message share.
    fn shared_part(&self, message: Span) -> Option<Part>
        ensures { (names : List ℕ) → AreLabels self.now names
            → IfSome result (λ part. Stands names part (in_parentheses self.now.text.now message)) }
    {
        let place = self.messages.find(message.slice(self.text))?;
        self.by_message.get(place).copied()
    }
}

/// Appends a name.
fn add_name(alloc: Global, names: &mut String, text: &[u8], name: Span) -> Result<Part, Memory>
    ensures { IfOk result (λ part. IsTold (string_bytes names.old) (string_bytes names.new) part (printed_name text.now name)) }
{
    let start = names.len();
    texts::push_name(alloc, names, name.slice(text))?;
    Ok(Part {
        start,
        end: names.len(),
    })
}

/// Appends the name of a message, in parentheses.
fn add_enclosed(
    alloc: Global,
    names: &mut String,
    text: &[u8],
    message: Span,
) -> Result<Part, Memory>
    ensures { IfOk result (λ part. IsTold (string_bytes names.old) (string_bytes names.new) part (in_parentheses text.now message)) }
{
    let start = names.len();
    names.push_str("(")?;
    texts::push_name(alloc, names, message.slice(text))?;
    names.push_str(")")?;
    Ok(Part {
        start,
        end: names.len(),
    })
}
