//! The frame and the event that a line is about, and the names in them.

ghost use Rattle.std.specs.Prelude.{◌≡◌, ◌++◌, OnOk};
ghost use Rattle.machine.specs.Views.{frame_model};
ghost use Rattle.replays.specs.EventLines as lines;
ghost use Rattle.replays.specs.EventLines.{message_of, method_name, variable_text, with_address};
ghost use Rattle.replays.specs.Naming.{words_of};
ghost use Rattle.replays.specs.Telling.{site_words};

use crate::detail::Detail;
use crate::naming::Naming;
use crate::texts::{add, add_number};
use machine::{Event, Frame, World, type_at};
use program::{HeapType, Mention, MessageId, MethodId};
use source::Memory;
use std::alloc::Global;

/// A frame, and where the names in it come from.
#[derive(Clone, Copy)]
pub(crate) struct FrameSite<'a> {
    pub(crate) naming: &'a Naming<'a>,
    pub(crate) frame: &'a Frame,
}

/// An event of a process: the innermost frame of the process and the number of those below it, the world before the event,
/// the names of methods, and which events have lines.
#[derive(Clone, Copy)]
pub(crate) struct EventSite<'a> {
    pub(crate) alloc: Global,
    pub(crate) at: FrameSite<'a>,
    pub(crate) callers: usize,
    pub(crate) world: &'a World,
    pub(crate) event: Event,
    pub(crate) methods: &'a [Vec<u8>],
    pub(crate) detail: Detail,
}

impl FrameSite<'_> {
    /// Returns the name of a variable; empty if there is none.
    pub(crate) fn name(&self, x: Mention) -> &[u8]
        ensures { result.now ≡ lines.name (words_of self.now.naming.now) (frame_model self.now.frame.now) x }
    {
        let methods = self.naming.program().methods();
        let Some(method) = methods.get(self.frame.method.0 as usize) else {
            return &[];
        };
        match method.variables.get(x.variable.0) {
            Some(variable) => &variable.name,
            None => &[],
        }
    }

    /// Returns the type of a variable, struct 0 if there is none.
    pub(crate) fn ty(&self, x: Mention) -> HeapType
        ensures { result ≡ lines.type (words_of self.now.naming.now) (frame_model self.now.frame.now) x }
    {
        type_at(self.naming.program(), self.frame.method, x.variable)
    }

    /// Returns the name of a message of the contract of an endpoint; empty for other types.
    pub(crate) fn message_name(&self, ty: HeapType, message: MessageId) -> &[u8]
        ensures { result.now ≡ message_of (words_of self.now.naming.now) (frame_model self.now.frame.now) ty message.0 }
    {
        match ty {
            HeapType::Endpoint { contract, .. } => self.naming.message_name(contract, message),
            HeapType::Struct(_) | HeapType::Array(_) => &[],
        }
    }

    /// Adds the name of a variable and the address of a block: `note (block 3)`.
    pub(crate) fn add_with_address(
        &self,
        answer: &mut Vec<u8>,
        x: Mention,
        address: usize,
    ) -> Result<(), Memory>
        ensures { OnOk result (answer.new.items ≡ answer.old.items
            ++ with_address (lines.name (words_of self.now.naming.now) (frame_model self.now.frame.now) x) address) }
    {
        add(answer, self.name(x))?;
        add(answer, b" (block ")?;
        add_number(answer, address as u64)?;
        add(answer, b")")
    }

    /// Adds a variable and the block that it has: `note (block 3)`.
    pub(crate) fn add_variable(&self, answer: &mut Vec<u8>, x: Mention) -> Result<(), Memory>
        ensures { OnOk result (answer.new.items ≡ answer.old.items
            ++ variable_text (words_of self.now.naming.now) (frame_model self.now.frame.now) x) }
    {
        self.add_with_address(answer, x, self.frame.address(x))
    }
}

impl EventSite<'_> {
    /// Returns the name of a method; empty if there is none.
    pub(crate) fn method_name(&self, method: MethodId) -> &[u8]
        ensures { result.now ≡ method_name (site_words self.now) method.0 }
    {
        match self.methods.get(method.0 as usize) {
            Some(name) => name,
            None => &[],
        }
    }
}
