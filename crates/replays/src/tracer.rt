//! What turns events into lines.

ghost use Rattle.std.specs.Prelude.{◌≡◌, ◌<◌, ◌∷◌, ◌++◌, [], ℕ, IfErr, IfOk, IsErrOf, OnErr, OnOk, length, map, string_bytes};
ghost use Rattle.rules.specs.Programs.{model_of};
ghost use Rattle.machine.specs.Views.{world_model};
ghost use Rattle.replays.specs.Journals.{IsJournal, IsNoStep};
ghost use Rattle.replays.specs.Telling.{tracer_words};

use crate::detail::Detail;
use crate::journal::{Journal, is_open_condition};
use crate::naming::Naming;
use machine::{Event, Halt, World};
use program::MethodId;
use rules::Program;
use source::Memory;
use std::alloc::Global;

/// What turns events into lines: where names come from, and which events have lines.
#[derive(Drop)]
pub struct Tracer<'a> {
    pub(crate) alloc: Global,
    pub(crate) naming: Naming<'a>,
    pub(crate) methods: &'a [Vec<u8>],
    pub(crate) detail: Detail,
}

impl<'a> Tracer<'a> {
    /// Takes the names from a program and, for its structs and methods (`Class.Method`), from lists in order of the text.
    ///
    /// # Errors
    /// `Memory` if out of memory.
    pub fn new(
        alloc: Global,
        program: &'a Program,
        structs: &'a [String],
        methods: &'a [Vec<u8>],
        detail: Detail,
    ) -> Result<Tracer<'a>, Memory>
        ensures { IfOk result (λ tracer. tracer_words tracer ≡ record {
          words = record { program = model_of program.now; structs = map string_bytes structs.now };
          methods = map (λ name. name.items) methods.now;
          detail = detail;
        }) }
    {
        Ok(Tracer {
            alloc,
            naming: Naming::new(alloc, program, structs)?,
            methods,
            detail,
        })
    }

    /// Returns the program.
    pub fn program(&self) -> &'a Program
        ensures { model_of result.now ≡ (tracer_words self.now).words.program }
    {
        self.naming.program()
    }

    /// Begins a journal with a method. It has no events yet.
    ///
    /// # Errors
    /// `Memory` if out of memory.
    pub fn begin(&self, method: MethodId) -> Result<Journal, Memory>
        requires there { method.0 < length (tracer_words self.now).words.program.methods }
        ensures journal { IfOk result (IsJournal (tracer_words self.now) method.0) }
        ensures events { IfOk result (λ journal. journal.events.items ≡ []) }
    {
        let world = World::start(self.alloc, self.naming.program(), method)?;
        Ok(Journal {
            world,
            events: Vec::new(self.alloc),
            lines: Vec::new(self.alloc),
            conditions: 0,
        })
    }

    /// Takes one event, and adds it and its line to a journal.
    ///
    /// # Errors
    /// Those of `World::step`. After any but `Memory` the journal is as it was; after `Memory` it is not to be used.
    pub fn take(&self, journal: &mut Journal, event: Event) -> Result<(), Halt>
        ensures kept { (m : ℕ) → (IsErrOf result Halt.Memory → ⊥) → IsJournal (tracer_words self.now) m journal.old
            → IsJournal (tracer_words self.now) m journal.new }
        ensures taken { OnOk result (journal.new.events.items ≡ journal.old.events.items ++ event ∷ []) }
        ensures untaken { OnErr result ((IsErrOf result Halt.Memory → ⊥) → journal.new.events ≡ journal.old.events) }
        ensures refused { IfErr result (λ why. (why ≡ Halt.Memory → ⊥)
            → IsNoStep (tracer_words self.now).words.program (world_model journal.new.world) event why) }
    {
        let mut line = Vec::new(self.alloc);
        if (&*self)
            .add_event(&mut line, &journal.world, event)
            .is_err()
        {
            return Err(Halt::Memory);
        }
        let is_open = is_open_condition(
            self.naming.program(),
            &journal.world,
            event.process as usize,
        );
        journal
            .world
            .step(self.alloc, self.naming.program(), event)?;
        match journal.add(event, &line, is_open) {
            Ok(()) => Ok(()),
            Err(Memory) => Err(Halt::Memory),
        }
    }
}
