//! The lines of events: who acts, where in the text, and what is done with which blocks.

ghost use Rattle.std.specs.Prelude.{◌≡◌, ◌++◌, [], IfNone, IfSome, OnOk, codes, length, map, slice_get};
ghost use Rattle.std.specs.Fmt.{decimal};
ghost use Rattle.flow.specs.Cases.{first_mentions};
ghost use Rattle.flow.specs.Graphs.{cases_model, instruction_model};
ghost use Rattle.flow.specs.declared.graph.Instr.TheVariants as instr;
ghost use Rattle.program.specs.declared.statement.Action.TheVariants as actions;
ghost use Rattle.machine.specs.Blocks as kinds;
ghost use Rattle.machine.specs.Views.{blocks_model, frame_model, held_model, world_model};
ghost use Rattle.replays.specs.EventLines as lines;
ghost use Rattle.machine.specs.World.{block_at};
ghost use Rattle.replays.specs.EventLines.{action_text, arrival_text, ends_text, event_line, message_with, method_name};
ghost use Rattle.replays.specs.EventLines.{received_text, way_text};
ghost use Rattle.replays.specs.Naming.{words_of};
ghost use Rattle.replays.specs.Telling.{site_line, site_text, site_words, tracer_words};

use crate::blocks::add_addresses;
use crate::detail::Detail;
use crate::sites::{EventSite, FrameSite};
use crate::texts::{add, add_number, add_place};
use crate::tracer::Tracer;
use flow::{Branches, Cases, Instr, Sending};
use machine::{Block, Event, Held, World, instruction_at, is_imp, payload_addresses, place_of};
use program::{Action, Channel, Exchange, HeapType, Mention, MethodId};
use source::Memory;
use std::collections::VecDeque;

/// Returns whether an instruction is notable: more than a use, a move, the end of a scope, or a condition that goes one way only.
fn is_notable(instr: &Instr) -> bool
    ensures { result ≡ lines.is_notable (instruction_model instr.now) }
{
    match instr {
        Instr::Act { action, .. } => match action {
            Action::Use(_) | Action::Move { .. } => false,
            Action::Delete(_) | Action::Exchange(_) | Action::NewChannel(_) => true,
        },
        Instr::Branch { branches, .. } => match branches {
            Branches::Only(_) => false,
            Branches::Either { .. } => true,
        },
        Instr::Forget { .. } => false,
        Instr::New { .. } | Instr::Send(_) | Instr::Switch { .. } | Instr::Call(_) => true,
        Instr::Start(_) | Instr::Return(_) | Instr::Stop { .. } => true,
    }
}

/// Returns whether an instruction has a line.
fn has_line(detail: Detail, instr: &Instr) -> bool
    ensures { result ≡ lines.has_line detail (instruction_model instr.now) }
{
    match detail {
        Detail::Nothing => false,
        Detail::Notable => is_notable(instr),
        Detail::Everything => true,
    }
}

/// Returns the way that a condition goes by this choice.
fn way_text(branches: Branches, choice: u64) -> &'static [u8]
    ensures { result.now ≡ way_text branches choice }
{
    match branches {
        Branches::Only(_) => b"constant condition",
        Branches::Either { .. } => {
            if choice == 0 {
                b"condition true"
            } else {
                b"condition false"
            }
        }
    }
}

/// Adds a message and the addresses of the blocks that it brings: `Deposit(3)`, or `Ok` if it brings none.
fn add_message(answer: &mut Vec<u8>, name: &[u8], payload: &[usize]) -> Result<(), Memory>
    ensures { OnOk result (answer.new.items ≡ answer.old.items ++ message_with name.now payload.now) }
{
    add(answer, name)?;
    if payload.is_empty() {
        return Ok(());
    }
    add(answer, b"(")?;
    add_addresses(answer, payload)?;
    add(answer, b")")
}

/// Returns the queue of the block at an address. `None` if there is no block.
fn queue_of(blocks: &[Block], a: usize) -> Option<&VecDeque<Held>>
    ensures some { IfSome result (λ queue. map held_model queue.now.items ≡ (block_at (blocks_model blocks.now) a).queue) }
    ensures none { IfNone result ((block_at (blocks_model blocks.now) a).queue ≡ []) }
{
    match blocks.get(a) {
        Some(block) => Some(&block.queue),
        None => None,
    }
}

/// Returns the endpoint of a choice of a switch, if there is such a choice.
fn endpoint_of(cases: &Cases, choice: u64) -> Option<Mention>
    ensures { result ≡ slice_get (first_mentions [] (cases_model cases.now)) choice }
{
    cases.endpoints().get(choice as usize).copied()
}

impl EventSite<'_> {
    /// Adds the ends of a new channel, whose importing end gets the first free address.
    fn add_ends(&self, answer: &mut Vec<u8>, channel: Channel) -> Result<(), Memory>
        ensures { OnOk result (answer.new.items ≡ answer.old.items
            ++ ends_text (words_of self.now.at.naming.now) (frame_model self.now.at.frame.now) channel.first channel.second
            (kinds.is_imp (lines.type (words_of self.now.at.naming.now) (frame_model self.now.at.frame.now) channel.first))
            (length (world_model self.now.world.now).blocks)) }
    {
        let imp = self.world.blocks().len();
        let exp = imp + 1;
        if is_imp(self.at.ty(channel.first)) {
            self.at.add_with_address(answer, channel.first, imp)?;
            add(answer, b", ")?;
            self.at.add_with_address(answer, channel.second, exp)
        } else {
            self.at.add_with_address(answer, channel.first, exp)?;
            add(answer, b", ")?;
            self.at.add_with_address(answer, channel.second, imp)
        }
    }

    /// Adds what an exchange does.
    fn add_exchange(&self, answer: &mut Vec<u8>, exchange: Exchange) -> Result<(), Memory>
        ensures { OnOk result (answer.new.items ≡ answer.old.items
            ++ action_text (words_of self.now.at.naming.now) (frame_model self.now.at.frame.now)
            (length (world_model self.now.world.now).blocks) (actions.Exchange exchange)) }
    {
        add(answer, b"exchanges ")?;
        self.at.add_variable(answer, exchange.given)?;
        add(answer, b" with a field of ")?;
        self.at.add_variable(answer, exchange.holder)
    }

    /// Adds what an action does.
    fn add_action(&self, answer: &mut Vec<u8>, action: Action) -> Result<(), Memory>
        ensures { OnOk result (answer.new.items ≡ answer.old.items
            ++ action_text (words_of self.now.at.naming.now) (frame_model self.now.at.frame.now)
            (length (world_model self.now.world.now).blocks) action) }
    {
        match action {
            Action::Use(x) => {
                add(answer, b"uses ")?;
                self.at.add_variable(answer, x)
            }
            Action::Move { target, source } => {
                add(answer, self.at.name(target))?;
                add(answer, b" takes ")?;
                self.at.add_variable(answer, source)
            }
            Action::Delete(x) => {
                add(answer, b"deletes ")?;
                self.at.add_variable(answer, x)
            }
            Action::Exchange(exchange) => self.add_exchange(answer, exchange),
            Action::NewChannel(channel) => {
                add(answer, b"makes the channel ")?;
                self.add_ends(answer, channel)
            }
        }
    }

    /// Adds what a send does.
    fn add_send(&self, answer: &mut Vec<u8>, sending: &Sending) -> Result<(), Memory>
        ensures { OnOk result (answer.new.items ≡ answer.old.items
            ++ site_text self.now (instruction_model (instr.Send sending.now))) }
    {
        let payload = payload_addresses(self.alloc, self.at.frame, &sending.payloads)?;
        let name = self
            .at
            .message_name(self.at.ty(sending.endpoint), sending.message);
        add(answer, b"sends ")?;
        add_message(answer, name, &payload)?;
        add(answer, b" on ")?;
        add(answer, self.at.name(sending.endpoint))
    }

    /// Adds what arrives at an endpoint of this type with this queue.
    fn add_arrival(
        &self,
        answer: &mut Vec<u8>,
        ty: HeapType,
        queue: &VecDeque<Held>,
    ) -> Result<(), Memory>
        ensures { OnOk result (answer.new.items ≡ answer.old.items
            ++ arrival_text (words_of self.now.at.naming.now) (frame_model self.now.at.frame.now) ty (map held_model queue.now.items)) }
    {
        match queue.front() {
            Some(held) => {
                add_message(
                    answer,
                    self.at.message_name(ty, held.message),
                    &held.payload,
                )
            }
            None => add(answer, b"ChannelClosed"),
        }
    }

    /// Adds what arrives at an endpoint.
    fn add_arrived(&self, answer: &mut Vec<u8>, endpoint: Mention) -> Result<(), Memory>
        ensures { OnOk result (answer.new.items ≡ answer.old.items
            ++ arrival_text (words_of self.now.at.naming.now) (frame_model self.now.at.frame.now)
            (lines.type (words_of self.now.at.naming.now) (frame_model self.now.at.frame.now) endpoint)
            (block_at (world_model self.now.world.now).blocks
            (lines.at (words_of self.now.at.naming.now) (frame_model self.now.at.frame.now) endpoint)).queue) }
    {
        match queue_of(self.world.blocks(), self.at.frame.address(endpoint)) {
            Some(queue) => self.add_arrival(answer, self.at.ty(endpoint), queue),
            None => add(answer, b"ChannelClosed"),
        }
    }

    /// Adds what arrives at the endpoint of a choice, and where. Adds nothing if there is no such choice.
    fn add_received(&self, answer: &mut Vec<u8>, cases: &Cases) -> Result<(), Memory>
        ensures { OnOk result (answer.new.items ≡ answer.old.items
            ++ received_text (words_of self.now.at.naming.now) (frame_model self.now.at.frame.now) (world_model self.now.world.now).blocks
            (slice_get (first_mentions [] (cases_model cases.now)) self.now.event.choice)) }
    {
        let Some(endpoint) = endpoint_of(cases, self.event.choice) else {
            return Ok(());
        };
        add(answer, b"receives ")?;
        self.add_arrived(answer, endpoint)?;
        add(answer, b" on ")?;
        add(answer, self.at.name(endpoint))
    }

    /// Adds what an instruction does.
    fn add_step(&self, answer: &mut Vec<u8>, instr: &Instr) -> Result<(), Memory>
        ensures { OnOk result (answer.new.items ≡ answer.old.items ++ site_text self.now (instruction_model instr.now)) }
    {
        match instr {
            Instr::Act { action, .. } => self.add_action(answer, *action),
            Instr::New { target, .. } => {
                add(answer, b"makes ")?;
                self.at
                    .add_with_address(answer, *target, self.world.blocks().len())
            }
            Instr::Send(sending) => self.add_send(answer, sending),
            Instr::Switch { cases, .. } => self.add_received(answer, cases),
            Instr::Branch { branches, .. } => add(answer, way_text(*branches, self.event.choice)),
            Instr::Forget { .. } => add(answer, b"leaves a scope"),
            Instr::Call(calling) => {
                add(answer, b"calls ")?;
                add(answer, self.method_name(calling.method))
            }
            Instr::Start(starting) => self.add_start(answer, starting.method),
            Instr::Return(_) | Instr::Stop { .. } => add(answer, end_text(self.callers)),
        }
    }

    /// Adds what the start of a method does: which process begins with it.
    fn add_start(&self, answer: &mut Vec<u8>, method: MethodId) -> Result<(), Memory>
        ensures { OnOk result (answer.new.items ≡ answer.old.items
            ++ (codes "starts P" ++ (decimal (length (world_model self.now.world.now).processes)
            ++ (codes ": " ++ method_name (site_words self.now) method.0)))) }
    {
        add(answer, b"starts P")?;
        add_number(answer, self.world.processes().len() as u64)?;
        add(answer, b": ")?;
        add(answer, self.method_name(method))
    }

    /// Adds the line of the event if its frame is at this instruction: `P1 21:5 sends Deposit(3) on other`. Adds nothing if
    /// the instruction has no line.
    fn add_line(&self, answer: &mut Vec<u8>, instr: &Instr) -> Result<(), Memory>
        ensures { OnOk result (answer.new.items ≡ answer.old.items ++ site_line self.now (instruction_model instr.now)) }
    {
        if !has_line(self.detail, instr) {
            return Ok(());
        }
        add(answer, b"P")?;
        add_number(answer, self.event.process)?;
        add(answer, b" ")?;
        add_place(answer, place_of(instr))?;
        add(answer, b" ")?;
        self.add_step(answer, instr)?;
        add(answer, b"\n")
    }
}

/// Returns how a method ends that has this number of callers.
fn end_text(callers: usize) -> &'static [u8]
    ensures { result.now ≡ lines.end_text callers }
{
    if callers == 0 { b"ended" } else { b"returns" }
}

impl Tracer<'_> {
    /// Adds the line of an event in a world. Adds nothing if the process does not run.
    pub(crate) fn add_event<'x>(
        &'x self,
        answer: &mut Vec<u8>,
        world: &'x World,
        event: Event,
    ) -> Result<(), Memory>
        ensures { OnOk result (answer.new.items ≡ answer.old.items ++ event_line (tracer_words self.now) (world_model world.now) event) }
    {
        let Some(process) = world.processes().get(event.process as usize) else {
            return Ok(());
        };
        let Some(frame) = process.innermost() else {
            return Ok(());
        };
        let Some(instr) = instruction_at(self.naming.program(), frame) else {
            return Ok(());
        };
        let site = EventSite {
            alloc: self.alloc,
            at: FrameSite {
                naming: &self.naming,
                frame,
            },
            callers: process.frame_count().saturating_sub(1),
            world,
            event,
            methods: self.methods,
            detail: self.detail,
        };
        site.add_line(answer, instr)
    }
}
