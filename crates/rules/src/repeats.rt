//! Repeated arguments of calls and starts. They depend on no row, so they are found once, when a program is made.

ghost use Rattle.std.specs.Prelude.{◌≡◌, ◌==◌, ℕ, IfOk, None, OnOk, [], if◌then◌else◌, map};
ghost use Rattle.flow.specs.Graphs.{graph_model, instruction_model};
ghost use Rattle.rules.specs.Repeats.{again_in, first_again, given_again, repeated_in};

use flow::{Graph, Instr};
use program::{Argument, Mention};
use source::Memory;
use std::alloc::Global;
use std::collections::{BTreeMap, BTreeSet};

/// Returns the first argument whose variable an earlier one gives too.
fn first_again(alloc: Global, arguments: &[Argument]) -> Result<Option<Mention>, Memory>
    ensures { IfOk result (λ again. again ≡ first_again [] arguments.now) }
{
    let mut earlier = BTreeSet::new(alloc);
    for argument in arguments {
        if !earlier.insert(argument.mention.variable.0)? {
            return Ok(Some(argument.mention));
        }
    }
    Ok(None)
}

/// Returns the first repeated argument of a call or a start, if the instruction is one and has one.
fn given_again(alloc: Global, instruction: &Instr) -> Result<Option<Mention>, Memory>
    ensures { IfOk result (λ again. again ≡ given_again (instruction_model instruction.now)) }
{
    match instruction {
        Instr::Call(calling) => first_again(alloc, &calling.arguments),
        Instr::Start(starting) => first_again(alloc, &starting.arguments),
        Instr::Act { .. } | Instr::New { .. } | Instr::Send(_) | Instr::Switch { .. } => Ok(None),
        Instr::Branch { .. } | Instr::Forget { .. } => Ok(None),
        Instr::Return(_) | Instr::Stop { .. } => Ok(None),
    }
}

/// The first repeated argument of each call and start of a graph, by point. Most have none, and take no memory here.
#[derive(Drop)]
pub(crate) struct Repeats {
    firsts: BTreeMap<usize, Mention>,
}

impl Repeats {
    /// Finds those of a graph.
    fn of(alloc: Global, graph: &Graph) -> Result<Repeats, Memory>
        ensures { IfOk result (λ repeats. repeated_in repeats ≡ again_in (graph_model graph.now)) }
    {
        let mut repeats = Repeats {
            firsts: BTreeMap::new(alloc),
        };
        for (point, instruction) in graph.instructions.iter().enumerate() {
            let again = given_again(alloc, instruction)?;
            repeats.keep(point, again)?;
        }
        Ok(repeats)
    }

    /// Returns the first repeated argument at a point, if there is one.
    pub(crate) fn at(&self, point: usize) -> Option<Mention>
        ensures { result ≡ repeated_in self.now point }
    {
        self.firsts.get(&point).copied()
    }

    /// Keeps the first repeated argument at a point, if there is one. The point has none yet.
    fn keep(&mut self, point: usize, again: Option<Mention>) -> Result<(), Memory>
        requires { repeated_in self.old point ≡ None }
        ensures { OnOk result ((q : ℕ) → repeated_in self.new q ≡ (if point == q then again else repeated_in self.old q)) }
    {
        if let Some(again) = again {
            self.firsts.insert(point, again)?;
        }
        Ok(())
    }
}

/// Finds the repeated arguments of each of these graphs.
pub(crate) fn repeats_of(alloc: Global, graphs: &[Graph]) -> Result<Vec<Repeats>, Memory>
    ensures { IfOk result (λ repeats. map repeated_in repeats.items ≡ map (λ g. again_in (graph_model g)) graphs.now) }
{
    let mut repeats = Vec::new(alloc);
    for graph in graphs {
        repeats.push(Repeats::of(alloc, graph)?)?;
    }
    Ok(repeats)
}
