//! The cases of a switch.

ghost use Rattle.std.specs.Prelude.{◌≡◌, [], IfOk, map, option_map};
ghost use Rattle.std.proofs.Props.{props};
ghost use Rattle.flow.specs.Cases.{AreCasePositions, entrance_model, first_mentions, key_of};

use crate::graph::Entrance;
use lemmas::first_positions;
use program::{Awaited, Mention, MessageId, VarId};
use source::Memory;
use std::alloc::Global;
use std::collections::{BTreeMap, BTreeSet};

/// The cases of a switch in order of the text. It finds the case for what arrives at an endpoint by their numbers.
#[derive(Drop)]
pub struct Cases {
    list: Vec<Entrance>,
    endpoints: Vec<Mention>,
    firsts: BTreeMap<(usize, Option<u32>), usize>,
    ghost named: { endpoints.items ≡ first_mentions [] (map entrance_model list.items) },
    ghost keyed: { AreCasePositions (map entrance_model list.items) firsts } by { Prim.hlevel props },
}

impl Cases {
    ghost use Rattle.flow.specs.Cases.{case_for};
    ghost use Rattle.flow.specs.Graphs.{cases_model};

    /// Makes the cases of a switch from this list.
    ///
    /// # Errors
    /// `Memory` if out of memory.
    pub fn new(alloc: Global, list: Vec<Entrance>) -> Result<Cases, Memory>
        ensures { IfOk result (λ cases. cases_model cases ≡ map entrance_model list.items) }
    {
        let endpoints = endpoints_of(alloc, &list)?;
        let firsts = first_positions(alloc, &keys_of(alloc, &list)?)?;
        Ok(Cases {
            list,
            endpoints,
            firsts,
        })
    }

    /// Returns its cases, in order of the text.
    pub fn list(&self) -> &[Entrance]
        ensures { map entrance_model result.now ≡ cases_model self.now }
    {
        &self.list
    }

    /// Returns its endpoints, each at its first mention in a case.
    pub fn endpoints(&self) -> &[Mention]
        ensures { result.now ≡ first_mentions [] (cases_model self.now) }
    {
        &self.endpoints
    }

    /// Returns the first case for a message at an endpoint, or for the close if there is no message.
    pub fn find(&self, endpoint: VarId, message: Option<MessageId>) -> Option<&Entrance>
        ensures { option_map (λ e. entrance_model e.now) result
            ≡ case_for (cases_model self.now) endpoint.0 (option_map (λ m. m.0) message) }
    {
        let key = (endpoint.0, number_of(message));
        let position = self.firsts.get(&key).copied()?;
        Some(&self.list[position])
    }
}

/// Returns the endpoints of these cases, each at its first mention.
fn endpoints_of(alloc: Global, cases: &[Entrance]) -> Result<Vec<Mention>, Memory>
    ensures { IfOk result (λ endpoints. endpoints.items ≡ first_mentions [] (map entrance_model cases.now)) }
{
    let mut seen = BTreeSet::new(alloc);
    let mut endpoints = Vec::new(alloc);
    for case in cases {
        if seen.insert(case.endpoint.variable.0)? {
            endpoints.push(case.endpoint)?;
        }
    }
    Ok(endpoints)
}

/// Returns the number of a message, if there is one.
fn number_of(message: Option<MessageId>) -> Option<u32>
    ensures { result ≡ option_map (λ m. m.0) message }
{
    match message {
        Some(message) => Some(message.0),
        None => None,
    }
}

/// Returns the key of a case: the numbers of its endpoint and of the message that it waits for, if it waits for one.
fn key_of(case: &Entrance) -> (usize, Option<u32>)
    ensures { result ≡ key_of (entrance_model case.now) }
{
    match case.awaited {
        Awaited::Message(id) => (case.endpoint.variable.0, Some(id.0)),
        Awaited::Closed => (case.endpoint.variable.0, None),
    }
}

/// Returns the keys of these cases.
fn keys_of(alloc: Global, cases: &[Entrance]) -> Result<Vec<(usize, Option<u32>)>, Memory>
    ensures { IfOk result (λ keys. keys.items ≡ map (λ c. key_of (entrance_model c)) cases.now) }
{
    let mut keys = Vec::new(alloc);
    for case in cases {
        keys.push(key_of(case))?;
    }
    Ok(keys)
}
