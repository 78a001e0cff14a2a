//! The heads of the cases of a switch.

ghost use Rattle.std.specs.Prelude.{◌≡◌, ℕ, List, Option, Some, take, map, IfOk, slice_get};
ghost use Rattle.tree.specs.StatementTrees.{switch_tree, case_tree};
ghost use Rattle.names.specs.Bodies.{head_of};
ghost use Rattle.names.specs.Heads.{awaiting_of, key_words, awaited_word, key_at, is_before, switch_heads};
ghost use Rattle.tables.specs.Words.{word_at};

use lemmas::first_positions;
use source::{Memory, Span};
use std::alloc::Global;
use std::collections::BTreeMap;
use tables::{Seed, Table};
use tree::{Awaited, Case, Switch};

/// The words of the endpoint of a case and of the message that it awaits; no message if the case is for a close.
type Key<'a> = (&'a [u8], Option<&'a [u8]>);

/// The endpoint of a case, and what is awaited there.
#[derive(Clone, Copy)]
pub(crate) struct Awaiting {
    endpoint: Span,
    awaited: Awaited,
}

/// The index of the first case of a switch for each endpoint, and for each endpoint with what is awaited there. Names
/// are compared and never hashed.
#[derive(Drop)]
pub(crate) struct Heads<'a> {
    cases: BTreeMap<Key<'a>, usize>,
    endpoints: Table<'a>,
}

impl<'a> Heads<'a> {
    ghost use Rattle.names.specs.Cases.{Head, awaits_too};
    ghost use Rattle.names.specs.Heads.{IsHeads, lacks};

    /// Returns the heads of a switch.
    pub(crate) fn of(
        alloc: Global,
        seed: Seed,
        text: &'a [u8],
        switch: &Switch,
    ) -> Result<Heads<'a>, Memory>
        ensures { IfOk result (IsHeads text.now (switch_heads (switch_tree switch.now))) }
    {
        let list = awaiting_in(alloc, switch)?;
        let names = endpoints_of(alloc, &list)?;
        let keys = keys_of(alloc, text, &list)?;
        let cases = first_positions(alloc, &keys)?;
        let endpoints = Table::of(alloc, seed, text, &names)?;
        Ok(Heads { cases, endpoints })
    }

    /// Returns whether a head before this index awaits the same as this case.
    pub(crate) fn is_twice(&self, text: &'a [u8], index: usize, awaiting: Awaiting) -> bool
        ensures { (all : List Head) (h : Head) → IsHeads text.now all self.now → awaiting ≡ awaiting_of h
            → result ≡ awaits_too text.now h (take index all) }
    {
        stands_before(self.index_of(key_of(text, awaiting)), index)
    }

    /// Returns whether the endpoint has no case for its close, and no head before this index names it.
    pub(crate) fn is_lacking(&self, text: &'a [u8], index: usize, endpoint: Span) -> bool
        ensures { (all : List Head) (h : Head) → IsHeads text.now all self.now → endpoint ≡ h.endpoint
            → result ≡ lacks text.now all (take index all) h }
    {
        let word = endpoint.slice(text);
        let named = stands_before(self.endpoints.find(word), index);
        let closed = self.index_of((word, None)).is_some();
        !(named || closed)
    }

    /// Returns the index of the first head with this key.
    fn index_of(&self, key: Key<'a>) -> Option<usize>
        ensures { (text : List ℕ) (all : List Head) → IsHeads text all self.now → result ≡ key_at text (key_words key.entry) all }
    {
        self.cases.get(&key).copied()
    }
}

/// Returns whether it was found before this index.
fn stands_before(found: Option<usize>, index: usize) -> bool
    ensures { result ≡ is_before index found }
{
    match found {
        Some(first) => first < index,
        None => false,
    }
}

/// Returns the words of a head.
fn key_of<'a>(text: &'a [u8], awaiting: Awaiting) -> Key<'a>
    ensures { key_words result ≡ (word_at text.now awaiting.endpoint, awaited_word text.now awaiting.awaited) }
{
    let word = awaiting.endpoint.slice(text);
    match awaiting.awaited {
        Awaited::Message(message) => (word, Some(message.slice(text))),
        Awaited::Closed(_) => (word, None),
    }
}

/// Returns the words of these heads.
fn keys_of<'a>(alloc: Global, text: &'a [u8], list: &[Awaiting]) -> Result<Vec<Key<'a>>, Memory>
    ensures { IfOk result (λ keys. map key_words keys.items
        ≡ map (λ a. (word_at text.now a.endpoint, awaited_word text.now a.awaited)) list.now) }
{
    let mut keys = Vec::new(alloc);
    for case in list {
        keys.push(key_of(text, *case))?;
    }
    Ok(keys)
}

/// Returns the endpoints of these heads.
fn endpoints_of(alloc: Global, list: &[Awaiting]) -> Result<Vec<Span>, Memory>
    ensures { IfOk result (λ names. names.items ≡ map (λ a. a.endpoint) list.now) }
{
    let mut names = Vec::new(alloc);
    for case in list {
        names.push(case.endpoint)?;
    }
    Ok(names)
}

/// Returns what the head of a case awaits.
pub(crate) fn awaiting_at(case: &Case) -> Awaiting
    ensures { result ≡ awaiting_of (head_of (case_tree case.now)) }
{
    Awaiting {
        endpoint: case.endpoint,
        awaited: case.message,
    }
}

/// Returns what the heads of a switch await, in order.
fn awaiting_in(alloc: Global, switch: &Switch) -> Result<Vec<Awaiting>, Memory>
    ensures { IfOk result (λ list. list.items ≡ map awaiting_of (switch_heads (switch_tree switch.now))) }
{
    let mut list = Vec::new(alloc);
    list.push(awaiting_at(&switch.first))?;
    for case in &switch.others {
        list.push(awaiting_at(case))?;
    }
    Ok(list)
}
