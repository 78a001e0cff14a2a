//! Lines that show why a condition of a contract is broken.

ghost use Rattle.std.specs.Prelude.{◌≡◌, ◌≢◌, [], All, IfOk, map};
ghost use Rattle.contracts.specs.Walks.{HasSign, IsWalk};
ghost use Rattle.program.specs.Parts.{contract_parts};
ghost use Rattle.source.specs.Findings.{finding_model};
ghost use Rattle.explanations.specs.Explained.{explained_as, explained_model};
ghost use Rattle.explanations.specs.Lines.{line_model};
ghost use Rattle.contract_traces.specs.Shown.{HasDirection, IsShown, ShowsBoth, ShowsEarlier, ShowsRound, taken_sign_text};
ghost use Rattle.contract_traces.specs.Tables.{AreReasonsFor, AreShowing, IsOneOrNone};

use crate::edges::{edge_lines, round_of};
use crate::reasons::{Reasons, place_key};
use crate::rings::Rings;
use explanations::{Explained, Line, is_asked, line_of};
use program::{Contract, Direction, Edge, Sign, State};
use source::{Code, Finding, Memory, Place};
use std::alloc::Global;

/// Returns the findings of a contract, each with lines that show it: for C01 the sign that the message takes, for C02 the earlier edge,
/// for C03 an edge of each sign, for C04 a ring of one sign. In a contract with very many rings, those of its later states have no
/// lines. If a place is named, only findings there have lines.
///
/// # Errors
/// `Memory` if out of memory.
pub fn show_faults(
    alloc: Global,
    contract: &Contract,
    found: Vec<Finding>,
    named: Option<Place>,
) -> Result<Vec<Explained>, Memory>
    ensures same { IfOk result (λ shown. map (λ e. finding_model e.finding) shown.items ≡ map finding_model found.items) }
    ensures shown { IfOk result (λ shown. All (λ e. IsShown named (contract_parts contract.now) (explained_model e)) shown.items) }
{
    let reasons = Reasons::of(alloc, contract)?;
    let faults = Faults {
        alloc,
        contract,
        named,
        reasons: &reasons,
    };
    let mut rings = Rings::of(alloc, &contract.edges)?;
    let mut shown = Vec::new(alloc);
    for finding in found {
        let lines = faults.lines_of(&finding, &mut rings)?;
        shown.push(Explained { finding, lines })?;
    }
    Ok(shown)
}

/// The contract of findings, and what shows them.
#[derive(Clone, Copy)]
struct Faults<'a> {
    alloc: Global,
    contract: &'a Contract,
    named: Option<Place>,
    reasons: &'a Reasons,
}

impl Faults<'_> {
    /// Returns the lines that show a finding, if they are asked for.
    fn lines_of(&self, finding: &Finding, rings: &mut Rings<'_>) -> Result<Vec<Line>, Memory>
        requires reasons { AreReasonsFor self.now.contract.now self.now.reasons.now }
        ensures { IfOk result (λ lines. IsShown self.now.named (contract_parts self.now.contract.now)
            (explained_as (finding_model finding.now) lines.items)) }
    {
        if !is_asked(self.named, finding.place) {
            return Ok(Vec::new(self.alloc));
        }
        if finding.code == Code::C01 {
            return self.direction_lines(finding.place);
        }
        let shown = self.edges_of(finding.code, finding.place, rings)?;
        edge_lines(self.alloc, self.contract, &shown)
    }

    /// Returns the line with the sign that the message of the edge at this place takes; none if there is no such edge.
    fn direction_lines(&self, place: Place) -> Result<Vec<Line>, Memory>
        requires reasons { AreReasonsFor self.now.contract.now self.now.reasons.now }
        ensures { IfOk result (λ lines. IsOneOrNone (HasDirection (contract_parts self.now.contract.now) place)
            (map line_model lines.items)) }
    {
        let mut lines = Vec::new(self.alloc);
        if let Some(direction) = self.reasons.directions.get(&place_key(place)).copied() {
            lines.push(line_of(self.alloc, place, sign_text(direction), b"", b"")?)?;
        }
        Ok(lines)
    }

    /// Returns the edges that show a finding; none if its condition is not one that edges show.
    fn edges_of(&self, code: Code, place: Place, rings: &mut Rings<'_>) -> Result<Vec<Edge>, Memory>
        requires reasons { AreReasonsFor self.now.contract.now self.now.reasons.now }
        ensures { IfOk result (λ shown. AreShowing (contract_parts self.now.contract.now) code place shown.items) }
    {
        match code {
            Code::C02 => self.earlier_edge(place),
            Code::C03 => self.both_edges(place),
            Code::C04 => self.round(place, rings),
            _ => Ok(Vec::new(self.alloc)),
        }
    }

    /// Returns the earlier edge with the state and the message of the one at this place.
    fn earlier_edge(&self, place: Place) -> Result<Vec<Edge>, Memory>
        requires reasons { AreReasonsFor self.now.contract.now self.now.reasons.now }
        ensures { IfOk result (λ shown. IsOneOrNone (ShowsEarlier self.now.contract.now.edges.items place) shown.items) }
    {
        let mut shown = Vec::new(self.alloc);
        if let Some(earlier) = self.reasons.earlier.get(&place_key(place)).copied() {
            shown.push(earlier)?;
        }
        Ok(shown)
    }

    /// Returns edges of both signs from the state at this place.
    fn both_edges(&self, place: Place) -> Result<Vec<Edge>, Memory>
        requires reasons { AreReasonsFor self.now.contract.now self.now.reasons.now }
        ensures { IfOk result (λ shown. IsOneOrNone (ShowsBoth (contract_parts self.now.contract.now) place) shown.items) }
    {
        let mut shown = Vec::new(self.alloc);
        if let Some((sends, receives)) = self.reasons.both.get(&place_key(place)).copied() {
            shown.push(sends)?;
            shown.push(receives)?;
        }
        Ok(shown)
    }

    /// Returns a ring of one sign around the state at this place.
    fn round(&self, place: Place, rings: &mut Rings<'_>) -> Result<Vec<Edge>, Memory>
        requires reasons { AreReasonsFor self.now.contract.now self.now.reasons.now }
        ensures { IfOk result (λ shown. shown.items ≢ [] → ShowsRound (contract_parts self.now.contract.now) place shown.items) }
    {
        let Some(state) = self.reasons.states.get(&place_key(place)).copied() else {
            return Ok(Vec::new(self.alloc));
        };
        let sends = self.round_by(state, Sign::Send, rings)?;
        if !sends.is_empty() {
            return Ok(sends);
        }
        self.round_by(state, Sign::Receive, rings)
    }

    /// Returns a ring of edges of this sign around a state, or none.
    fn round_by(&self, state: State, sign: Sign, rings: &mut Rings<'_>) -> Result<Vec<Edge>, Memory>
        ensures { IfOk result (λ shown. shown.items ≢ []
            → IsWalk self.now.contract.now.edges.items state.id shown.items state.id × HasSign sign shown.items) }
    {
        let indices = rings.around(state.id, sign)?;
        round_of(self.alloc, &self.contract.edges, &indices, state.id, sign)
    }
}

/// Returns which sign a message of this direction takes.
fn sign_text(direction: Direction) -> &'static [u8]
    ensures { result.now ≡ taken_sign_text direction }
{
    match direction {
        Direction::In => b"an in message is followed by ?".as_slice(),
        Direction::Out => b"an out message is followed by !".as_slice(),
    }
}
