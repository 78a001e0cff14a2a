//! The findings of a text that has no program, with lines that explain them.

ghost use Rattle.std.specs.Prelude.{◌≡◌, ◌≢◌, ◌∷◌, [], ◌++◌, ◌||◌, IfOk, OnOk, List, ℕ, is_some, map, nat_lt, option_map};
ghost use Rattle.source.specs.Faults.{IsFault};
ghost use Rattle.source.specs.Findings.{finding_model};
ghost use Rattle.declarations.specs.Mistakes.{finding_in};
ghost use Rattle.declarations.specs.Program.{program_of};
ghost use Rattle.explanations.specs.Explained.{explained_model};
ghost use Rattle.explanations.specs.Lines.{line_model};
ghost use Rattle.singcheck.specs.Explains.{AreExplained};
ghost use Rattle.singcheck.specs.Fronts.{AreMistaken, IsRefused};
ghost use Rattle.singcheck.specs.Remarked.{HasFault, most_searched, remark_lines, remark_within, said_lines};

use crate::expecting::explain_at;
use crate::explaining::explain_contracts;
use crate::front::Refused;
use crate::limits::MOST_LOOKED_THROUGH;
use crate::refusals::fault_finding;
use explanations::{Explained, Line, is_asked};
use names::Mistake;
use remarks::{fault_remark, remark};
use source::{Finding, Memory, Place, TextFault};
use std::alloc::Global;
use tree::Tree;

/// Returns the findings of a text that has no program, in no order. If a place is named, only findings there have lines.
///
/// # Errors
/// `Memory` if out of memory, also while the text was read.
pub(crate) fn explain_refused(
    alloc: Global,
    text: &[u8],
    refused: Refused,
    named: Option<Place>,
) -> Result<Vec<Explained>, Memory>
    requires refused { IsRefused text.now refused }
    ensures { IfOk result (λ found. AreExplained named text.now (map explained_model found.items)) }
{
    match refused {
        Refused::Text(fault) => alone(alloc, explain_fault(alloc, fault, named)?),
        Refused::Syntax(tokens, number) => alone(alloc, explain_at(alloc, &tokens, number, named)?),
        Refused::Names(tree, mistakes) => explain_names(alloc, text, &tree, &mistakes, named),
        Refused::Contracts(methods, broken) => {
            explain_contracts(alloc, methods.contracts(), broken, named)
        }
        Refused::Memory => Err(Memory),
    }
}

/// Returns a list of one finding with its lines.
fn alone(alloc: Global, explained: Explained) -> Result<Vec<Explained>, Memory>
    ensures { IfOk result (λ found. found.items ≡ explained ∷ []) }
{
    let mut found = Vec::new(alloc);
    found.push(explained)?;
    Ok(found)
}

/// Explains all mistakes in the names of a text. For the first `most_searched` of them, or for all if a place is named,
/// the nearest name is searched.
fn explain_names(
    alloc: Global,
    text: &[u8],
    tree: &Tree,
    mistakes: &[Mistake],
    named: Option<Place>,
) -> Result<Vec<Explained>, Memory>
    requires mistaken { AreMistaken text.now tree.now mistakes.now }
    ensures { IfOk result (λ found. AreExplained named text.now (map explained_model found.items)) }
{
    let mut found = Vec::new(alloc);
    for (number, mistake) in mistakes.iter().enumerate() {
        let within = is_searched(text, number, named);
        found.push(explain_mistake(alloc, text, tree, *mistake, named, within)?)?;
    }
    Ok(found)
}

/// Returns whether the nearest name is searched for the mistake with this number.
fn is_searched(text: &[u8], number: usize, named: Option<Place>) -> bool
    ensures { result ≡ nat_lt number (most_searched text.now) || is_some named }
{
    number < most_searched(text) || named.is_some()
}

/// Returns for how many mistakes in the names of a text the nearest name is searched. Each search may go through the
/// whole text, so a longer text has fewer.
fn most_searched(text: &[u8]) -> usize
    ensures { result ≡ most_searched text.now }
{
    MOST_LOOKED_THROUGH / text.len().max(1)
}

/// Explains a mistake in the names of a text, with its remark if no other place is named. If `within` is false, a
/// name that nothing declares has no remark, since its nearest name is not searched.
fn explain_mistake(
    alloc: Global,
    text: &[u8],
    tree: &Tree,
    mistake: Mistake,
    named: Option<Place>,
    within: bool,
) -> Result<Explained, Memory>
    ensures finding { IfOk result (λ e. finding_model e.finding ≡ finding_in text.now mistake) }
    ensures lines { IfOk result (λ e. map line_model e.lines.items
        ≡ remark_lines named e.finding.place (remark_within within (program_of text.now tree.now) mistake)) }
{
    let finding = mistake.finding(alloc, text)?;
    let asked = is_asked(named, finding.place);
    let mut lines = Vec::new(alloc);
    if asked {
        add_remark(
            remark_within(alloc, text, tree, mistake, within)?,
            &mut lines,
        )?;
    }
    Ok(Explained { finding, lines })
}

/// Returns the remark of a mistake. If `within` is false, a name that nothing declares has none.
fn remark_within(
    alloc: Global,
    text: &[u8],
    tree: &Tree,
    mistake: Mistake,
    within: bool,
) -> Result<Option<Line>, Memory>
    ensures { IfOk result (λ said. option_map line_model said
        ≡ remark_within within (program_of text.now tree.now) mistake) }
{
    match mistake {
        Mistake::Unknown(..) if !within => Ok(None),
        _ => remark(alloc, text, &tree.items, mistake),
    }
}

/// Explains the first fault of a text.
fn explain_fault(alloc: Global, fault: TextFault, named: Option<Place>) -> Result<Explained, Memory>
    ensures { (text : List ℕ) → (fault ≢ TextFault.Memory → IsFault text fault)
        → IfOk result (λ e. HasFault named text (explained_model e)) }
{
    let finding = fault_finding(alloc, fault)?;
    let said = fault_remark(alloc, fault)?;
    explained_by(alloc, finding, said, named)
}

/// Returns a finding with its remark, if there is one and no other place is named.
fn explained_by(
    alloc: Global,
    finding: Finding,
    said: Option<Line>,
    named: Option<Place>,
) -> Result<Explained, Memory>
    ensures finding { IfOk result (λ e. e.finding ≡ finding) }
    ensures lines { IfOk result (λ e. map line_model e.lines.items
        ≡ remark_lines named e.finding.place (option_map line_model said)) }
{
    let mut lines = Vec::new(alloc);
    if is_asked(named, finding.place) {
        add_remark(said, &mut lines)?;
    }
    Ok(Explained { finding, lines })
}

/// Adds the line of a remark, if there is one.
fn add_remark(said: Option<Line>, lines: &mut Vec<Line>) -> Result<(), Memory>
    ensures { OnOk result (map line_model lines.new.items
        ≡ map line_model lines.old.items ++ said_lines (option_map line_model said)) }
{
    match said {
        Some(remark) => lines.push(remark)?,
        None => {}
    }
    Ok(())
}
