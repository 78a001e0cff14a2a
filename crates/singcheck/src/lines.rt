//! The lines of a report.

ghost use Rattle.std.specs.Prelude.{◌≡◌, ◌++◌, OnOk};
ghost use Rattle.std.specs.Fmt.{decimal};
ghost use Rattle.source.specs.Findings.{finding_model};
ghost use Rattle.explanations.specs.Lines.{line_model};
ghost use Rattle.singcheck.specs.Lines.{finding_line, trace_line, count_line, bounds_line, ok_line, clear_line};
ghost use Rattle.singcheck.specs.Lines.{none_line, unknown_line};

use explanations::Line;
use itoa::Buffer;
use source::{Finding, Memory};

/// Adds a text.
fn add(answer: &mut Vec<u8>, text: &str) -> Result<(), Memory>
    ensures { OnOk result (answer.new.items ≡ answer.old.items ++ text.now) }
{
    answer.extend_from_slice(text.as_bytes())?;
    Ok(())
}

/// Adds a number in decimal.
fn add_number(answer: &mut Vec<u8>, number: usize) -> Result<(), Memory>
    ensures { OnOk result (answer.new.items ≡ answer.old.items ++ decimal number) }
{
    let mut digits = Buffer::new();
    add(answer, digits.format(number))
}

/// Adds `LINE:COL CODE text`.
pub(crate) fn add_finding(answer: &mut Vec<u8>, finding: &Finding) -> Result<(), Memory>
    ensures { OnOk result (answer.new.items ≡ answer.old.items ++ finding_line (finding_model finding.now)) }
{
    add_number(answer, finding.place.line as usize)?;
    add(answer, ":")?;
    add_number(answer, finding.place.col as usize)?;
    add(answer, " ")?;
    add(answer, finding.code.name())?;
    add(answer, " ")?;
    add(answer, finding.text.as_str())?;
    add(answer, "\n")
}

/// Adds a line of a trace: `  LINE:COL text`.
pub(crate) fn add_line(answer: &mut Vec<u8>, line: &Line) -> Result<(), Memory>
    ensures { OnOk result (answer.new.items ≡ answer.old.items ++ trace_line (line_model line.now)) }
{
    add(answer, "  ")?;
    add_number(answer, line.place.line as usize)?;
    add(answer, ":")?;
    add_number(answer, line.place.col as usize)?;
    add(answer, " ")?;
    answer.extend_from_slice(&line.text)?;
    add(answer, "\n")
}

/// Adds `findings: N`.
pub(crate) fn add_count(answer: &mut Vec<u8>, count: usize) -> Result<(), Memory>
    ensures { OnOk result (answer.new.items ≡ answer.old.items ++ count_line count) }
{
    add(answer, "findings: ")?;
    add_number(answer, count)?;
    add(answer, "\n")
}

/// Adds `NAME: to Exp N, to Imp N`.
pub(crate) fn add_bounds(
    answer: &mut Vec<u8>,
    name: &str,
    to_exp: u32,
    to_imp: u32,
) -> Result<(), Memory>
    ensures { OnOk result (answer.new.items ≡ answer.old.items ++ bounds_line name.now to_exp to_imp) }
{
    add(answer, name)?;
    add(answer, ": to Exp ")?;
    add_number(answer, to_exp as usize)?;
    add(answer, ", to Imp ")?;
    add_number(answer, to_imp as usize)?;
    add(answer, "\n")
}

/// Adds `no deadlock in all N worlds`.
pub(crate) fn add_all_worlds(answer: &mut Vec<u8>, worlds: usize) -> Result<(), Memory>
    ensures { OnOk result (answer.new.items ≡ answer.old.items ++ none_line worlds) }
{
    add(answer, "no deadlock in all ")?;
    add_number(answer, worlds)?;
    add(answer, " worlds\n")
}

/// Adds `no deadlock within N worlds`.
pub(crate) fn add_some_worlds(answer: &mut Vec<u8>, worlds: usize) -> Result<(), Memory>
    ensures { OnOk result (answer.new.items ≡ answer.old.items ++ unknown_line worlds) }
{
    add(answer, "no deadlock within ")?;
    add_number(answer, worlds)?;
    add(answer, " worlds\n")
}

/// Adds `ok: C contracts`.
pub(crate) fn add_contracts(answer: &mut Vec<u8>, count: usize) -> Result<(), Memory>
    ensures { OnOk result (answer.new.items ≡ answer.old.items ++ ok_line count) }
{
    add(answer, "ok: ")?;
    add_number(answer, count)?;
    add(answer, " contracts\n")
}

/// Adds `ok: C contracts, M methods`.
pub(crate) fn add_clear(
    answer: &mut Vec<u8>,
    contracts: usize,
    methods: usize,
) -> Result<(), Memory>
    ensures { OnOk result (answer.new.items ≡ answer.old.items ++ clear_line contracts methods) }
{
    add(answer, "ok: ")?;
    add_number(answer, contracts)?;
    add(answer, " contracts, ")?;
    add_number(answer, methods)?;
    add(answer, " methods\n")
}
