//! The entries of a text, for those who named none of them.

ghost use Rattle.std.specs.Prelude.{◌≢◌, IfErr, IsErrOf};
ghost use Rattle.devices.specs.RunFaults.{IsBoundsFault};
ghost use Rattle.devices.specs.Runs.{TakesAtMost};

use crate::entries::{index_in, method_name};
use crate::front::tree_of;
use devices::{Input, MAX_READ, RunFault, Sink, Source, read_text, write_all};
use source::{Memory, Span};
use std::alloc::Global;
use tree::{Definition, Method, Tree};

/// Reads a program text, and writes why no run begins with the method called `entry`, if there is one, and then a line for each
/// method with which a run may begin: `entry: Class.Method`. Nothing is written if the text is no program.
///
/// # Errors
/// `Read` and `Write` only if that device failed, `Memory` only if out of memory.
pub fn run_entries<R: Source, W: Sink>(
    alloc: Global,
    reader: &mut R,
    entry: &[u8],
    writer: &mut W,
) -> Result<(), RunFault>
    ensures most { TakesAtMost MAX_READ (R.remaining reader.old) (R.remaining reader.new) }
    ensures read { IsErrOf result (RunFault.Read Input.Text) → R.failed reader.new ≢ R.failed reader.old }
    ensures write { IsErrOf result RunFault.Write → W.failed writer.new ≢ W.failed writer.old }
    ensures fault { IfErr result IsBoundsFault }
{
    let text = read_text(alloc, reader)?;
    let lines = lines_about(alloc, &text, entry)?;
    write_all(&lines, writer)?;
    Ok(())
}

/// Returns the lines about an entry that is none of the text.
fn lines_about(alloc: Global, text: &[u8], entry: &[u8]) -> Result<Vec<u8>, Memory> {
    let mut lines = Vec::new(alloc);
    if let Ok(tree) = tree_of(alloc, text) {
        add_reason(&mut lines, text, &tree, entry)?;
        add_entries(alloc, &mut lines, text, &tree)?;
    }
    Ok(lines)
}

/// Adds why no run begins with the method of this name, if there is one.
fn add_reason(lines: &mut Vec<u8>, text: &[u8], tree: &Tree, entry: &[u8]) -> Result<(), Memory> {
    for item in &tree.items {
        if index_in(text, &item.definition, entry).is_some() {
            lines.extend_from_slice(entry)?;
            lines.extend_from_slice(b" has parameters or a result, so no run begins with it\n")?;
            return Ok(());
        }
    }
    Ok(())
}

/// Adds a line for each method with which a run may begin.
fn add_entries(alloc: Global, lines: &mut Vec<u8>, text: &[u8], tree: &Tree) -> Result<(), Memory> {
    for item in &tree.items {
        if let Definition::Class(class) = &item.definition {
            add_entries_of(alloc, lines, text, class.name, &class.methods)?;
        }
    }
    Ok(())
}

/// Adds a line for each of these methods with which a run may begin.
fn add_entries_of(
    alloc: Global,
    lines: &mut Vec<u8>,
    text: &[u8],
    class: Span,
    methods: &[Method],
) -> Result<(), Memory> {
    for method in methods {
        if method.result.is_none() && method.params.is_empty() {
            lines.extend_from_slice(b"entry: ")?;
            lines.extend_from_slice(&method_name(alloc, text, class, method)?)?;
            lines.extend_from_slice(b"\n")?;
        }
    }
    Ok(())
}
