//! Reads items.

ghost use Rattle.std.specs.Prelude.{◌≡◌};
ghost use Rattle.syntax.specs.Reading.{ReadsList, ReadsEnded};
ghost use Rattle.syntax.specs.Firsts.{opens_item};
ghost use Rattle.tree.specs.Trees.{definition_tree, item_tree};
ghost use Rattle.tree.specs.Programs.{definition, item, program};

use crate::access::access;
use crate::classes::class;
use crate::contracts::contract;
use crate::cursor::{Cursor, Stuck};
use crate::structs::structure;
use source::Kind;
use std::alloc::Global;
use tree::{Definition, Item};

/// Returns whether an item begins with this token.
fn is_item(kind: Option<Kind>) -> bool
    ensures { result ≡ opens_item kind }
{
    matches!(
        kind,
        Some(
            Kind::Public | Kind::Private | Kind::Internal | Kind::Contract | Kind::Rep | Kind::Class
        )
    )
}

/// { item }
pub fn items(alloc: Global, cursor: &mut Cursor<'_>) -> Result<Vec<Item>, Stuck>
    ensures { ReadsList item_tree item opens_item cursor.old cursor.new result }
{
    let mut all = Vec::new(alloc);
    'each: while is_item(cursor.peek()) {
        all.push(item(alloc, cursor)?)?;
    }
    Ok(all)
}

/// item = [ access ] definition .
fn item(alloc: Global, cursor: &mut Cursor<'_>) -> Result<Item, Stuck>
    ensures { ReadsEnded item_tree item cursor.old cursor.new result }
{
    let access = access(cursor);
    let definition = definition(alloc, cursor)?;
    Ok(Item { access, definition })
}

/// definition = contract | class | struct .
fn definition(alloc: Global, cursor: &mut Cursor<'_>) -> Result<Definition, Stuck>
    ensures { ReadsEnded definition_tree definition cursor.old cursor.new result }
{
    if cursor.is_next(Kind::Contract) {
        Ok(Definition::Contract(contract(alloc, cursor)?))
    } else if cursor.is_next(Kind::Class) {
        Ok(Definition::Class(class(alloc, cursor)?))
    } else {
        Ok(Definition::Struct(structure(alloc, cursor)?))
    }
}
