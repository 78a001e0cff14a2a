//! The tree of a whole text.

ghost use Rattle.std.specs.Prelude.{◌≤◌, ℕ, length, IfOk, IsErrOf};
ghost use Rattle.tree.specs.Trees.{program_tree};
ghost use Rattle.tree.specs.Programs.{program};
ghost use Rattle.tree.specs.Spelled.{Spells};
ghost use Rattle.syntax.specs.Parsing.{IsFirstWrong, FindsTree};

use crate::cursor::{Cursor, Stuck};
use crate::fault::SyntaxFault;
use crate::items::items;
use source::Tokens;
use std::alloc::Global;
use tree::Tree;

/// Parses the tokens of a whole text into the tree of a program.
///
/// The grammar is that of channel contracts in Sing# (Fähndrich et al., "Language Support for Fast and Reliable
/// Message-based Communication in Singularity OS", EuroSys 2006), one rule a line in `specs/Grammar.antt`.
///
/// # Errors
/// `At(k)` if no program continues with token `k`, counted from 0, which is the first such token: the tokens before
/// it begin a program, and with it they begin none. If all tokens begin a program but are none, `k` is their
/// number, for example if the last brace of a contract is missing. `Memory` if an allocation was refused. The
/// tokens do not change.
pub fn parse(alloc: Global, tokens: &Tokens) -> Result<Tree, SyntaxFault>
    ensures tree { IfOk result (λ t. Spells program (program_tree t) tokens.now.list.items) }
    ensures few { IfOk result (λ t. length (program (program_tree t)) ≤ length tokens.now.list.items) }
    ensures wrong { (k : ℕ) → IsErrOf result (SyntaxFault.At k) → IsFirstWrong program tokens.now.list.items k }
    ensures found { FindsTree program program_tree tokens.now.list.items result }
{
    let list = tokens.list.as_slice();
    let mut cursor = Cursor::new(list);
    match items(alloc, &mut cursor) {
        Ok(items) => {
            let left = cursor.tokens_left();
            if left == 0 {
                Ok(Tree { items })
            } else {
                Err(SyntaxFault::At(list.len() - left))
            }
        }
        Err(Stuck::Unexpected) => Err(SyntaxFault::At(list.len() - cursor.tokens_left())),
        Err(Stuck::Memory) => Err(SyntaxFault::Memory),
    }
}
