//! The front of all commands: what a text becomes before its methods are analysed, or why it has no program.

ghost use Rattle.std.specs.Prelude.{◌≡◌, ◌≢◌, ◌<◌, ◌^◌, ℕ, List, All, IfErr, IfOk, length};
ghost use Rattle.source.specs.Marks.{body_of};
ghost use Rattle.source.specs.Places.{place_of};
ghost use Rattle.source.specs.Tokens.{AreTokens};
ghost use Rattle.tree.specs.Trees.{ItemTree, program_tree};
ghost use Rattle.program.specs.Parts.{IsWhole};
ghost use Rattle.program.specs.Programs.{contracts_model, program_model};
ghost use Rattle.singcheck.specs.Fronts.{AreNamed, IsProgramBefore, IsProgramOf, IsRefused, IsResolvedAs, IsSoundOne};

use crate::soundness::{BrokenContract, Judgement, judge_contracts};
use names::{Mistake, judge_names};
use program::{Methods, Resolved};
use rules::Program;
use sound::laws::clean_methods_are_safe;
use source::{Memory, TextFault, Tokens, lex};
use std::alloc::Global;
use syntax::{SyntaxFault, parse};
use tree::Tree;
use wellformed::well_formed_methods;

/// Why a text has no program: the first stage with findings, with what these are about.
#[derive(Drop)]
pub(crate) enum Refused {
    /// The first fault of the text.
    Text(TextFault),
    /// The tokens of the text, and the number of the first wrong one, or how many there are if the end is wrong.
    Syntax(Tokens, usize),
    /// The tree of the text, and all mistakes in its names and types.
    Names(Tree, Vec<Mistake>),
    /// The methods of the text, and its contracts with findings.
    Contracts(Methods, Vec<BrokenContract>),
    /// An allocation failed.
    Memory,
}

impl From<Memory> for Refused {
    ghost use Rattle.std.specs.Prelude.{◌≡◌};
    ghost use Rattle.singcheck.specs.declared.front.Refused.TheVariants as refused;

    ghost from_gives = { λ _ e. e ≡ refused.Memory };

    fn from(_e: Memory) -> Refused {
        Refused::Memory
    }
}

/// Returns the tree of a text. Its tokens are dropped, unless one of them is wrong.
pub(crate) fn tree_of(alloc: Global, text: &[u8]) -> Result<Tree, Refused>
    ensures tree { IfOk result (IsProgramOf text.now) }
    ensures refused { IfErr result (IsRefused text.now) }
{
    match lex(alloc, text) {
        Ok(tokens) => parse_tokens(alloc, tokens),
        Err(fault) => Err(Refused::Text(fault)),
    }
}

/// Returns the tree that these tokens spell.
fn parse_tokens(alloc: Global, tokens: Tokens) -> Result<Tree, Refused>
    requires few { length tokens.list.items < 2 ^ 32 }
    ensures tree { (text : List ℕ) → AreTokens text tokens.list.items → IfOk result (IsProgramOf text) }
    ensures refused { (text : List ℕ) → AreTokens text tokens.list.items → tokens.end ≡ place_of (body_of text)
        → IfErr result (IsRefused text) }
{
    match parse(alloc, &tokens) {
        Ok(tree) => Ok(tree),
        Err(SyntaxFault::At(number)) => Err(Refused::Syntax(tokens, number)),
        Err(SyntaxFault::Memory) => Err(Refused::Memory),
    }
}

/// Returns the contracts of a text with their names resolved, and its tree.
pub(crate) fn resolved_of(alloc: Global, text: &[u8]) -> Result<(Resolved, Tree), Refused>
    ensures resolved { IfOk result (λ r. IsResolvedAs text.now r.0 r.1) }
    ensures refused { IfErr result (IsRefused text.now) }
{
    let tree = tree_of(alloc, text)?;
    match judge_names(alloc, &tree, text)? {
        Ok(resolved) => Ok((resolved, tree)),
        Err(mistakes) => Err(Refused::Names(tree, mistakes)),
    }
}

/// Returns the methods of a text with its contracts, which are not judged yet, and its tree, which they do not need.
pub(crate) fn methods_of(alloc: Global, text: &[u8]) -> Result<(Methods, Tree), Refused>
    ensures methods { IfOk result (λ m. AreNamed text.now (program_tree m.1) (program_model m.0)) }
    ensures refused { IfErr result (IsRefused text.now) }
{
    let (resolved, tree) = resolved_of(alloc, text)?;
    let methods = well_formed_methods(alloc, &tree, text, resolved)?;
    Ok((methods, tree))
}

/// Returns the program of these methods, unless one of their contracts breaks a condition.
pub(crate) fn judged_program(alloc: Global, methods: Methods) -> Result<Program, Refused>
    requires whole { All (λ c. IsWhole c.parts) (contracts_model methods) }
    requires few { length (contracts_model methods) < 2 ^ 32 }
    ensures program { IfOk result (IsSoundOne (program_model methods)) }
    ensures refused { (text : List ℕ) (items : List ItemTree) → AreNamed text items (program_model methods)
        → IfErr result (IsRefused text) }
{
    match judge_contracts(alloc, methods.contracts())? {
        Judgement::Broken(broken) => Err(Refused::Contracts(methods, broken)),
        Judgement::Sound(sounds) => {
            clean_methods_are_safe(&methods, &sounds);
            Ok(Program::new(alloc, methods, sounds)?)
        }
    }
}

/// Returns the program of a text. Its tree is dropped before the contracts are judged, so that these can use its memory.
pub(crate) fn program_of(alloc: Global, text: &[u8]) -> Result<Program, Refused>
    ensures program { IfOk result (IsProgramBefore text.now) }
    ensures refused { IfErr result (IsRefused text.now) }
{
    let (methods, tree) = methods_of(alloc, text)?;
    drop(tree);
    judged_program(alloc, methods)
}
