//! Laws of the grammar, which hold whatever the code does.

ghost use Rattle.std.specs.Prelude.{◌≡◌, ℕ, List};
ghost use Rattle.source.specs.declared.token.Token.{Token};
ghost use Rattle.tree.specs.Trees.{ItemTree};
ghost use Rattle.tree.specs.Programs.{program};
ghost use Rattle.tree.specs.Spelled.{Spells};
ghost use Rattle.syntax.specs.Parsing.{IsFirstWrong};

/// No two trees have the same spelling.
pub fn one_tree_a_spelling()
    ensures { (s t : List ItemTree) → program s ≡ program t → s ≡ t }
{}

/// The tokens of a text are the spelling of a program, or one of them, or the end, is the first wrong one. So there
/// is always an answer other than `Memory`.
pub fn tokens_are_parsed()
    ensures { (tokens : List Token)
        → ((items : List ItemTree) → Spells program items tokens → ⊥)
        → ((k : ℕ) → IsFirstWrong program tokens k → ⊥) → ⊥ }
{}
