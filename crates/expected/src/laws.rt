//! Laws of syntax errors and of words, which hold whatever the code does.

ghost use Rattle.std.specs.Prelude.{◌≡◌, ◌≢◌, ◌≤◌, ◌∷◌, [], ℕ, List, length, Some};
ghost use Rattle.source.specs.Pieces.{kind_of};
ghost use Rattle.source.specs.declared.kind.Kind.{Kind};
ghost use Rattle.source.specs.declared.kind.Kind.TheVariants.{Name, Number};
ghost use Rattle.source.specs.declared.token.Token.{Token};
ghost use Rattle.tree.specs.Programs.{program};
ghost use Rattle.syntax.specs.Parsing.{IsFirstWrong};
ghost use Rattle.expected.specs.KindWords.{word_of};
ghost use Rattle.expected.specs.declared.groups.Group.TheVariants as group;
ghost use Rattle.expected.specs.declared.groups.TheConstants.{GROUPS};
ghost use Rattle.expected.specs.declared.wording.TheConstants.{MAX_ITEMS};

/// The first wrong token of a text is one of its tokens, or the end after the last of them. So the number in `SyntaxFault::At` may be
/// passed on as a count of tokens.
pub fn fault_is_within()
    ensures { (tokens : List Token) (k : ℕ) → IsFirstWrong program tokens k → k ≤ length tokens }
{}

/// The most items of a text, in digits, and the groups in the order in which they are looked for.
pub fn items_and_groups()
    ensures items { MAX_ITEMS ≡ 8 }
    ensures groups { GROUPS ≡ group.Statement ∷ group.Value ∷ group.Expression ∷ group.Operator ∷ group.Scalar ∷ group.Access ∷ [] }
{}

/// The word of each kind, except names and numbers, is read as a token of that kind.
pub fn words_are_read_back()
    ensures { (kind : Kind) → kind ≢ Name → kind ≢ Number → kind_of (word_of kind) ≡ Some kind }
{}
