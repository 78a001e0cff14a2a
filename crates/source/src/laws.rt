//! Laws of texts, which hold whatever the lexer does.

ghost use Rattle.std.specs.Prelude.{◌≡◌, ◌⊎◌, ℕ, List, [], Contains};
ghost use Rattle.source.specs.Cutting.{Cuts};
ghost use Rattle.source.specs.Faults.{IsFault};
ghost use Rattle.source.specs.Tokens.{AreTokens};
ghost use Rattle.source.specs.declared.brackets.TheConstants.{MAX_DEPTH};
ghost use Rattle.source.specs.declared.fault.TextFault.{TextFault};
ghost use Rattle.source.specs.declared.kind.Kind.{Kind};
ghost use Rattle.source.specs.declared.kinds.TheConstants.{ALL_KINDS};
ghost use Rattle.source.specs.declared.lexer.TheConstants.{MAX_TEXT};
ghost use Rattle.source.specs.declared.numbers.TheConstants.{MAX_NUMBER};
ghost use Rattle.source.specs.declared.token.Token.{Token};

/// A text is cut in only one way, so its tokens are unique.
pub fn one_cutting()
    ensures pieces { (text : List ℕ) (ps qs : List (List ℕ))
        → Cuts ps text [] → Cuts qs text [] → ps ≡ qs }
    ensures tokens { (text : List ℕ) (a b : List Token)
        → AreTokens text a → AreTokens text b → a ≡ b }
{}

/// A text has at most one fault, and none if it has tokens.
pub fn one_fault()
    ensures one { (text : List ℕ) (f g : TextFault)
        → IsFault text f → IsFault text g → f ≡ g }
    ensures none { (text : List ℕ) (tokens : List Token) (f : TextFault)
        → AreTokens text tokens → IsFault text f → ⊥ }
{}

/// Each text has tokens or a fault, so there is always an answer other than `Memory`. The longest piece at a place
/// is found by trying all lengths, from that of the rest downwards; if none is a piece, that is a fault.
pub fn each_text_is_cut()
    ensures { (text : List ℕ)
        → ((tokens : List Token) × AreTokens text tokens) ⊎ ((fault : TextFault) × IsFault text fault) }
{}

/// Each kind of token is listed in `ALL_KINDS`.
pub fn each_kind_is_listed()
    ensures { (kind : Kind) → Contains ALL_KINDS kind }
{}

/// The limits as numbers.
pub fn limits()
    ensures text { MAX_TEXT ≡ 4194304 }
    ensures depth { MAX_DEPTH ≡ 100 }
    ensures number { MAX_NUMBER ≡ 2147483647 }
{}
