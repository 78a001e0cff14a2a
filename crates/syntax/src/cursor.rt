//! A position among tokens.

ghost use Rattle.std.specs.Prelude.{◌≡◌, ◌≢◌, ◌+◌, length, ◌↔◌, ◌∷◌, [], List, true, false, IsTrue, IsSome};
ghost use Rattle.source.specs.declared.kind.Kind.{Kind};
ghost use Rattle.tree.specs.Symbols.{Symbol, Fixed, Placed, Named, is_placed, kind_at, is_kind, symbols};
ghost use Rattle.tree.specs.Spelling.{word, token_at, name, optional, when};
ghost use Rattle.syntax.specs.Reading.{Takes, ReadsEnded, never, optional_at, when_at};

use source::{Kind, Span, Token};
use std::alloc::{AllocError, AllocFailed};
use std::marker::Model;

/// Why tokens have no tree.
#[derive(Drop)]
pub enum Stuck {
    /// No program continues with the next token of the cursor.
    Unexpected,
    Memory,
}

impl From<AllocError> for Stuck {
    ghost use Rattle.std.specs.Prelude.{◌≡◌};
    ghost use Rattle.syntax.specs.declared.cursor.Stuck.TheVariants.{Memory};

    ghost from_gives = { λ _ e. e ≡ Memory };

    fn from(_e: AllocError) -> Stuck {
        Stuck::Memory
    }
}

impl<T: Drop> From<AllocFailed<T>> for Stuck {
    ghost use Rattle.std.specs.Prelude.{◌≡◌};
    ghost use Rattle.syntax.specs.declared.cursor.Stuck.TheVariants.{Memory};

    ghost from_gives = { λ _ e. e ≡ Memory };

    fn from(_e: AllocFailed<T>) -> Stuck {
        Stuck::Memory
    }
}

/// The remaining tokens of a text.
#[derive(Drop)]
pub struct Cursor<'a> {
    tokens: &'a [Token],
    next: usize,
}

impl<'a> Model for Cursor<'a> {
    ghost use Rattle.std.specs.Prelude.{◌≤◌, List, length, drop};
    ghost use Rattle.tree.specs.Symbols.{Symbol, symbols};

    ghost Value = { List Symbol };

    ghost view = { λ c. symbols (drop c.next c.tokens.now) };

    ghost invariant = { λ c. c.next ≤ length c.tokens.now };
}

impl<'a> Cursor<'a> {
    /// Returns a cursor at the first of these tokens.
    pub fn new(tokens: &'a [Token]) -> Cursor<'a>
        ensures { result ≡ symbols tokens.now }
    {
        Cursor { tokens, next: 0 }
    }
}

impl Cursor<'_> {
    /// Returns the number of tokens left.
    pub fn tokens_left(&self) -> usize
        ensures { result + 1 ≡ length self.now }
    {
        self.tokens.len() - self.next
    }

    /// Returns the kind of the next token, or `None` if no token is left.
    pub fn peek(&self) -> Option<Kind>
        ensures kind { result ≡ kind_at self.now }
        ensures some { self.now ≢ [] }
    {
        if self.next < self.tokens.len() {
            Some(self.tokens[self.next].kind)
        } else {
            None
        }
    }

    /// Returns whether the next token is of this kind.
    pub fn is_next(&self, kind: Kind) -> bool
        ensures is { IsTrue result ↔ (kind_at self.now ≡ Some kind) }
        ensures some { self.now ≢ [] }
    {
        match self.peek() {
            Some(found) => found == kind,
            None => false,
        }
    }

    /// Takes a token of this kind, which must be neither a name nor a kind whose span the tree keeps. Returns
    /// `Unexpected` if it is not next.
    pub fn expect(&mut self, kind: Kind) -> Result<(), Stuck>
        requires no_name { kind ≢ Kind.Name }
        requires no_place { is_placed kind ≡ false }
        ensures { ReadsEnded (λ x. x) (λ _. word kind) self.old self.new result }
    {
        if self.is_next(kind) {
            self.skip();
            Ok(())
        } else {
            Err(Stuck::Unexpected)
        }
    }

    /// Takes a token of this kind if it is next, and returns whether it was. The kind must be neither a name nor
    /// one whose span the tree keeps.
    pub fn take_if(&mut self, kind: Kind) -> bool
        requires no_name { kind ≢ Kind.Name }
        requires no_place { is_placed kind ≡ false }
        ensures { Takes (when (word kind)) (when_at (is_kind kind)) self.old self.new result }
    {
        if self.is_next(kind) {
            self.skip();
            true
        } else {
            false
        }
    }

    /// Takes a token of this kind and returns its span, or `Unexpected` if it is not next.
    pub fn expect_span(&mut self, kind: Kind) -> Result<Span, Stuck>
        requires { is_placed kind ≡ true }
        ensures { ReadsEnded (λ x. x) (token_at kind) self.old self.new result }
    {
        if self.is_next(kind) {
            Ok(self.skip())
        } else {
            Err(Stuck::Unexpected)
        }
    }

    /// Takes a token of this kind if it is next, and returns its span.
    pub fn placed_if(&mut self, kind: Kind) -> Option<Span>
        requires { is_placed kind ≡ true }
        ensures { Takes (optional (token_at kind)) (optional_at (is_kind kind) (λ _. never)) self.old self.new result }
    {
        if self.is_next(kind) {
            Some(self.skip())
        } else {
            None
        }
    }

    /// Takes a name and returns its span, or `Unexpected` if none is next.
    pub fn name(&mut self) -> Result<Span, Stuck>
        ensures { ReadsEnded (λ x. x) name self.old self.new result }
    {
        if self.is_next(Kind::Name) {
            Ok(self.skip())
        } else {
            Err(Stuck::Unexpected)
        }
    }

    /// Takes the next token and returns its span.
    pub fn skip(&mut self) -> Span
        requires { IsSome (kind_at self.old) }
        ensures fixed { (kind : Kind) → kind ≢ Kind.Name → is_placed kind ≡ false → kind_at self.old ≡ Some kind
            → self.old ≡ Fixed kind ∷ self.new }
        ensures placed { (kind : Kind) → is_placed kind ≡ true → kind_at self.old ≡ Some kind → self.old ≡ Placed kind result ∷ self.new }
        ensures named { kind_at self.old ≡ Some Kind.Name → self.old ≡ Named result ∷ self.new }
    {
        let span = self.tokens[self.next].span;
        self.next += 1;
        span
    }
}
