//! Trees of expressions: one type for each level of operators, except that sums and terms share one.

use source::Span;

/// expression = conjunction { "||" conjunction } .
///
/// Most expressions are a sum, or an atom, which is a sum too. These are stored without the levels between, in a
/// quarter of the memory.
#[derive(Drop)]
#[cycle(expression)]
pub enum Expression {
    Sum(Sum),
    Joined(Box<Disjunction>),
}

/// conjunction { "||" conjunction }
#[derive(Drop)]
#[cycle(expression)]
pub struct Disjunction {
    pub first: Conjunction,
    pub others: Vec<Conjunction>,
}

/// conjunction = equality { "&&" equality } .
#[derive(Drop)]
#[cycle(expression)]
pub struct Conjunction {
    pub first: Equality,
    pub others: Vec<Equality>,
}

/// equality = relation { ( "==" | "!=" ) relation } .
#[derive(Drop)]
#[cycle(expression)]
pub struct Equality {
    pub first: Relation,
    pub others: Vec<EqualityStep>,
}

/// An operator and the relation after it.
#[derive(Drop)]
#[cycle(expression)]
pub struct EqualityStep {
    pub operator: EqualityOperator,
    pub relation: Relation,
}

/// "==" | "!="
#[derive(Clone, Copy, PartialEq, Eq)]
pub enum EqualityOperator {
    Equal,
    NotEqual,
}

/// relation = sum { ( "<" | "<=" | ">" | ">=" ) sum } .
#[derive(Drop)]
#[cycle(expression)]
pub struct Relation {
    pub first: Sum,
    pub others: Vec<RelationStep>,
}

/// An operator and the sum after it.
#[derive(Drop)]
#[cycle(expression)]
pub struct RelationStep {
    pub operator: RelationOperator,
    pub sum: Sum,
}

/// "<" | "<=" | ">" | ">="
#[derive(Clone, Copy, PartialEq, Eq)]
pub enum RelationOperator {
    Less,
    LessEqual,
    Greater,
    GreaterEqual,
}

/// sum = term { ( "+" | "-" ) term } . term = unary { "*" unary } .
///
/// All terms are stored as one sequence of factors, so that a term takes no memory of its own. A single unary takes
/// no sequence.
#[derive(Drop)]
#[cycle(expression)]
pub enum Sum {
    Unary(Unary),
    Factors(Box<Factors>),
}

/// unary ( "+" | "-" | "*" ) unary { ( "+" | "-" | "*" ) unary }
#[derive(Drop)]
#[cycle(expression)]
pub struct Factors {
    pub first: Unary,
    pub second: Factor,
    pub others: Vec<Factor>,
}

/// An operator and the unary after it.
#[derive(Drop)]
#[cycle(expression)]
pub struct Factor {
    pub operator: FactorOperator,
    pub unary: Unary,
}

/// "*" within a term, or "+" | "-" before the next one
#[derive(Clone, Copy)]
pub enum FactorOperator {
    Times,
    Sum(SumOperator),
}

/// "+" | "-"
#[derive(Clone, Copy, PartialEq, Eq)]
pub enum SumOperator {
    Plus,
    Minus(Span),
}

/// unary = { "!" | "-" } atom .
#[derive(Drop)]
#[cycle(expression)]
pub enum Unary {
    Atom(Atom),
    Prefixed(Box<Prefixed>),
}

/// { "!" | "-" } atom
#[derive(Drop)]
#[cycle(expression)]
pub struct Prefixed {
    pub prefixes: Vec<Prefix>,
    pub atom: Atom,
}

/// An operator before an atom, and its span.
#[derive(Clone, Copy)]
pub struct Prefix {
    pub operator: PrefixOperator,
    pub span: Span,
}

/// "!" | "-"
#[derive(Clone, Copy)]
pub enum PrefixOperator {
    Not,
    Negate,
}

/// atom = NUMBER | "true" | "false" | target | "(" expression ")" .
#[derive(Drop)]
#[cycle(expression)]
pub enum Atom {
    Number(Span),
    True(Span),
    False(Span),
    Target(Target),
    Parens { open: Span, inner: Box<Expression> },
}

/// target = ID | ID "." ID | ID "[" expression "]" .
///
/// Variants larger than a name are boxed, so that atoms, which are mostly names and numbers, stay small.
#[derive(Drop)]
#[cycle(expression)]
pub enum Target {
    Variable(Span),
    Field(Box<FieldTarget>),
    Element(Box<ElementTarget>),
}

/// ID "." ID
#[derive(Drop)]
pub struct FieldTarget {
    pub variable: Span,
    pub field: Span,
}

/// ID "[" expression "]"
#[derive(Drop)]
#[cycle(expression)]
pub struct ElementTarget {
    pub variable: Span,
    pub index: Expression,
}
