//! Values and expressions: each form once, and the first wrong token of others.

use super::answers;
use source::{Kind, Place, Span, Token, Tokens};
use std::alloc::{AllocError, Global};
use std::test::Fail;
use syntax::parse;
use tree::{
    Definition, Expression, Factor, FactorOperator, Plain, Statement, Sum, SumOperator, Tree,
    Unary, Value,
};

/// The words before a value.
const FRONT: &str = "class K { static void F ( ) { v = ";

const BEFORE: usize = 11;

/// The words of expressions. A word of one letter is a name.
const WORDS: [(&str, Kind); 31] = [
    ("class", Kind::Class),
    ("static", Kind::Static),
    ("void", Kind::Void),
    ("{", Kind::OpenBrace),
    ("}", Kind::CloseBrace),
    ("=", Kind::Equal),
    ("1", Kind::Number),
    ("true", Kind::True),
    ("false", Kind::False),
    ("new", Kind::New),
    ("ExHeap", Kind::ExHeap),
    ("int", Kind::Int),
    ("(", Kind::OpenParen),
    (")", Kind::CloseParen),
    ("[", Kind::OpenBracket),
    ("]", Kind::CloseBracket),
    (",", Kind::Comma),
    (".", Kind::Dot),
    ("||", Kind::OrOr),
    ("&&", Kind::AndAnd),
    ("==", Kind::EqualEqual),
    ("!=", Kind::NotEqual),
    ("<", Kind::Less),
    ("<=", Kind::LessEqual),
    (">", Kind::Greater),
    (">=", Kind::GreaterEqual),
    ("+", Kind::Plus),
    ("-", Kind::Minus),
    ("*", Kind::Star),
    ("!", Kind::Bang),
    (";", Kind::Semicolon),
];

/// Returns the tokens of these words.
fn tokens_of(alloc: Global, text: &str) -> Result<Tokens, AllocError> {
    let place = Place { line: 1, col: 1 };
    let mut list = Vec::new(alloc);
    for word in text.split_whitespace() {
        let mut kind = Kind::Name;
        for (name, other) in WORDS.iter() {
            if *name == word {
                kind = *other;
            }
        }
        let span = Span {
            start: 0,
            end: 0,
            place,
        };
        list.push(Token { kind, span })?;
    }
    Ok(Tokens { list, end: place })
}

/// Returns whether this value is correct in a method; with a number, whether its token of that number is the first wrong one.
fn value_answers(alloc: Global, value: &str, wanted: Option<usize>) -> Result<bool, AllocError> {
    let text = format!(in alloc; "{FRONT}{value}")?;
    let tokens = tokens_of(alloc, text.as_str())?;
    let wanted = match wanted {
        Some(number) => Some(number.saturating_add(BEFORE)),
        None => None,
    };
    Ok(answers(alloc, &tokens, wanted))
}

#[test]
fn values_that_are_read(rt: HostRuntime) -> Result<(), Fail> {
    for value in [
        "a",
        "1",
        "a . b",
        "a [ 1 ]",
        "- ! - true",
        "a + b * c - d == e != f && g || h",
        "a < b <= c > d >= e",
        "( a || b ) && ( false )",
        "a [ b [ 1 ] + 1 ] * ( c - 1 )",
        "f ( )",
        "f ( a )",
        "f . g ( a , b [ 1 ] , - 1 )",
        "new [ ExHeap ] s ( )",
        "new [ ExHeap ] s ( a , b [ 1 ] )",
        "new [ ExHeap ] int [ a + 1 ]",
    ] {
        let text = format!(in rt.alloc(); "{value} ; }} }}")?;
        assert!(rt; value_answers(rt.alloc(), text.as_str(), None)?, "{value}");
    }
    Ok(())
}

#[test]
fn one_field_and_a_call_only_as_a_whole(rt: HostRuntime) -> Result<(), Fail> {
    for (value, number) in [
        ("a . b . c", 3),
        ("a . b [ 1 ]", 3),
        ("a + f ( 1 )", 3),
        ("- f ( 1 )", 2),
        ("f ( 1 ) + 1", 4),
        ("a [ 1 ] ( )", 4),
        ("( f ) ( )", 3),
    ] {
        assert!(rt; value_answers(rt.alloc(), value, Some(number))?, "{value}");
    }
    Ok(())
}

#[test]
fn first_wrong_tokens_of_values(rt: HostRuntime) -> Result<(), Fail> {
    for (text, number) in [
        ("", 0),
        ("; a", 0),
        ("a +", 2),
        ("a + * b", 2),
        ("a && || b", 2),
        ("! ;", 1),
        ("a . 1", 2),
        ("a . ;", 2),
        ("a [ ]", 2),
        ("a [ 1", 3),
        ("a [ 1 )", 3),
        ("( a", 2),
        ("( )", 1),
        ("( f ( 1 ) )", 2),
        ("a [ f ( 1 ) ]", 3),
        ("f ( , )", 2),
        ("f ( a , )", 4),
        ("f ( a b )", 3),
        ("f . g ( a", 5),
        ("f ( g ( 1 ) )", 3),
        ("new ExHeap", 1),
        ("new [ ExHeap ] s ( a , )", 8),
        ("new [ ExHeap ] s [ a ]", 5),
        ("new [ ExHeap ] int ( )", 5),
        ("new [ ExHeap ] int [ ]", 6),
        ("new [ ExHeap ] 1", 4),
    ] {
        assert!(rt; value_answers(rt.alloc(), text, Some(number))?, "{text}");
    }
    Ok(())
}

/// Returns the expression that the first statement of the first method assigns.
fn first_assigned(tree: &Tree) -> Result<&Expression, Fail> {
    let Some(item) = tree.items.first() else {
        return Err(Fail::from("no item"));
    };
    let Definition::Class(class) = &item.definition else {
        return Err(Fail::from("no class"));
    };
    let Some(method) = class.methods.first() else {
        return Err(Fail::from("no method"));
    };
    let Some(Statement::Plain(Plain::Assign(assign))) = method.body.statements.first() else {
        return Err(Fail::from("no assignment"));
    };
    let Value::Expression(expression) = &assign.value else {
        return Err(Fail::from("no expression"));
    };
    Ok(expression)
}

fn is_plus(factor: &Factor) -> bool {
    matches!(factor.operator, FactorOperator::Sum(SumOperator::Plus))
}

#[test]
fn operators_by_level(rt: HostRuntime) -> Result<(), Fail> {
    let text = format!(in rt.alloc(); "{FRONT}a + b * c - d < e && f ; }} }}")?;
    let tokens = tokens_of(rt.alloc(), text.as_str())?;
    let tree = parse(rt.alloc(), &tokens)?;
    let Expression::Joined(read) = first_assigned(&tree)? else {
        return Err(Fail::from("no operators"));
    };
    assert_eq!(rt; read.others.len(), 0);
    assert_eq!(rt; read.first.others.len(), 1);
    let relation = &read.first.first.first;
    assert_eq!(rt; relation.others.len(), 1);
    let Sum::Factors(factors) = &relation.first else {
        return Err(Fail::from("no factors"));
    };
    assert!(rt; is_plus(&factors.second));
    assert_eq!(rt; factors.others.len(), 2);
    assert!(rt; matches!(factors.others[0].operator, FactorOperator::Times));
    assert!(rt;
        matches!(
            factors.others[1].operator,
            FactorOperator::Sum(SumOperator::Minus(_))
        )
    );
    Ok(())
}

#[test]
fn atom_with_no_operator(rt: HostRuntime) -> Result<(), Fail> {
    for (value, alone) in [
        ("a", true),
        ("( a + b )", true),
        ("! a", false),
        ("a * b", false),
    ] {
        let text = format!(in rt.alloc(); "{FRONT}{value} ; }} }}")?;
        let tokens = tokens_of(rt.alloc(), text.as_str())?;
        let tree = parse(rt.alloc(), &tokens)?;
        let kept_alone = matches!(
            first_assigned(&tree)?,
            Expression::Sum(Sum::Unary(Unary::Atom(_)))
        );
        assert_eq!(rt; kept_alone, alone);
    }
    Ok(())
}

#[test]
fn sum_with_no_operator_about_it(rt: HostRuntime) -> Result<(), Fail> {
    for (value, alone) in [
        ("a + b * c - d", true),
        ("a * b", true),
        ("! a", true),
        ("a", true),
        ("a + b < c", false),
        ("a == b + c", false),
        ("a && b", false),
        ("a + b || c", false),
    ] {
        let text = format!(in rt.alloc(); "{FRONT}{value} ; }} }}")?;
        let tokens = tokens_of(rt.alloc(), text.as_str())?;
        let tree = parse(rt.alloc(), &tokens)?;
        let kept_alone = matches!(first_assigned(&tree)?, Expression::Sum(_));
        assert_eq!(rt; kept_alone, alone);
    }
    Ok(())
}
