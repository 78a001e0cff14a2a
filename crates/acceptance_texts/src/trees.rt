//! The names that the items of a tree declare, and which expressions are just an atom or a name.

use source::lex;
use std::test::Fail;
use syntax::parse;
use tree::{Definition, Expression, Plain, Statement, Tree, Value, atom_alone, name_alone};

/// Returns the expression that the first statement of a class assigns, if there is one.
fn value_in(tree: &Tree) -> Option<&Expression> {
    let Definition::Class(class) = &tree.items.first()?.definition else {
        return None;
    };
    let Statement::Plain(Plain::Assign(assign)) = class.methods.first()?.body.statements.first()?
    else {
        return None;
    };
    let Value::Expression(expression) = &assign.value else {
        return None;
    };
    Some(expression)
}

#[test]
fn names_of_items(rt: HostRuntime) -> Result<(), Fail> {
    let text = "contract C { out message M(); state S: ; } rep struct D { int n; } class K { }";
    let names = ["C", "D", "K"];
    let tokens = lex(rt.alloc(), text.as_bytes())?;
    let tree = parse(rt.alloc(), &tokens)?;
    assert_eq!(rt; tree.items.len(), names.len());
    for (index, item) in tree.items.iter().enumerate() {
        let name = item.definition.name().slice(text.as_bytes());
        assert!(rt; name == names[index].as_bytes(), "{}", names[index]);
    }
    Ok(())
}

#[test]
fn atoms_and_names_alone(rt: HostRuntime) -> Result<(), Fail> {
    for (value, is_atom, is_name) in [
        ("a", true, true),
        ("1", true, false),
        ("true", true, false),
        ("a.b", true, false),
        ("a[b]", true, false),
        ("(a)", true, false),
        ("!a", false, false),
        ("a * b", false, false),
        ("a + b", false, false),
        ("a < b", false, false),
        ("a == b", false, false),
        ("a && b", false, false),
        ("a || b", false, false),
    ] {
        let text = format!(in rt.alloc(); "class K {{ static void F() {{ v = {value}; }} }}")?;
        let tokens = lex(rt.alloc(), text.as_bytes())?;
        let tree = parse(rt.alloc(), &tokens)?;
        let Some(expression) = value_in(&tree) else {
            return Err(Fail::from("no expression"));
        };
        assert!(rt; atom_alone(expression).is_some() == is_atom, "{value}");
        let name = name_alone(expression);
        assert!(rt; name.is_some() == is_name, "{value}");
        if let Some(span) = name {
            assert!(rt; span.slice(text.as_bytes()) == value.as_bytes(), "{value}");
        }
    }
    Ok(())
}
