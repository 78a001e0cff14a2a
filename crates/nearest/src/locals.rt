//! The names that a method declares before a place, in the blocks around the place.

ghost use Rattle.std.specs.Prelude.{◌≡◌, ◌++◌, ◌∷◌, [], IfOk, OnOk, map};
ghost use Rattle.nearest.specs.Locals.{block_names, bound_names, case_names, cases_names};
ghost use Rattle.nearest.specs.Locals.{is_before, method_names, others_names};
ghost use Rattle.nearest.specs.Locals.{statement_names, statements_names, test_names, those_before};
ghost use Rattle.tree.specs.StatementTrees as trees;
ghost use Rattle.tree.specs.StatementTrees.{behind_case, block_tree, case_sequence, case_tree, if_tree, plain_tree};
ghost use Rattle.tree.specs.StatementTrees.{statement_sequence, statement_tree, switch_tree, test_tree};
ghost use Rattle.tree.specs.Trees.{method_tree};

use source::{Memory, Place, Span};
use std::alloc::Global;
use tree::{Bind, Block, Case, If, Method, Plain, Statement, Switch};

/// Returns the parameters and variables that a method declares before a place, in the blocks around the place, in
/// order. Returns `Memory` if an allocation was refused.
pub fn names_before(alloc: Global, method: &Method, place: Place) -> Result<Vec<Span>, Memory>
    ensures { IfOk result (λ names. names.items ≡ method_names place (method_tree method.now)) }
{
    let mut names = Vec::new(alloc);
    for param in &method.params {
        add_name(place, param.name, &mut names)?;
    }
    add_block(place, &method.body, &mut names)?;
    Ok(names)
}

/// Returns whether the first of two places comes before the second.
pub fn is_before(first: Place, second: Place) -> bool
    ensures { result ≡ is_before first second }
{
    first < second
}

/// Appends a name if it is before the place.
fn add_name(place: Place, name: Span, names: &mut Vec<Span>) -> Result<(), Memory>
    ensures { OnOk result (names.new.items ≡ names.old.items ++ those_before place (name ∷ [])) }
{
    if is_before(name.place, place) {
        names.push(name)?;
    }
    Ok(())
}

/// Appends those of the names that a case binds that are before the place.
fn add_binds(place: Place, binds: &[Bind], names: &mut Vec<Span>) -> Result<(), Memory>
    ensures { OnOk result (names.new.items
        ≡ names.old.items ++ those_before place (bound_names binds.now)) }
{
    for bind in binds {
        add_name(place, bind.name, names)?;
    }
    Ok(())
}

/// Appends the name that a plain statement declares, if it is a declaration before the place.
fn add_declared(place: Place, plain: &Plain, names: &mut Vec<Span>) -> Result<(), Memory>
    ensures { OnOk result (names.new.items
        ≡ names.old.items ++ statement_names place (trees.Plain (plain_tree plain.now))) }
{
    match plain {
        Plain::Declare(declare) => add_name(place, declare.name, names),
        _ => Ok(()),
    }
}

/// Appends what a block declares, if the place is before its closing brace.
#[cycle(bodies)]
fn add_block(place: Place, block: &Block, names: &mut Vec<Span>) -> Result<(), Memory>
    ensures { OnOk result (names.new.items
        ≡ names.old.items ++ block_names place (block_tree block.now)) }
{
    if !is_before(place, block.close.place) {
        return Ok(());
    }
    add_statements(place, &block.statements, names)
}

/// Appends what these statements declare.
#[cycle(bodies)]
fn add_statements(
    place: Place,
    statements: &[Statement],
    names: &mut Vec<Span>,
) -> Result<(), Memory>
    ensures { OnOk result (names.new.items ≡ names.old.items
        ++ statements_names place (statement_sequence (map statement_tree statements.now))) }
{
    for statement in statements {
        add_statement(place, statement, names)?;
    }
    Ok(())
}

/// Appends what a statement declares.
#[cycle(bodies)]
fn add_statement(place: Place, statement: &Statement, names: &mut Vec<Span>) -> Result<(), Memory>
    ensures { OnOk result (names.new.items
        ≡ names.old.items ++ statement_names place (statement_tree statement.now)) }
{
    match statement {
        Statement::Block(block) => add_block(place, block, names),
        Statement::Plain(plain) => add_declared(place, plain, names),
        Statement::If(branches) => add_branches(place, branches, names),
        Statement::While(test) => add_block(place, &test.body, names),
        Statement::Switch(switch) => add_cases(place, switch, names),
    }
}

/// Appends what the blocks of an `if` declare.
#[cycle(bodies)]
fn add_branches(place: Place, branches: &If, names: &mut Vec<Span>) -> Result<(), Memory>
    ensures { OnOk result (names.new.items ≡ names.old.items
        ++ (test_names place (if_tree branches.now).first
        ++ others_names place (if_tree branches.now).others)) }
{
    add_block(place, &branches.first.body, names)?;
    for test in &branches.others {
        add_block(place, &test.body, names)?;
    }
    match &branches.otherwise {
        Some(block) => add_block(place, block, names),
        None => Ok(()),
    }
}

/// Appends what the cases of a switch bind and declare.
#[cycle(bodies)]
fn add_cases(place: Place, switch: &Switch, names: &mut Vec<Span>) -> Result<(), Memory>
    ensures { OnOk result (names.new.items ≡ names.old.items
        ++ (case_names place (behind_case (case_sequence (switch_tree switch.now).others)
        (switch_tree switch.now).close.place) (switch_tree switch.now).first
        ++ cases_names place (switch_tree switch.now).close.place
        (case_sequence (switch_tree switch.now).others))) }
{
    let mut case = &switch.first;
    for next in &switch.others {
        add_case(place, next.word.place, case, names)?;
        case = next;
    }
    add_case(place, switch.close.place, case, names)
}

/// Appends what a case that ends at `end` binds and declares, if the place is before that.
#[cycle(bodies)]
fn add_case(place: Place, end: Place, case: &Case, names: &mut Vec<Span>) -> Result<(), Memory>
    ensures { OnOk result (names.new.items
        ≡ names.old.items ++ case_names place end (case_tree case.now)) }
{
    if !is_before(place, end) {
        return Ok(());
    }
    add_binds(place, &case.binds, names)?;
    add_statements(place, &case.statements, names)
}
