//! Rows put into a table of words and read back, and threads that share one.

ghost use Rattle.std.specs.Prelude.{◌≡◌, IfOk, IfSome};
ghost use Rattle.intern.specs.Seats.{IsSeatOf};

use intern::laws::an_id_names_its_row_for_good;
use intern::{InternFault, InternNew, Rows, Seat, Token, word_of};
use rules::{Leaf, Row};
use std::alloc::Global;
use std::test::Fail;
use std::thread;
use std::thread::Threads;

/// Returns one of three leaves.
fn leaf(number: usize) -> Leaf {
    match number {
        0 => Leaf::Nothing,
        1 => Leaf::Block,
        _ => Leaf::CutOff,
    }
}

/// Returns one of the 81 rows of four such leaves.
fn row_of_four(alloc: Global, number: usize) -> Option<Row> {
    let leaves = vec![in alloc;
        leaf(number % 3),
        leaf(number / 3 % 3),
        leaf(number / 9 % 3),
        leaf(number / 27 % 3),
    ]
    .ok()?;
    Row::of(leaves)
}

/// Returns a row of two leaves.
fn row_of_two(alloc: Global, first: Leaf, second: Leaf) -> Result<Row, Fail> {
    match Row::of(vec![in alloc; first, second]?) {
        Some(row) => Ok(row),
        None => Err(Fail::from("no row")),
    }
}

/// Interns all 81 rows, in an order of its own: first row 0, then each row that is `by` further, in a ring.
fn intern_all(alloc: Global, rows: &Rows, mut seat: Seat, by: usize) -> Option<(Seat, Vec<Token>)>
    requires { IsSeatOf rows.now seat }
    ensures { IfSome result (λ r. IsSeatOf rows.now r.0) }
{
    let mut ids = vec![in alloc; Token::Empty; 81].ok()?;
    if by > 1000 || ids.len() != 81 {
        return None;
    }
    for k in 0..81 {
        let number = k * by % 81;
        let row = row_of_four(alloc, number)?;
        let Ok(token) = rows.intern(&mut seat, &row) else {
            return None;
        };
        if number < ids.len() {
            ids[number] = token;
        }
    }
    Some((seat, ids))
}

/// A seat that knows what two threads know, and the ids that each gave.
type OfTwo = (Seat, Vec<Token>, Vec<Token>);

/// Interns all rows in two threads, each in an order of its own.
fn in_two<R: Threads>(
    rt: &R,
    alloc: Global,
    rows: &Rows,
    seat: Seat,
    by: [usize; 2],
) -> Option<OfTwo>
    requires { IsSeatOf rows.now seat }
    ensures { IfSome result (λ r. IsSeatOf rows.now r.0) }
{
    let Ok((left, right)) = rows.split(seat) else {
        return None;
    };
    let [a, b] = by;
    let (left, right) = thread::join(
        rt,
        move || intern_all(alloc, rows, left, a),
        move || intern_all(alloc, rows, right, b),
    );
    let (left, first) = left?;
    let (right, second) = right?;
    let Ok(whole) = rows.join(left, right) else {
        return None;
    };
    Some((whole, first, second))
}

/// Returns the ids that four threads give.
fn in_four<R: Threads + Sync>(
    rt: &R,
    alloc: Global,
    rows: &Rows,
    seat: Seat,
) -> Option<[Vec<Token>; 4]>
    requires { IsSeatOf rows.now seat }
{
    let Ok((left, right)) = rows.split(seat) else {
        return None;
    };
    let (left, right) = thread::join(
        rt,
        move || in_two(rt, alloc, rows, left, [1, 2]),
        move || in_two(rt, alloc, rows, right, [40, 80]),
    );
    let (_, first, second) = left?;
    let (_, third, fourth) = right?;
    Some([first, second, third, fourth])
}

#[test]
fn words_are_as_written(rt: HostRuntime) {
    assert_eq!(rt; word_of(2, Leaf::Block, 3), 3_221_226_498);
    assert_eq!(rt; word_of(1, Leaf::State(499_999), 0), 512_002_049);
}

#[test]
fn a_full_table_refuses_and_keeps(rt: HostRuntime) -> Result<(), Fail> {
    let alloc = rt.alloc();
    let first = row_of_two(alloc, Leaf::Block, Leaf::Nothing)?;
    let second = row_of_two(alloc, Leaf::Nothing, Leaf::Nothing)?;
    let Ok((rows, mut seat)) = Rows::new(alloc, 2) else {
        return Err(Fail::from("no table"));
    };
    let Ok(token) = rows.intern(&mut seat, &first) else {
        return Err(Fail::from("no room"));
    };
    assert!(rt; rows.intern(&mut seat, &second) == Err(InternFault::Full));
    assert!(rt; rows.intern(&mut seat, &first) == Ok(token));
    an_id_names_its_row_for_good();
    let read = rows.row_of(alloc, &mut seat, token)?;
    assert!(rt; read == first);
    Ok(())
}

#[test]
fn seats_that_are_joined_agree(rt: HostRuntime) -> Result<(), Fail> {
    let alloc = rt.alloc();
    let row = row_of_two(alloc, Leaf::Block, Leaf::Nothing)?;
    let Ok((rows, seat)) = Rows::new(alloc, 4) else {
        return Err(Fail::from("no table"));
    };
    let Ok((mut left, mut right)) = rows.split(seat) else {
        return Err(Fail::from("not split"));
    };
    let (Ok(first), Ok(second)) = (rows.intern(&mut left, &row), rows.intern(&mut right, &row))
    else {
        return Err(Fail::from("no room"));
    };
    assert!(rt; first == second);
    let Ok(mut whole) = rows.join(left, right) else {
        return Err(Fail::from("not joined"));
    };
    an_id_names_its_row_for_good();
    let read = rows.row_of(alloc, &mut whole, second)?;
    assert!(rt; read == row);
    Ok(())
}

/// Returns a table of `slots` slots. If an allocation fails, it is asked for once more.
fn table(alloc: Global, slots: usize) -> Result<(Rows, Seat), InternNew>
    ensures { IfOk result (λ made. IsSeatOf made.0 made.1) }
{
    match Rows::new(alloc, slots) {
        Ok(made) => Ok(made),
        Err(InternNew::Memory) => Rows::new(alloc, slots),
        Err(InternNew::Slots) => Err(InternNew::Slots),
    }
}

#[test]
fn a_table_has_its_limits(rt: HostRuntime) {
    let alloc = rt.alloc();
    assert!(rt; matches!(Rows::new(alloc, 0), Err(InternNew::Slots)));
    assert!(rt; matches!(Rows::new(alloc, 16_777_217), Err(InternNew::Slots)));
    assert!(rt; table(alloc, 1).is_ok());
}

/// Runs with each allocation refused in turn: an id remains the same, and its row is read once more.
#[test]
fn a_row_is_read_again_where_memory_was_refused(rt: HostRuntime) -> Result<(), Fail> {
    let alloc = rt.alloc();
    let row = row_of_two(alloc, Leaf::CutOff, Leaf::Block)?;
    let Ok((rows, mut seat)) = table(alloc, 4) else {
        return Err(Fail::from("no table"));
    };
    let Ok(token) = rows.intern_near(&mut seat, &row) else {
        return Err(Fail::from("no room"));
    };
    an_id_names_its_row_for_good();
    let read = match rows.row_of(alloc, &mut seat, token) {
        Ok(read) => read,
        Err(_) => rows.row_of(alloc, &mut seat, token)?,
    };
    assert!(rt; read == row);
    let mut over = Row::empty(alloc);
    if rows.read(&mut seat, token, &mut over).is_err() {
        rows.read(&mut seat, token, &mut over)?;
    }
    assert!(rt; over == row);
    assert!(rt; rows.intern(&mut seat, &row) == Ok(token));
    Ok(())
}

#[test]
fn four_threads_give_one_token_to_a_row(rt: HostRuntime) -> Result<(), Fail> {
    let Ok((rows, seat)) = Rows::new(rt.alloc(), 4096) else {
        return Err(Fail::from("no table"));
    };
    let Some([first, second, third, fourth]) = in_four(&rt, rt.alloc(), &rows, seat) else {
        return Err(Fail::from("rows left out"));
    };
    assert!(rt; first == second && second == third && third == fourth);
    assert_eq!(rt; first.len(), 81);
    for i in 0..first.len() {
        for j in 0..i {
            assert!(rt; first.as_slice()[i] != first.as_slice()[j], "{i} and {j}");
        }
    }
    Ok(())
}
