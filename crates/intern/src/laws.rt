//! Laws of words and ids. They hold for every table.

ghost use Rattle.std.specs.Prelude.{◌≡◌, ◌+◌, ◌*◌, ◌<◌, ℕ, List, length, slice_index};
ghost use Rattle.std.specs.Thread.{IsSync};
ghost use Rattle.atomic_table.specs.Table.{State};
ghost use Rattle.program.specs.declared.limits.TheConstants.{MOST_VARIABLES};
ghost use Rattle.rows.specs.Leaves.{IsNumbered};
ghost use Rattle.rows.specs.declared.row.Leaf.{Leaf};
ghost use Rattle.intern.specs.Codes.{code};
ghost use Rattle.intern.specs.Layout.{word};
ghost use Rattle.intern.specs.Rule.{Filled};
ghost use Rattle.intern.specs.Seats.{IsOfEmptyTable, IsSeatOf, IsStateFor, slots_of, view};
ghost use Rattle.intern.specs.Tokens.{HasNoRoom, IsFaithful, IsKnown, Names};
ghost use Rattle.intern.specs.View.{ViewGrows, IsInside, IsSoundView, LeadsDown, Knowledge, View};
ghost use Rattle.intern.specs.contracts.row_table.Rows as rows;
ghost use Rattle.intern.specs.declared.layout.TheConstants.{LEAVES, LENGTHS, MOST_LOOKS, MOST_SLOTS};
ghost use Rattle.intern.specs.declared.row_table.Rows.{Rows};
ghost use Rattle.intern.specs.declared.seat.Seat.{Seat};
ghost use Rattle.intern.specs.declared.token.Token.{Token};
ghost use Rattle.intern.specs.declared.token.Token.TheVariants.{At};

use crate::row_table::Rows;

/// The limits in digits, and the layout of a word.
pub fn limits()
    ensures slots { MOST_SLOTS ≡ 16777216 }
    ensures looks { MOST_LOOKS ≡ 64 }
    ensures lengths { MOST_VARIABLES < LENGTHS }
    ensures word { (n leaf tail : ℕ) → word n leaf tail ≡ n + 1024 * leaf + 1073741824 * tail }
{}

/// Each leaf has a number of its own, and a word has room for it.
pub fn each_leaf_has_a_number()
    ensures own { (a b : Leaf) → code a ≡ code b → a ≡ b }
    ensures room { (leaf : Leaf) → IsNumbered leaf → code leaf < LEAVES }
{}

/// What a seat knows: one word at a slot and one slot for a word, all within the limits and at slots of its table, and each tail one
/// shorter. So any two ids that it knows are equal exactly if their rows are.
pub fn what_a_seat_knows_is_sound()
    ensures sound { (seat : Seat) → IsSoundView (view seat) }
    ensures inside { (rows : Rows) (seat : Seat) → IsSeatOf rows seat → IsInside (slots_of rows) (view seat) }
    ensures faithful { (seat : Seat) → IsFaithful (view seat) }
{}

/// An id that a seat knows stays known, and names the same row.
pub fn an_id_names_its_row_for_good()
    ensures known { (v u : View) → ViewGrows v u → (token : Token) → IsKnown v token → IsKnown u token }
    ensures names { (v u : View) → ViewGrows v u → (token : Token) (row : List Leaf) → Names v token row → Names u token row }
{}

/// An id is known exactly if its words are: that of its slot and, while the length is above 1, that of the slot which the word names,
/// down to length 1.
pub fn an_id_is_a_walk()
    ensures walk { (v : View) (slot : ℕ) (row : List Leaf) → Names v (At slot) row → LeadsDown v (length row) slot }
    ensures known { (v : View) → IsSoundView v → (n slot : ℕ) → LeadsDown v n slot → IsKnown v (At slot) }
{}

/// A row for which a seat once knew no room never has room, whatever the seat learns.
pub fn a_full_table_stays_full()
    ensures { (rows : Rows) (v : View) (seat : Seat) → IsSeatOf rows seat → ViewGrows v (view seat)
        → (row : List Leaf) → HasNoRoom (slots_of rows) v row → HasNoRoom (slots_of rows) (view seat) row }
{}

/// If no other seat of a table was ever made, and its only seat knows no word, the table has none: each word is 0 in every state that
/// meets the rule.
pub fn an_empty_table_has_no_word()
    ensures { (slots : ℕ) (s : State (Unit {0}) Knowledge) (seat : Seat) → Filled slots s → IsStateFor seat s → IsOfEmptyTable seat
        → (i : ℕ) → slice_index s.words i ≡ 0 }
{}

/// Threads may share a table of rows by reference.
pub fn threads_share_rows()
    ensures { IsSync rows.the_row }
{
    shared::<Rows>();
}

/// Values of this type may be shared.
fn shared<T: Sync>()
    ensures { IsSync T.row }
{}
