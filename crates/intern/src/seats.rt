//! Making a table with its first seat, and splitting and joining seats.

ghost use Rattle.std.specs.Prelude.{◌≡◌, ◌↔◌, IfErr, IfOk, IsOkAnd};
ghost use Rattle.intern.specs.declared.fault.InternNew.TheVariants.{Slots};
ghost use Rattle.intern.specs.Layout.{IsTableSize};
ghost use Rattle.intern.specs.Seats.{IsOfEmptyTable, IsSeatOf, slots_of, view};
ghost use Rattle.intern.specs.Tokens.{IsFaithful};
ghost use Rattle.intern.specs.View.{ViewGrows};

use crate::fault::InternNew;
use crate::layout::MOST_SLOTS;
use crate::row_table::Rows;
use crate::seat::Seat;
use crate::table::{Halves, Look};
use atomic_table::Table;
use source::Memory;
use std::alloc::Global;

impl Rows {
    /// Makes an empty table of `slots` slots, and its first seat.
    ///
    /// # Errors
    /// `Slots` if there are no slots, or more than `MOST_SLOTS`; `Memory` if out of memory.
    pub fn new(alloc: Global, slots: usize) -> Result<(Rows, Seat), InternNew>
        ensures seat { IfOk result (λ made. IsSeatOf made.0 made.1) }
        ensures empty { IfOk result (λ made. IsOfEmptyTable made.1) }
        ensures size { IfOk result (λ made. slots_of made.0 ≡ slots) }
        ensures range { IfOk result (λ made. IsTableSize slots) }
        ensures slots { IfErr result (λ fault. (fault ≡ Slots) ↔ (IsTableSize slots → ⊥)) }
    {
        if slots == 0 || slots > MOST_SLOTS {
            return Err(InternNew::Slots);
        }
        let words: Vec<u64> = match vec![in alloc; 0u64; slots] {
            Ok(words) => words,
            Err(_) => return Err(InternNew::Memory),
        };
        match Table::of_words(alloc, words.as_slice(), &slots) {
            Ok((table, inner)) => Ok((Rows { table }, Seat { inner })),
            Err(_) => Err(InternNew::Memory),
        }
    }

    /// Splits a seat into two, each of which knows all that the seat knew. Allocates nothing, and never returns `Memory`.
    #[tactic(auto, using(crate::proofs::IdLemmas::faithful))]
    pub fn split(&self, seat: Seat) -> Result<(Seat, Seat), (Seat, Memory)>
        requires { IsSeatOf self.now seat }
        ensures left { IsOkAnd result (λ halves. IsSeatOf self.now halves.0 × (view halves.0 ≡ view seat)) }
        ensures right { IsOkAnd result (λ halves. IsSeatOf self.now halves.1 × (view halves.1 ≡ view seat)) }
        ensures faithful { IsFaithful (view seat) }
    {
        let mut seat = seat;
        let inner = self.table.shared.split_seat::<Halves>(&mut seat.inner);
        Ok((seat, Seat { inner }))
    }

    /// Joins two seats into one that knows all that both knew. Any two ids that it knows, whichever seat got them, are equal exactly if
    /// their rows are. Allocates nothing, and never returns `Memory`.
    pub fn join(&self, a: Seat, b: Seat) -> Result<Seat, (Seat, Seat, Memory)>
        requires a { IsSeatOf self.now a }
        requires b { IsSeatOf self.now b }
        ensures seat { IsOkAnd result (λ whole. IsSeatOf self.now whole) }
        ensures a { IfOk result (λ whole. ViewGrows (view a) (view whole)) }
        ensures b { IfOk result (λ whole. ViewGrows (view b) (view whole)) }
        ensures faithful { IfOk result (λ whole. IsFaithful (view whole)) }
    {
        let Seat { inner: mut whole } = a;
        let Seat { inner: part } = b;
        self.table.shared.join_seat::<Halves>(&mut whole, part);
        self.table.shared.load::<Look>(&mut whole, 0);
        Ok(Seat { inner: whole })
    }
}
