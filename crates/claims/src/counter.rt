//! The counter of the places, and the seats to draw them with.
ghost use Rattle.std.specs.Prelude.{◌≡◌, ◌+◌, ◌-◌, ◌^◌, ◌<◌, ◌≤◌, [], ◌∷◌, ◌++◌};
ghost use Rattle.std.specs.Prelude.{length, All, IfOk, IfSome, IfNone, vec_len, IsPermutation};
ghost use Rattle.claims.specs.Rule.{TableHolds, IsDrawStep, below, draws, fresh, no_seat};

use crate::view::{Draws, Size};
use atomic_table::{Play, Split, Table, TableRule};
use sched_program::OutOfMemory;
use std::alloc::Global;
use std::marker::Model;

/// The rule of the claims, which holds between any two atomic steps.
struct EachPlaceOnce;

impl TableRule<(), Draws, Size> for EachPlaceOnce {
    ghost holds = { TableHolds };

    ghost first = { λ size. fresh size.seats size };
}

/// One place is drawn, or the seat finds none left.
struct Draw;

impl Play<(), Draws> for Draw {
    ghost then = { IsDrawStep };
}

/// One seat is cut off a seat that is several.
struct Cut;

impl Split<Draws> for Cut {
    ghost left = { λ seat. draws (seat.seats - 1) seat.places seat.spent seat.size };

    ghost right = { λ seat. fresh 1 seat.size };
}

/// Two seats become one, which drew what both drew.
struct Join;

impl atomic_table::Join<Draws> for Join {
    ghost both = { λ seat other. draws (seat.seats + other.seats) (seat.places ++ other.places)
        (seat.spent + other.spent) seat.size };

    ghost spent = { no_seat };
}

/// A seat of one counter, for one thread at a time to draw places with. Contracts see which counter it is of, and
/// what it drew.
#[derive(Drop)]
pub struct Seat {
    token: atomic_table::Seat<(), Draws>,
    is_spent: bool,
}

impl Model for Seat {
    ghost use Rattle.claims.specs.Values.{Seated};
    ghost use Rattle.std.specs.Prelude.{◌≡◌, [], if◌then◌else◌};

    ghost Value = { Seated };

    ghost view = { λ seat. record { counter = seat.token.table_id; drew = seat.token.me.0 } };

    ghost invariant = { λ seat. (seat.token.me.0.spent ≡ (if seat.is_spent then 1 else 0)) × (seat.token.me.0.seats ≡ 1)
        × (seat.token.me.1 ≡ []) };
}

/// A counter of the places of a list, from which threads draw places, each with a seat of its own. Contracts see which
/// counter it is, and its size.
#[derive(Drop)]
pub struct Claims {
    table: Table<(), Draws, Size, EachPlaceOnce, Global>,
    size: Size,
}

impl Model for Claims {
    ghost use Rattle.claims.specs.Values.{Counter};
    ghost use Rattle.std.specs.Prelude.{◌≡◌, ◌<◌, ◌+◌, ◌^◌};

    ghost Value = { Counter };

    ghost view = { λ claims. record { counter = claims.table.shared.table_id; size = claims.size } };

    ghost invariant = { λ claims. (claims.table.shared.key ≡ claims.size) × (claims.table.shared.table_id.words ≡ 1)
        × (claims.table.shared.table_id.slots ≡ 0) × (0 < claims.size.seats)
        × (claims.size.len + claims.size.seats < 2 ^ 64) };
}

/// How many places were drawn, and how many seats found none left.
#[derive(Clone, Copy, PartialEq, Eq, Debug)]
pub struct Claimed {
    pub drawn: usize,
    pub spent: usize,
}

// Made here and not in the loop of `new`, where a loop would lose what is known of its fields.
fn seated(token: atomic_table::Seat<(), Draws>) -> Seat
    requires view { (token.me.0.seats ≡ 1) × (token.me.0.spent ≡ 0) }
    requires bare { token.me.1 ≡ [] }
    ensures { (result.counter ≡ token.table_id) × (result.drew ≡ token.me.0) }
{
    Seat {
        token,
        is_spent: false,
    }
}

impl Claims {
    ghost use Rattle.claims.specs.Seats.{IsSeatOf, IsFresh, places_drawn, seats_spent, seats_held};

    /// A counter for a list of `len` places, and its `seats` seats, at least one, none of which drew a place yet. `len`
    /// and `seats` sum to at most the greatest `u64`. A refused growth returns `OutOfMemory`.
    pub fn new(alloc: Global, len: usize, seats: usize) -> Result<(Claims, Vec<Seat>), OutOfMemory>
        requires some_seat { 0 < seats }
        requires room { len + seats < 2 ^ 64 }
        ensures size { IfOk result (λ made. made.0.size ≡ record { len = len; seats = seats }) }
        ensures seats { IfOk result (λ made. vec_len made.1 ≡ seats) }
        ensures fresh { IfOk result (λ made. All (λ seat. IsSeatOf made.0 seat × IsFresh seat) made.1.items) }
    {
        let size = Size { len, seats };
        let mut made = Vec::with_capacity(alloc, seats)?;
        let (table, mut rest) = Table::of_words(alloc, &[0], &size)?;
        for _ in 1..seats {
            made.push_reserved(seated(table.shared.split_seat::<Cut>(&mut rest)));
        }
        made.push_reserved(seated(rest));
        Ok((Claims { table, size }, made))
    }

    /// Draws the lowest place that no seat drew yet, by one `fetch_add`; none if all are drawn. A seat that found none
    /// left gets none again, with no step. It takes no memory and waits for nobody.
    pub fn claim(&self, seat: &mut Seat) -> Option<usize>
        requires own { IsSeatOf self.now seat.old }
        ensures own { IsSeatOf self.now seat.new }
        ensures within { IfSome result (λ place. place < self.now.size.len) }
        ensures above { IfSome result (λ place. All (λ earlier. earlier < place) seat.old.drew.places) }
        ensures drawn { IfSome result (λ place. seat.new.drew
            ≡ draws 1 (seat.old.drew.places ++ place ∷ []) 0 self.now.size) }
        ensures none_left { IfNone result (seat.new.drew ≡ draws 1 seat.old.drew.places 1 self.now.size) }
        ensures spent { 0 < seat.old.drew.spent → (result ≡ None) × (seat.new ≡ seat.old) }
    {
        if seat.is_spent {
            return None;
        }
        let place = self.table.shared.fetch_add::<Draw>(&mut seat.token, 0, 1) as usize;
        if place < self.size.len {
            Some(place)
        } else {
            seat.is_spent = true;
            None
        }
    }

    // One seat of the table, which drew what all of these drew.
    fn gather(&self, mut seats: Vec<Seat>) -> atomic_table::Seat<(), Draws>
        requires own { All (λ seat. IsSeatOf self.now seat) seats.items }
        requires some_seat { 0 < seats_held seats.items }
        ensures own { result.table_id ≡ self.now.counter }
        ensures bare { result.me.1 ≡ [] }
        ensures held { result.me.0.seats ≡ seats_held seats.items }
        ensures spent { result.me.0.spent ≡ seats_spent seats.items }
        ensures places { IsPermutation (places_drawn seats.items) result.me.0.places }
    {
        let Some(first) = seats.pop() else {
            unreachable!()
        };
        let Seat {
            token: mut whole,
            is_spent: _,
        } = first;
        while let Some(seat) = seats.pop() {
            let Seat { token, is_spent: _ } = seat;
            self.table.shared.join_seat::<Join>(&mut whole, token);
        }
        whole
    }

    /// Takes all seats of the counter back, and counts the places that they drew and those of them that found none
    /// left. No place is in two of their lists, and if any seat found none left, each place is in one.
    pub fn close(self, seats: Vec<Seat>) -> Claimed
        requires own { All (λ seat. IsSeatOf self seat) seats.items }
        requires every { seats_held seats.items ≡ self.size.seats }
        ensures once { IsPermutation (below result.drawn) (places_drawn seats.items) }
        ensures drawn { result.drawn ≡ length (places_drawn seats.items) }
        ensures spent { result.spent ≡ seats_spent seats.items }
        ensures within { result.drawn ≤ self.size.len }
        ensures whole { 0 < result.spent → result.drawn ≡ self.size.len }
    {
        let whole = self.gather(seats);
        let Claims { table, size } = self;
        let closed = table.close_with(whole);
        let word = closed.word(0) as usize;
        closed.free();
        let drawn = word.min(size.len);
        Claimed {
            drawn,
            spent: word - drawn,
        }
    }
}
