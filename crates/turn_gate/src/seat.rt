ghost use Rattle.std.specs.Prelude.{◌≡◌, ◌+◌, []};
ghost use Rattle.turn_gate.specs.Seats.{seated};

use crate::tickets::TableSeat;
use std::marker::Model;

/// A seat at a gate, by which a caller takes turns. It has a number, from 1.
pub struct Seat<B> {
    pub(crate) place: TableSeat<B>,
    pub(crate) number: u8,
    pub(crate) left: u32,
}

impl<B> Model for Seat<B> {
    ghost use Rattle.std.specs.Prelude.{◌≡◌, ◌+◌, []};
    ghost use Rattle.turn_gate.specs.Seats.{SeatValue, seated, known_in, sure_in};

    ghost Value = { SeatValue };

    ghost view = { λ s. record {
      table = s.place.table_id;
      start = s.place.me.0.start;
      number = s.number;
      known = known_in s.place.me.0.notes;
      calls = s.place.me.0.calls;
      sure = sure_in s.place.me.0.notes;
    } };

    ghost invariant = { λ s.
        (s.place.me ≡ (
          seated s.number (known_in s.place.me.0.notes) (sure_in s.place.me.0.notes) s.place.me.0.calls
              s.place.me.0.start,
          [],
        ))
        × (s.place.me.0.calls + s.left ≡ s.place.me.0.start.quota) };
}

impl<B> Seat<B> {
    /// The seat's number, from 1.
    pub fn seat_no(&self) -> u8
        ensures { result ≡ self.now.number }
    {
        self.number
    }

    /// How many turns the seat has still to take.
    pub(crate) fn left(&self) -> u32
        ensures { self.now.calls + result ≡ self.now.start.quota }
    {
        self.left
    }

    // What it is made of.
    pub(crate) fn into_parts(self) -> (TableSeat<B>, u8, u32)
        ensures table { result.0.table_id ≡ self.table }
        ensures me { result.0.me ≡ (seated self.number self.known self.sure self.calls self.start, []) }
        ensures number { result.1 ≡ self.number }
        ensures left { self.calls + result.2 ≡ self.start.quota }
    {
        let Self {
            place,
            number,
            left,
        } = self;
        (place, number, left)
    }
}

impl<B> Drop for Seat<B> {
    fn drop(self) {
        let Self {
            place: _,
            number: _,
            left: _,
        } = self;
    }
}
