ghost use Rattle.std.specs.Prelude.{◌≡◌};

use crate::tickets::TableSeat;
use std::marker::Model;

/// A turn that a seat took: its caller has the book until it is given back.
pub struct Turn<B> {
    pub(crate) seat: TableSeat<B>,
    pub(crate) number: u8,
    pub(crate) left: u32,
    pub(crate) place: u32,
}

impl<B> Model for Turn<B> {
    ghost use Rattle.std.specs.Prelude.{◌≡◌, ◌+◌, [], ◌∷◌, None};
    ghost use Rattle.turn_gate.specs.Seats.{TurnValue, turned, known_in, sure_in, taken_in};

    ghost Value = { TurnValue };

    ghost view = { λ t. record {
      table = t.seat.table_id;
      start = t.seat.me.0.start;
      number = t.number;
      calls = t.seat.me.0.calls;
      place = t.place;
      taken = taken_in t.seat.me.0;
    } };

    ghost invariant = { λ t.
        (t.seat.me ≡ (
          turned t.number (known_in t.seat.me.0.notes) (sure_in t.seat.me.0.notes) t.seat.me.0.calls t.seat.me.0.start t.place
              (taken_in t.seat.me.0),
          (0, None) ∷ [],
        ))
        × (t.seat.me.0.calls + t.left ≡ t.seat.me.0.start.quota) };
}

impl<B> Turn<B> {
    /// The number of the turn's entry: how many entries are before it.
    pub fn place(&self) -> u32
        ensures { result ≡ self.now.place }
    {
        self.place
    }

    /// The number of the seat that has the turn.
    pub fn seat_no(&self) -> u8
        ensures { result ≡ self.now.number }
    {
        self.number
    }
}
