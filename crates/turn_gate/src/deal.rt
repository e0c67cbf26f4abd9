ghost use Rattle.std.specs.Prelude.{◌≡◌, ◌≤◌, [], vec_capacity};
ghost use Rattle.turn_gate.specs.Told.{told, start_from};
ghost use Rattle.turn_gate.specs.Steps.{first_view};
ghost use Rattle.turn_gate.specs.Seats.{gate_of, new_seats};

use crate::steps::Deal;
use crate::terms::Terms;
use crate::tickets::{TableSeat, TicketTable};
use crate::{Lasting, Seat};

/// The seats of a new gate, each with a note of its own. There is room for them.
pub(crate) fn deal<B: Lasting>(
    tickets: &TicketTable<B>,
    mut all: TableSeat<B>,
    terms: &Terms<B>,
    mut made: Vec<Seat<B>>,
) -> Vec<Seat<B>>
    requires key { tickets.now.shared.key ≡ terms.now }
    requires words { tickets.now.shared.table_id.words ≡ 3 }
    requires table { all.table_id ≡ tickets.now.shared.table_id }
    requires me { all.me ≡ (first_view (start_from (told B.history B.room B.mark B.sure) terms.now), []) }
    requires empty { made.items ≡ [] }
    requires room { terms.now.seats ≤ vec_capacity made }
    ensures { result.items
        ≡ new_seats (gate_of tickets.now.shared.table_id (start_from (told B.history B.room B.mark B.sure) terms.now))
        1 terms.now.seats }
{
    for i in 0..terms.seats {
        let place = tickets.shared.split_seat::<Deal>(&mut all);
        made.push_reserved(Seat {
            place,
            number: i + 1,
            left: terms.quota,
        });
    }
    made
}
