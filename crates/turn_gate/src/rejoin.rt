ghost use Rattle.std.specs.Prelude.{◌≡◌, ◌<◌, [], length, map};
ghost use Rattle.std.specs.List.{All};
ghost use Rattle.turn_gate.specs.declared.phase.Phase.TheVariants.{Idle};
ghost use Rattle.turn_gate.specs.Told.{told, start_from};
ghost use Rattle.turn_gate.specs.Seats.{gate_of, IsSeatOf, noted};

use crate::steps::Rejoin;
use crate::tickets::{TableSeat, TicketTable};
use crate::{Lasting, Seat};

/// All notes of these seats together.
pub(crate) fn rejoin<B: Lasting>(tickets: &TicketTable<B>, mut seats: Vec<Seat<B>>) -> TableSeat<B>
    requires words { tickets.now.shared.table_id.words ≡ 3 }
    requires more { 0 < length seats.items }
    requires seats { All (IsSeatOf (gate_of tickets.now.shared.table_id
        (start_from (told B.history B.room B.mark B.sure) tickets.now.shared.key))) seats.items }
    ensures table { result.table_id ≡ tickets.now.shared.table_id }
    ensures notes { result.me.0.notes ≡ map noted seats.items }
    ensures idle { result.me.0.phase ≡ Idle }
    ensures bare { result.me.1 ≡ [] }
{
    let (mut all, _, _) = seats.pop().unwrap().into_parts();
    while let Some(next) = seats.pop() {
        let (place, _, _) = next.into_parts();
        tickets.shared.join_seat::<Rejoin>(&mut all, place);
    }
    all
}
