use crate::Lasting;
use crate::terms::Terms;
use crate::view::View;
use atomic_table::{Seat, Table, TableRule};
use std::alloc::Global;

/// The gate's rule.
pub(crate) struct Tickets;

impl<B: Lasting> TableRule<Option<B>, View, Terms<B>> for Tickets {
    ghost use Rattle.turn_gate.specs.Told.{told, start_from};
    ghost use Rattle.turn_gate.specs.Gate.{Gated};
    ghost use Rattle.turn_gate.specs.Steps.{first_view};

    ghost holds = { λ k. Gated (told B.history B.room B.mark B.sure) (start_from (told B.history B.room B.mark B.sure) k) };

    ghost first = { λ k. first_view (start_from (told B.history B.room B.mark B.sure) k) };
}

/// Its table: word 0 is the next ticket, word 1 the ticket that is served, word 2 how many entries are told to be sure, and the slot has the
/// book.
pub(crate) type TicketTable<B> = Table<Option<B>, View, Terms<B>, Tickets, Global>;

/// A seat of that table, with what its caller knows.
pub(crate) type TableSeat<B> = Seat<Option<B>, View>;
