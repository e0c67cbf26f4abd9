//! How callers wait: at the door until the gate is free, with a ticket until it is served, and behind their turn until an entry is sure.
ghost use Rattle.std.specs.Prelude.{◌≡◌};

use crate::Lasting;
use crate::tickets::TicketTable;
use std::array;
use std::hint::spin_loop;
use std::sync::Wait;
use std::sync::atomic::AtomicU64;
use std::sync::atomic::Ordering::SeqCst;

// There is a bell for each caller with a ticket, since a gate has fewer seats.
const BELLS: usize = 64;

// How often a caller looks before it sleeps: at the door, and with a ticket.
const LOOKS_AT_THE_DOOR: u32 = 10;

const LOOKS: u32 = 100;

// How often a caller at the door is woken to find others before it that came later. Then it draws a ticket all the same.
const LOST_WAKES: u32 = 2;

/// Where callers sleep, at the door, with a ticket, or behind their turn. It holds nothing that the gate's rule speaks of.
#[derive(Drop)]
pub(crate) struct Waiters {
    // 1 where a caller without a ticket may sleep
    door: AtomicU64,
    // whether callers wait there, or draw a ticket at once
    has_door: bool,
    // by its ticket, 1 where a caller sleeps, or is about to
    bells: [AtomicU64; BELLS],
    // by its seat, 1 where a caller sleeps until more entries are sure, or is about to
    beds: [AtomicU64; BELLS],
    // 1 where no more will be
    stopped: AtomicU64,
}

// Nobody has the turn or waits for it.
#[inline]
fn is_free<B: Lasting>(tickets: &TicketTable<B>) -> bool
    requires { tickets.now.shared.table_id.words ≡ 3 }
{
    tickets.shared.peek(0) == tickets.shared.peek(1)
}

impl Waiters {
    pub(crate) fn new(has_door: bool) -> Waiters {
        Waiters {
            door: AtomicU64::new(0),
            has_door,
            bells: array::from_fn(|_| AtomicU64::new(0)),
            beds: array::from_fn(|_| AtomicU64::new(0)),
            stopped: AtomicU64::new(0),
        }
    }

    fn bell(&self, ticket: u64) -> &AtomicU64 {
        &self.bells[(ticket % BELLS as u64) as usize]
    }

    /// Waits for a while where others have tickets, so that one who comes again at once need not hand over each time.
    #[inline]
    pub(crate) fn come<R: Wait, B: Lasting>(&self, rt: &R, tickets: &TicketTable<B>)
        requires { tickets.now.shared.table_id.words ≡ 3 }
    {
        if self.has_door && !is_free(tickets) {
            self.wait_at_the_door(rt, tickets);
        }
    }

    // A sign that a caller sleeps is set before its last look, and again by each caller who slept, since others may sleep too.
    #[cold]
    fn wait_at_the_door<R: Wait, B: Lasting>(&self, rt: &R, tickets: &TicketTable<B>)
        requires { tickets.now.shared.table_id.words ≡ 3 }
    {
        for _ in 0..LOOKS_AT_THE_DOOR {
            spin_loop();
            if is_free(tickets) {
                return;
            }
        }
        for _ in 0..LOST_WAKES {
            self.door.store(1, SeqCst);
            if is_free(tickets) {
                return;
            }
            self.door.park(rt, 1);
        }
        self.door.store(1, SeqCst);
    }

    /// Pauses after so many looks that found another ticket served.
    #[cold]
    pub(crate) fn pause<R: Wait, B: Lasting>(
        &self,
        rt: &R,
        tickets: &TicketTable<B>,
        ticket: u64,
        looks: u32,
    )
        requires { tickets.now.shared.table_id.words ≡ 3 }
    {
        if looks < LOOKS {
            spin_loop();
            return;
        }
        let bell = self.bell(ticket);
        bell.store(1, SeqCst);
        if tickets.shared.peek(1) != ticket {
            bell.park(rt, 1);
        }
        bell.store(0, SeqCst);
    }

    /// After this ticket was served: wakes the caller with the next, or where there is none a caller at the door.
    #[inline]
    pub(crate) fn go<B: Lasting>(&self, tickets: &TicketTable<B>, ticket: u64)
        requires { tickets.now.shared.table_id.words ≡ 3 }
    {
        let next = ticket.wrapping_add(1);
        if tickets.shared.peek(0) == next {
            ring(&self.door);
        } else {
            ring(self.bell(next));
        }
    }

    fn bed(&self, seat: u8) -> &AtomicU64 {
        &self.beds[usize::from(seat) % BELLS]
    }

    /// Whether no more entries will be sure.
    pub(crate) fn is_stopped(&self) -> bool {
        self.stopped.load(SeqCst) != 0
    }

    /// Rests after so many looks that found no more than `place` entries sure.
    #[cold]
    pub(crate) fn rest<R: Wait, B: Lasting>(
        &self,
        rt: &R,
        tickets: &TicketTable<B>,
        seat: u8,
        place: u32,
        looks: u32,
    )
        requires { tickets.now.shared.table_id.words ≡ 3 }
    {
        if looks < LOOKS {
            spin_loop();
            return;
        }
        let bed = self.bed(seat);
        bed.store(1, SeqCst);
        if tickets.shared.peek(2) <= u64::from(place) && !self.is_stopped() {
            bed.park(rt, 1);
        }
        bed.store(0, SeqCst);
    }

    /// Wakes all who rest.
    pub(crate) fn wake(&self) {
        for bed in &self.beds {
            ring(bed);
        }
    }

    /// No more entries will be sure.
    #[cold]
    pub(crate) fn stop(&self) {
        self.stopped.store(1, SeqCst);
        self.wake();
    }
}

#[inline]
fn ring(bell: &AtomicU64) {
    if bell.load(SeqCst) != 0 {
        bell.store(0, SeqCst);
        bell.wake_one();
    }
}
