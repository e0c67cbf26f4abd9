ghost use Rattle.std.specs.Prelude.{◌≡◌};

use board_window::NewWall;
use call_history::CountedBook;
use desk_model::Opening;
use fast_core::FastCore;
use journal_device::Device;
use kept_book::KeptBook;

/// A desk on a device that has its journal so far, all of which is kept.
#[derive(Drop)]
pub struct Opened<D: Device> {
    /// How it was opened.
    pub opening: Opening,
    /// Its book.
    pub book: KeptBook<CountedBook<FastCore>, D>,
    /// The wall of windows that has its entries.
    pub wall: NewWall,
    /// How many calls each caller has, 1 to 5,000.
    pub quota: u32,
}

impl<D: Device> Opened<D> {
    /// The same, with several entries kept by one sync where they can be: for a device that is slow to sync.
    pub fn deferring(self, defers: bool) -> Opened<D>
        ensures { result ≡ self }
    {
        let Opened {
            opening,
            book,
            wall,
            quota,
        } = self;
        Opened {
            opening,
            book: book.deferring(defers),
            wall,
            quota,
        }
    }
}
