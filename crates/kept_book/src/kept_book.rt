ghost use Rattle.std.specs.Prelude.{◌≡◌, ◌↔◌, ◌≤◌, ◌<◌, ◌^◌, [], length, true, false, IfOk, IfErr, IsErr};
ghost use Rattle.std.specs.Bool.{OnTrue, OnFalse};
ghost use Rattle.std.specs.Io.KnownBytes.{append_known};
ghost use Rattle.desk_io.specs.Faults.{Rose};
ghost use Rattle.desk_model.specs.declared.limits.TheConstants.{LAST_CALLER};
ghost use Rattle.desk_model.specs.histories.History.{history_of, with_entry};
ghost use Rattle.desk_model.specs.histories.Legal.{IsLegal, next};
ghost use Rattle.desk_model.specs.texts.Journal.{entry_line, journal};
ghost use Rattle.journal_device.specs.Device.{AddsSome, Begins, Tells};
ghost use Rattle.kept_book.specs.Kept.{KeepsFront};

use call_history::{Full, Steps};
use desk_model::{Booked, Entry, Opening, Stated};
use journal_device::Device;
use line_writer::{LineText, fill_with_entry, write_opening};
use record_rows::LastMinute;
use std::marker::Model;

/// A book whose journal is on a device: the line of each entry is appended as it is answered, and the lines of all are kept once the device is
/// synced. After the first fault of the device nothing is appended and synced any more, and no later entry is told as kept.
#[derive(Drop)]
pub struct KeptBook<B: Steps + Drop, D: Device> {
    book: B,
    device: D,
    sound: bool,
    // Whether the device is slow to sync.
    defers: bool,
    // The line at hand, and the minutes that the lines before it named.
    line: LineText,
    stated: LastMinute,
    moment: LastMinute,
}

impl<B: Steps + Drop, D: Device> Model for KeptBook<B, D> {
    ghost use Rattle.kept_book.specs.Kept.{KeptValue, Stands};

    ghost Value = { KeptValue B D };

    ghost view = { λ k. record { book = k.book; device = k.device; sound = k.sound } };

    ghost invariant = { λ k. ∥ Stands k.sound (D.written k.device) (D.kept k.device) (B.history k.book) ∥₁ };
}

impl<B: Steps + Drop, D: Device> KeptBook<B, D> {
    /// A book whose journal so far was written to the device, all of it, and is kept.
    pub fn new(book: B, device: D) -> KeptBook<B, D>
        requires written { Tells (D.written device) (journal (B.history book)) }
        requires kept { Tells (D.kept device) (journal (B.history book)) }
        ensures { result ≡ record { book = book; device = device; sound = true } }
    {
        KeptBook {
            book,
            device,
            sound: true,
            defers: false,
            line: LineText::new(),
            stated: LastMinute::new(),
            moment: LastMinute::new(),
        }
    }

    /// A book that was opened so and has these entries, whose journal so far is written to a device that has nothing yet, all of it, and kept
    /// there; where the device has a fault it is given back.
    pub fn begin(
        opening: &Opening,
        entries: &[Entry],
        book: B,
        device: D,
    ) -> Result<KeptBook<B, D>, D>
        requires opening { opening.now ≡ (B.history book).opening }
        requires entries { entries.now ≡ (B.history book).entries }
        requires empty { Tells (D.written device) [] }
        ensures book { IfOk result (λ kept. (kept.book ≡ book) × (kept.sound ≡ true)) }
        ensures kept { IfOk result (λ kept. Tells (D.kept kept.device) (journal (B.history book))) }
        ensures no_fault { IfOk result (λ kept. D.faults kept.device ≡ D.faults device) }
        ensures cause { IfErr result (λ after. Rose (D.faults device) (D.faults after)) }
    {
        let mut device = device;
        if put_history(&mut device, opening, entries) {
            return Ok(KeptBook::new(book, device));
        }
        Err(device)
    }

    /// The same, with several entries kept by one sync where they can be: for a device that is slow to sync.
    pub fn deferring(self, defers: bool) -> KeptBook<B, D>
        ensures { result ≡ self }
    {
        let mut deferring = self;
        deferring.defers = defers;
        deferring
    }

    /// The book whose journal is kept.
    pub fn book(&self) -> &B
        ensures { result.now ≡ self.now.book }
    {
        &self.book
    }

    /// The book and the device.
    pub fn into_parts(self) -> (B, D)
        ensures { result ≡ (self.book, self.device) }
    {
        let KeptBook {
            book,
            device,
            sound: _,
            defers: _,
            line: _,
            stated: _,
            moment: _,
        } = self;
        (book, device)
    }

    /// Whether the device had no fault. What is kept is the journal of a front of the book's entries at all times.
    pub fn is_sound(&self) -> bool
        ensures sound { result ≡ self.now.sound }
        ensures front { ∥ KeepsFront (D.kept self.now.device) (B.history self.now.book) ∥₁ }
    {
        self.sound
    }
}

// Appends the journal of a history that was opened so and has these entries to a device that has nothing yet, and has it kept; and says
// whether that was done.
fn put_history<D: Device>(device: &mut D, opening: &Opening, entries: &[Entry]) -> bool
    requires { Tells (D.written device.old) [] }
    ensures written { OnTrue result (Tells (D.written device.new) (journal (history_of opening.now entries.now))) }
    ensures kept { OnTrue result (D.kept device.new ≡ D.written device.new) }
    ensures cause { OnFalse result (Rose (D.faults device.old) (D.faults device.new)) }
    ensures no_fault { OnTrue result (D.faults device.new ≡ D.faults device.old) }
{
    if !device.append(write_opening(opening).as_slice()) {
        return false;
    }
    let mut line = LineText::new();
    let mut stated = LastMinute::new();
    let mut moment = LastMinute::new();
    for entry in entries {
        fill_with_entry(&mut line, &mut stated, &mut moment, entry);
        if !device.append(line.as_slice()) {
            return false;
        }
    }
    D::sync(device)
}

// Appends a line to a device that had no fault so far, and says whether that was done. One that had a fault is asked nothing.
fn append_line<D: Device>(device: &mut D, sound: bool, line: &[u8]) -> bool
    ensures done { OnTrue result (D.written device.new ≡ append_known (D.written device.old) line.now) }
    ensures front { OnFalse result (AddsSome (D.written device.old) (D.written device.new) line.now) }
    ensures kept { D.kept device.new ≡ D.kept device.old }
    ensures unsound { OnFalse sound (result ≡ false) }
    ensures stays { OnFalse sound (device.new ≡ device.old) }
    ensures faults_grow { D.faults device.old ≤ D.faults device.new }
    ensures cause { OnTrue sound (OnFalse result (Rose (D.faults device.old) (D.faults device.new))) }
    ensures no_fault { OnTrue result (D.faults device.new ≡ D.faults device.old) }
{
    if !sound {
        return false;
    }
    device.append(line)
}

// Has all that was appended to a device kept that had no fault so far, and says whether that was done. One that had a fault is asked nothing.
fn sync_all<D: Device>(device: &mut D, sound: bool) -> bool
    ensures kept { OnTrue result (D.kept device.new ≡ D.written device.old) }
    ensures unkept { OnFalse result (D.kept device.new ≡ D.kept device.old) }
    ensures written { D.written device.new ≡ D.written device.old }
    ensures grows { Begins (D.kept device.old) (D.kept device.new) }
    ensures unsound { OnFalse sound (result ≡ false) }
    ensures stays { OnFalse sound (device.new ≡ device.old) }
    ensures faults_grow { D.faults device.old ≤ D.faults device.new }
    ensures cause { OnTrue sound (OnFalse result (Rose (D.faults device.old) (D.faults device.new))) }
    ensures no_fault { OnTrue result (D.faults device.new ≡ D.faults device.old) }
{
    if !sound {
        return false;
    }
    device.sync()
}

impl<B: Steps + Drop, D: Device> Booked for KeptBook<B, D> {
    ghost history = { λ k. B.history k.book };

    ghost room = { λ k. B.room k.book };

    ghost mark = { λ k. B.mark k.book };

    fn count(&self) -> u32 {
        self.book.count()
    }

    ghost within = { λ k. B.within k.book };
}

impl<B: Steps + Drop, D: Device> Steps for KeptBook<B, D> {
    ghost use Rattle.std.specs.Prelude.{false};

    ghost kept = { λ k. D.kept k.device };

    ghost always = { false };

    fn step(&mut self, caller: u8, stated: Stated) -> Result<Entry, Full>
        requires { caller ≤ LAST_CALLER }
        ensures answer { IfOk result (λ entry. entry ≡ next (B.history self.old.book) caller stated) }
        ensures history { IfOk result (λ entry. B.history self.new.book ≡ with_entry (B.history self.old.book) entry) }
        ensures full { IsErr result ↔ (length (B.history self.old.book).entries ≡ B.room self.old.book) }
        ensures same { IsErr result → B.history self.new.book ≡ B.history self.old.book }
        ensures room { B.room self.new.book ≡ B.room self.old.book }
        ensures mark { B.mark self.new.book ≡ B.mark self.old.book }
        ensures unkept { D.kept self.new.device ≡ D.kept self.old.device }

        // The entry's line is appended, or the device has a fault; after one it is asked nothing any more.
        ensures written { IfOk result (λ entry. OnTrue self.new.sound
            (D.written self.new.device ≡ append_known (D.written self.old.device) (entry_line entry))) }
        ensures stays { OnFalse self.old.sound ((self.new.device ≡ self.old.device) × (self.new.sound ≡ self.old.sound)) }
        ensures cause { OnTrue self.old.sound (IfOk result (λ entry.
            OnFalse self.new.sound (Rose (D.faults self.old.device) (D.faults self.new.device)))) }
    {
        let entry = self.book.step(caller, stated)?;
        fill_with_entry(&mut self.line, &mut self.stated, &mut self.moment, &entry);
        self.sound = append_line(&mut self.device, self.sound, self.line.as_slice());
        Ok(entry)
    }

    fn keep(&mut self) -> bool
        ensures book { self.new.book ≡ self.old.book }
        ensures kept { OnTrue result (Tells (D.kept self.new.device) (journal (B.history self.new.book))) }
        ensures unkept { OnFalse result (D.kept self.new.device ≡ D.kept self.old.device) }
        ensures grows { Begins (D.kept self.old.device) (D.kept self.new.device) }

        // All is told as kept exactly where the device has had no fault, and after a fault the device is asked nothing any more.
        ensures sound { result ≡ self.new.sound }
        ensures stays { OnFalse self.old.sound ((self.new.device ≡ self.old.device) × (self.new.sound ≡ self.old.sound)) }
        ensures cause { OnTrue self.old.sound (OnFalse result (Rose (D.faults self.old.device) (D.faults self.new.device))) }
    {
        self.sound = sync_all(&mut self.device, self.sound);
        self.sound
    }

    fn defers(&self) -> bool {
        self.defers
    }

    fn is_legal(&self) {
        self.book.is_legal();
    }
}
