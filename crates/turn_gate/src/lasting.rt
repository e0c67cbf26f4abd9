use desk_model::Booked;

/// A book that callers take turns with, of which the first entries are sure: whoever gives it back leaves no fewer of them sure than there
/// were.
pub trait Lasting: Booked {
    ghost use Rattle.std.specs.Prelude.{ℕ};

    // How many of its entries, the first, are sure.
    ghost sure: { Self → ℕ };

    /// Whether an entry may become sure by a later turn than its own. Then who comes to the gate draws a ticket at once, so that whoever has the
    /// turn may know of it.
    fn defers(&self) -> bool;
}
