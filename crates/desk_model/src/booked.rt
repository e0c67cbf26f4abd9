/// What stands for a history, and has room for more entries.
pub trait Booked {
    ghost use Rattle.std.specs.Prelude.{ℕ, ◌≡◌, ◌≤◌, length};
    ghost use Rattle.desk_model.specs.histories.History.{History};
    ghost use Rattle.desk_model.specs.histories.Mark.{Mark};

    // How the desk was opened, and its entries in order.
    ghost history: { Self → History };

    // How many entries there can be: those that there are, and those that it has room for beside.
    ghost room: { Self → ℕ };

    // Which wall of windows shows its entries, if any does.
    ghost mark: { Self → Mark };

    /// How many entries there are.
    fn count(&self) -> u32
        ensures { result ≡ length (history self.now).entries };

    // There are no more entries than there can be.
    ghost within: { (book : Self) → length (history book).entries ≤ room book };
}
