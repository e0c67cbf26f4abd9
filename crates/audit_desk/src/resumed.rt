use fast_core::FastCore;

/// A desk that goes on behind a journal.
pub struct Resumed {
    /// The desk, as it stands behind the journal's last entry.
    pub core: FastCore,
    /// How many entries the journal has.
    pub count: u32,
}

impl Drop for Resumed {
    fn drop(self) {
        let Self { core: _, count: _ } = self;
    }
}
