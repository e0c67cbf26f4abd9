use std::snapshot::Snapshot;

/// What a gate is made with.
pub(crate) struct Terms<B> {
    pub seats: u8,
    pub quota: u32,
    pub book: Snapshot<B>,
}

impl<B> Drop for Terms<B> {
    fn drop(self) {
        let Self {
            seats: _,
            quota: _,
            book: _,
        } = self;
    }
}
