ghost use Rattle.std.specs.Prelude.{◌≡◌, ◌≤◌, true, false, IfSome, IfNone};
ghost use Rattle.desk_model.specs.histories.History.{is_done};
ghost use Rattle.desk_model.specs.declared.limits.TheConstants.{LAST_CALLER};
ghost use Rattle.desk_model.specs.statements.Entry.{entry_of};

use crate::{Cmd, Entry, Reply, Stated};
use desk_base::Minute;
use std::marker::Model;

/// An entry of the journal whose statement stands where it was read: who stated what, when the desk took it, and what it answered.
pub struct EntryRef<'a> {
    stated: &'a Stated,
    reply: Reply,
    moment: Minute,
    caller: u8,
}

impl Drop for EntryRef<'_> {
    fn drop(self) {
        let Self {
            stated: _,
            reply: _,
            moment: _,
            caller: _,
        } = self;
    }
}

impl<'a> Model for EntryRef<'a> {
    ghost use Rattle.std.specs.Prelude.{◌≤◌};
    ghost use Rattle.desk_model.specs.declared.limits.TheConstants.{LAST_CALLER};
    ghost use Rattle.desk_model.specs.statements.Entry.{EntryValue, entry_of};

    ghost Value = { EntryValue };

    ghost view = { λ e. entry_of e.caller e.stated.now e.moment e.reply };

    ghost invariant = { λ e. e.caller ≤ LAST_CALLER };
}

impl<'a> EntryRef<'a> {
    /// An entry of caller 0 to 63.
    #[inline]
    pub fn new(caller: u8, stated: &'a Stated, moment: Minute, reply: Reply) -> EntryRef<'a>
        requires { caller ≤ LAST_CALLER }
        ensures { result ≡ entry_of caller stated.now moment reply }
    {
        EntryRef {
            caller,
            stated,
            moment,
            reply,
        }
    }

    /// The caller, 0 to 63; the day file's commands are those of caller 0.
    pub fn caller(&self) -> u8
        ensures value { result ≡ self.now.caller }
        ensures range { result ≤ LAST_CALLER }
    {
        self.caller
    }

    /// What was stated, and when.
    pub fn stated(&self) -> &'a Stated
        ensures { result.now ≡ self.now.stated }
    {
        self.stated
    }

    /// The command, where it was accepted.
    pub fn accepted(&self) -> Option<&'a Cmd>
        ensures done { IfSome result (λ cmd.
            (is_done self.now.reply ≡ true) × (cmd.now ≡ self.now.stated.cmd)) }
        ensures refused { IfNone result (is_done self.now.reply ≡ false) }
    {
        match &self.reply {
            Reply::Done => Some(self.stated.cmd()),
            _ => None,
        }
    }

    /// When the desk took it.
    pub fn moment(&self) -> Minute
        ensures { result ≡ self.now.moment }
    {
        self.moment
    }

    /// What the desk answered.
    pub fn reply(&self) -> Reply
        ensures { result ≡ self.now.reply }
    {
        self.reply
    }

    /// The entry with a statement of its own.
    pub fn to_entry(&self) -> Entry
        ensures { result ≡ self.now }
    {
        Entry::new(self.caller, *self.stated, self.moment, self.reply)
    }
}
