ghost use Rattle.std.specs.Prelude.{◌≡◌, [], take, IfSome};
ghost use Rattle.desk_base.specs.Parts.{parts_by};
ghost use Rattle.record_rows.specs.declared.fields.TheConstants.{FIELD_LIMIT};

use crate::fields::{Fields, fill_with_line, fill_with_record};
use csv::ByteRecord;
use std::alloc::Global;

/// A record, for `Rows` to read into.
pub struct Row<'a> {
    // The line that it is, where that is cut at its commas.
    pub(crate) line: Option<&'a [u8]>,
    // Else what `csv` read.
    pub(crate) read: ByteRecord,
}

impl Drop for Row<'_> {
    fn drop(self) {
        let Self { line: _, read: _ } = self;
    }
}

impl<'a> Row<'a> {
    ghost use Rattle.record_rows.specs.Rows.{row_fields};

    /// A record of no fields, which takes no memory yet.
    pub fn new(alloc: Global) -> Row<'a>
        ensures { row_fields result ≡ [] }
    {
        Row {
            line: None,
            read: ByteRecord::new(alloc),
        }
    }

    /// The record's bytes, where its fields are the parts of them between commas; `None` where `csv` read it.
    pub fn line(&self) -> Option<&'a [u8]>
        ensures { IfSome result (λ line. row_fields self.now ≡ parts_by 44 line.now) }
    {
        self.line
    }

    /// Puts the record's fields, the first 12 of more, in place of those that stand there.
    pub fn fill_fields<'r>(&'r self, fields: &mut Fields<'r>)
        ensures { fields.new ≡ take FIELD_LIMIT (row_fields self.now) }
    {
        match self.line {
            Some(line) => fill_with_line(fields, line),
            None => fill_with_record(fields, &self.read),
        }
    }
}
