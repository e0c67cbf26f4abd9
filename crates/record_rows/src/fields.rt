//! The first fields of a record.
ghost use Rattle.std.specs.Prelude.{◌≡◌, ◌<◌, ◌∷◌, ◌++◌, [], length, map, take};
ghost use Rattle.csv.specs.Records.{fields_of};
ghost use Rattle.desk_base.specs.Parts.{parts_by};

use byte_marks::Marks;
use csv::ByteRecord;
use std::marker::Model;

/// How many fields of a record are given, at most. No command has as many.
pub const FIELD_LIMIT: usize = 12;

/// How many fields of a record are given, at most. It does nothing: its clause is the law.
pub fn the_most_fields_of_a_record()
    ensures { FIELD_LIMIT ≡ 12 }
{}

/// Fields, at most 12, which are put again and again in place of those that stand there. A contract sees them as a list.
#[derive(Drop)]
pub struct Fields<'a> {
    parts: [&'a [u8]; FIELD_LIMIT],
    count: usize,
}

impl<'a> Model for Fields<'a> {
    ghost use Rattle.std.specs.Prelude.{◌≤◌, ℕ, List, map, take};
    ghost use Rattle.record_rows.specs.declared.fields.TheConstants.{FIELD_LIMIT};

    ghost Value = { List (List ℕ) };

    ghost view = { λ fields. map (λ part. part.now) (take fields.count fields.parts) };

    ghost invariant = { λ fields. fields.count ≤ FIELD_LIMIT };
}

impl<'a> Fields<'a> {
    /// None.
    pub fn new() -> Fields<'a>
        ensures { result ≡ [] }
    {
        Fields {
            parts: [&[]; FIELD_LIMIT],
            count: 0,
        }
    }

    /// All of them.
    pub fn as_slice(&self) -> &[&'a [u8]]
        ensures { map (λ field. field.now) result.now ≡ self.now }
    {
        &self.parts[..self.count]
    }

    // Takes all of them away.
    fn clear(&mut self)
        ensures { self.new ≡ [] }
    {
        self.count = 0;
    }

    // Puts one more behind them.
    fn push(&mut self, field: &'a [u8])
        requires { length self.old < FIELD_LIMIT }
        ensures { self.new ≡ self.old ++ field.now ∷ [] }
    {
        self.parts[self.count] = field;
        self.count += 1;
    }
}

// Puts the fields of a record that was read, the first 12 of a longer one, in place of those that stand there.
pub(crate) fn fill_with_record<'a>(fields: &mut Fields<'a>, row: &'a ByteRecord)
    ensures { fields.new ≡ take FIELD_LIMIT (fields_of row.now) }
{
    fields.clear();
    for index in 0..FIELD_LIMIT {
        match row.get(index) {
            Some(field) => fields.push(field),
            None => return,
        }
    }
}

/// Puts the fields of a text between its commas, the first 12 of more, in place of those that stand there.
pub fn fill_with_line<'a>(fields: &mut Fields<'a>, text: &'a [u8])
    ensures { fields.new ≡ take FIELD_LIMIT (parts_by 44 text.now) }
{
    fields.clear();
    let mut commas = Marks::of(text, b',');
    let mut start = 0;
    for filled in 0..FIELD_LIMIT {
        let Some(at) = commas.next() else {
            fields.push(&text[start..]);
            return;
        };
        fields.push(&text[start..at]);
        start = at + 1;
    }
}
