//! The only record of a line.
ghost use Rattle.std.specs.Prelude.{◌≡◌, ℕ, List, ◌∷◌, [], IfOk, IfSome, IsNone};
ghost use Rattle.record_rows.specs.Rows.{records_of, row_fields};

use desk_base::NoMemory;
use record_rows::{Row, Rows};
use std::alloc::Global;

/// The line's record, as `csv` reads it; `None` where it has none, or more than one.
pub(crate) fn only_record(alloc: Global, line: &[u8]) -> Result<Option<Row>, NoMemory>
    ensures some { IfOk result (λ found. IfSome found (λ row. records_of line.now ≡ row_fields row ∷ [])) }
    ensures none { IfOk result (λ found. IsNone found → (fields : List (List ℕ)) → ¬ (records_of line.now ≡ fields ∷ [])) }
{
    let mut rows = Rows::of(alloc, line);
    let mut row = Row::new(alloc);
    if !rows.next(&mut row)? {
        return Ok(None);
    }
    let mut more = Row::new(alloc);
    if rows.next(&mut more)? {
        return Ok(None);
    }
    Ok(Some(row))
}
