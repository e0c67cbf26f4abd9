ghost use Rattle.std.specs.Prelude.{◌≡◌, ◌+◌, ◌≤◌, vec_len, IfOk, IsErrOf};
ghost use Rattle.desk_io.specs.Faults.{Rose};
ghost use Rattle.desk_io.specs.Input.{TookAll, TookMore, TookFront};

use crate::{InputFault, Source, Taking};
use std::alloc::Global;

// How many bytes are asked for at once, at most.
const PIECE: usize = 65_536;

/// Takes all that the source has, at most `limit` bytes.
/// It asks for one byte more than `limit` at most, and stops at the first fault.
pub fn take_all<S: Source>(
    alloc: Global,
    source: &mut S,
    limit: usize,
) -> Result<Vec<u8>, InputFault>
    ensures bounded { IfOk result (λ bytes. vec_len bytes ≤ limit) }
    ensures whole { IfOk result (λ bytes.
        TookAll (S.left source.old) (S.left source.new) bytes.items) }

    ensures read_fault { IsErrOf result InputFault.ReadFault
        → Rose (S.faults source.old) (S.faults source.new) }
    ensures no_fault { ¬ IsErrOf result InputFault.ReadFault
        → S.faults source.new ≡ S.faults source.old }
    ensures too_long { IsErrOf result InputFault.TooLong
        → TookMore (S.left source.old) (S.left source.new) limit }
    ensures not_too_long { ¬ IsErrOf result InputFault.TooLong
        → TookFront (S.left source.old) (S.left source.new) limit }

    ensures given { TookFront (S.left source.old) (S.left source.new) (limit + 1) }
    ensures faults_grow { S.faults source.old ≤ S.faults source.new }
{
    let mut bytes = Vec::new(alloc);
    let mut piece = [0; PIECE];
    loop {
        let spare = limit - bytes.len();
        let asked = spare.saturating_add(1).min(PIECE);
        match source.read(&mut piece[..asked]) {
            Taking::Got(count) => {
                if spare < count {
                    return Err(InputFault::TooLong);
                }
                bytes.extend_from_slice(&piece[..count])?;
            }
            Taking::End => return Ok(bytes),
            Taking::Failed => return Err(InputFault::ReadFault),
        }
    }
}
