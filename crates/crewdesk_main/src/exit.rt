//! How the program ends.
ghost use Rattle.std.specs.Prelude.{◌≡◌};
ghost use Rattle.std.specs.Process.{exit_status};
ghost use Rattle.desk_io.specs.Status.{code_of};

use desk_io::Status;
use std::process::ExitCode;

/// The exit code of a status, whose word is put on standard error where not all went well. No clause says what stands there.
pub fn exit<R: Eprint>(rt: &R, status: Status) -> ExitCode
    ensures { exit_status result ≡ code_of status }
{
    if status != Status::Fine {
        let _ = eprintln!(rt; "{}", status.word());
    }
    ExitCode::from(status.code())
}
