ghost use Rattle.std.specs.Prelude.{◌≡◌};
ghost use Rattle.desk_io.specs.Status.{code_of, word_of, status_of};

use crate::InputFault;

/// How a run of the desk ended.
#[derive(Clone, Copy, Debug, PartialEq, Eq)]
pub enum Status {
    /// All went well.
    Fine,
    /// The words are none of the program's forms.
    Usage,
    /// The source had a fault.
    ReadFault,
    /// The sink had a fault, and has a front of the text.
    WriteFault,
    /// The input is longer than its limits.
    TooLong,
    /// Memory was wanting.
    NoMemory,
    /// The audited journal is not a legal one.
    AuditWrong,
    /// The input does not begin with a valid opening.
    NoOpening,
    /// A record or a line of the input is not in its grammar.
    Unreadable,
}

impl Status {
    /// The exit status of the program.
    pub fn code(self) -> u8
        ensures { result ≡ code_of self }
    {
        match self {
            Status::Fine => 0,
            Status::Usage => 2,
            Status::ReadFault => 3,
            Status::WriteFault => 4,
            Status::TooLong => 5,
            Status::NoMemory => 6,
            Status::AuditWrong => 7,
            Status::NoOpening => 8,
            Status::Unreadable => 9,
        }
    }

    /// The word for standard error. It is empty where all went well.
    pub fn word(self) -> &'static str
        ensures { result.now ≡ word_of self }
    {
        match self {
            Status::Fine => "",
            Status::Usage => "usage",
            Status::ReadFault => "read fault",
            Status::WriteFault => "write fault",
            Status::TooLong => "too long",
            Status::NoMemory => "no memory",
            Status::AuditWrong => "wrong",
            Status::NoOpening => "no opening",
            Status::Unreadable => "unreadable",
        }
    }
}

impl From<InputFault> for Status {
    ghost from_gives = { λ fault status. status ≡ status_of fault };

    fn from(fault: InputFault) -> Status {
        match fault {
            InputFault::ReadFault => Status::ReadFault,
            InputFault::TooLong => Status::TooLong,
            InputFault::NoMemory => Status::NoMemory,
        }
    }
}
