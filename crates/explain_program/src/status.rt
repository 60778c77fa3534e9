// How the program ends.

/// How the program ends.
#[derive(Clone, Copy, Debug, PartialEq, Eq, Drop)]
pub enum Status {
    Ok,
    Usage,
    /// An entry is not explained, or a folder is not read to its end.
    Unexplained,
    /// A folder or a segment cannot be read.
    ReadFault,
    WriteFault,
    OutOfMemory,
    /// The script would have more lines than a script can have.
    TooLong,
}

impl Status {
    ghost use Rattle.std.specs.Prelude.{◌≡◌};
    ghost use Rattle.explain_program.specs.Statuses.{code_of};

    /// The number that the process ends with.
    pub fn code(self) -> u8
        ensures { result ≡ code_of self }
    {
        match self {
            Status::Ok => 0,
            Status::Usage => 2,
            Status::Unexplained => 3,
            Status::ReadFault => 4,
            Status::WriteFault => 5,
            Status::OutOfMemory => 6,
            Status::TooLong => 7,
        }
    }
}
