ghost use Rattle.std.specs.Prelude.{◌≡◌};
ghost use Rattle.cm_outside.specs.Status.{exit_code};

/// How a run of the program ended.
#[derive(Clone, Copy, Debug, PartialEq, Eq)]
pub enum Status {
    /// The input was read to its end, and everything was answered.
    Ok,
    /// The words of the command line aren't accepted.
    Usage,
    /// A read of the input failed.
    ReadFault,
    /// A write of the output failed.
    WriteFault,
    /// A file could not be loaded or saved.
    StoreFault,
    /// Out of memory.
    NoMemory,
    /// The input has more bytes than the limit.
    TooMuch,
    /// The bytes of a file aren't a text that the editor takes.
    BadFile,
}

impl Status {
    /// The exit status of the program, from 0 to 8.
    pub fn code(self) -> u8
        ensures { result ≡ exit_code self }
    {
        match self {
            Status::Ok => 0,
            Status::Usage => 2,
            Status::ReadFault => 3,
            Status::WriteFault => 4,
            Status::StoreFault => 5,
            Status::NoMemory => 6,
            Status::TooMuch => 7,
            Status::BadFile => 8,
        }
    }
}
