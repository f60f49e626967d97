//! How the program ended.

ghost use Rattle.std.specs.Prelude.{◌≡◌};
ghost use Rattle.kube_run.specs.Numbers.{number_of, line_of};

/// How the program ended.
#[derive(Clone, Copy, Debug, PartialEq, Eq)]
pub enum Status {
    /// All was written.
    Done,
    /// The words name nothing that the program does.
    Usage,
    /// What was read is no script.
    BadScript,
    /// A turn was refused, or an object that must become a reference has no name.
    BadRun,
    /// A read failed.
    ReadFault,
    /// A write failed.
    WriteFault,
    /// Memory could not be had.
    NoMemory,
}

impl Status {
    /// The number that a process ends with.
    pub fn number(self) -> u8
        ensures { result ≡ number_of self }
    {
        match self {
            Status::Done => 0,
            Status::Usage => 2,
            Status::BadScript => 3,
            Status::BadRun => 4,
            Status::ReadFault => 5,
            Status::WriteFault => 6,
            Status::NoMemory => 7,
        }
    }

    /// The line for standard error, where nothing on standard output says why the program ended so; nothing for the others.
    pub fn line(self) -> &'static str
        ensures { result.now ≡ line_of self }
    {
        match self {
            Status::ReadFault => "standard input could not be read",
            Status::WriteFault => "standard output could not be written",
            Status::NoMemory => "there was no memory",
            Status::Done | Status::Usage | Status::BadScript | Status::BadRun => "",
        }
    }
}
