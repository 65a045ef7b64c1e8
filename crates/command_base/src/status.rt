//! The exit status of a command.

ghost use Rattle.std.specs.Prelude.{◌≡◌};
ghost use Rattle.command_base.specs.Faults.{code_of};

/// The exit status.
#[derive(Clone, Copy, Debug, PartialEq, Eq)]
pub enum Status {
    /// All that was asked is done.
    Done,
    /// The command was refused by what it found.
    Refused,
    /// The words or the script aren't taken.
    Usage,
    /// A device failed.
    Device,
    /// Memory ran out.
    Memory,
}

impl Status {
    /// The number that the process ends with.
    pub fn code(self) -> u8
        ensures { result ≡ code_of self }
    {
        match self {
            Status::Done => 0,
            Status::Refused => 1,
            Status::Usage => 2,
            Status::Device => 3,
            Status::Memory => 4,
        }
    }
}
