//! How the program ends.

ghost use Rattle.std.specs.Prelude.{◌≡◌};
ghost use Rattle.trusty_main.specs.Answers.{exit_status};

/// How the program ends.
#[derive(Clone, Copy, PartialEq, Eq, Debug)]
pub enum Status {
    /// The run is whole, and its report was written; or the report that was checked is that of a history.
    Done,
    /// The scene has a fault.
    InputRefused,
    /// The words are no command.
    Usage,
    /// A read failed.
    ReadFault,
    /// A write failed.
    WriteFault,
    /// Want of memory.
    NoMemory,
    /// The input has more bytes than a scene may have.
    InputTooLong,
    /// A turn of the list is not lawful, or the list ends before the run.
    TurnRefused,
    /// The report that was checked is that of no history.
    HistoryRefused,
    /// The run is not whole after as many entries as a run may have.
    RunTooLong,
}

impl Status {
    /// The status of the process.
    pub fn code(self) -> u8
        ensures { result ≡ exit_status self }
    {
        match self {
            Status::Done => 0,
            Status::InputRefused => 1,
            Status::Usage => 2,
            Status::ReadFault => 3,
            Status::WriteFault => 4,
            Status::NoMemory => 5,
            Status::InputTooLong => 6,
            Status::TurnRefused => 7,
            Status::HistoryRefused => 8,
            Status::RunTooLong => 9,
        }
    }
}
