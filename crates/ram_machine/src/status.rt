//! How a run ends, and the exit status that tells it.
ghost use Rattle.std.specs.Prelude.{◌≡◌};

/// How a run ended. Its number is the exit status of the program. (This project's own.)
#[derive(Clone, Copy, Debug, PartialEq, Eq)]
pub enum Status {
    /// The script was read to its end, and every line was answered; or the text that was asked for is written.
    Done = 0,
    /// A check found that the text that it read is not the image's certificate.
    Differs = 1,
    /// The words are none of the program's forms.
    Usage = 2,
    /// A line of the script is not in its language, or passes a limit.
    Script = 3,
    /// The opener or the image failed.
    ImageFault = 4,
    /// The source of the script failed.
    SourceFault = 5,
    /// The sink of the report failed. It goes before every other status but `Usage`.
    SinkFault = 6,
    /// There was no memory.
    NoMemory = 7,
    /// A line needs a disc: the image holds none, and no lawful press came before.
    NotADisc = 8,
}

impl Status {
    ghost use Rattle.ram_machine.specs.Statuses.{exit_number};

    /// The exit status of the program.
    ///
    /// # Clauses
    ///
    /// - The exit status: 0 Done, 2 Usage, 3 Script, 4 ImageFault, 5 SourceFault, 6 SinkFault, 7 NoMemory, 8 NotADisc
    ///   (`specs/Statuses.antt`).
    pub fn exit_number(self) -> u8
        ensures { result ≡ exit_number self }
    {
        self as u8
    }
}
