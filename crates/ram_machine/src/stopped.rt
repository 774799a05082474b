//! Why a run ends before its script does.
ghost use Rattle.std.specs.Prelude.{◌≡◌};
ghost use Rattle.ram_machine.specs.Replies.{stopped_by};

use ram_image::OpenFault;

/// Why a run ends before its script does.
#[derive(Clone, Copy, Debug, PartialEq, Eq)]
pub enum Stopped {
    /// The next line is none of the script language.
    NotInLanguage,
    /// The next line passes the limit of a line.
    LineTooLong,
    /// The next line passes the limit of the script.
    ScriptTooLong,
    /// The next line needs a disc, and there is none.
    NotADisc,
    /// The source failed, and counted it.
    SourceFault,
    /// The sink failed, and counted it.
    SinkFault,
    /// The image failed, and counted it.
    ImageFault,
}

impl From<OpenFault> for Stopped {
    ghost from_gives = { λ fault stopped. stopped ≡ stopped_by fault };

    fn from(fault: OpenFault) -> Stopped
        ensures { result ≡ stopped_by fault }
    {
        match fault {
            OpenFault::Header | OpenFault::Length { .. } => Stopped::NotADisc,
            OpenFault::Fault => Stopped::ImageFault,
        }
    }
}
