ghost use Rattle.std.specs.Prelude.{◌≡◌};
ghost use Rattle.commands.specs.Status.{code_of};

/// How a run ends.
#[derive(Clone, Copy, Debug, PartialEq, Eq)]
pub enum Status {
    /// Every assertion is proved.
    AllProved,
    /// Some assertion is not proved.
    SomeUnproved,
    /// An execution was followed, and no assertion failed in it.
    NoneFailed,
    /// An execution was followed, and ended at an assertion that failed.
    SomeFailed,
    /// The certificate file of a text was told.
    Certified,
    /// A certificate file passed.
    CheckPassed,
    /// An answer of a certificate file does not pass, answers are left over, or its report is
    /// another.
    CheckFailed,
    /// The bounds on a global's change were told.
    CostsTold,
    /// The text has no such global.
    NoGlobal,
    /// The help or the version was told.
    Told,
    /// The words ask for nothing.
    WrongWords,
    /// The text is refused.
    Refused,
    /// The source failed.
    SourceFailed,
    /// The sink failed.
    SinkFailed,
    WantOfMemory,
    /// The input is no JSON text, or has a wrong shape.
    WrongInput,
    /// The input is too long, or the output would be.
    TooLong,
}

impl Status {
    /// The number with which the process ends.
    pub fn code(self) -> u8
        ensures { result ≡ code_of self }
    {
        match self {
            Status::AllProved => 0,
            Status::SomeUnproved => 1,
            Status::NoneFailed => 0,
            Status::SomeFailed => 1,
            Status::Certified => 0,
            Status::CheckPassed => 0,
            Status::CheckFailed => 8,
            Status::CostsTold => 0,
            Status::NoGlobal => 10,
            Status::Told => 0,
            Status::WrongWords => 2,
            Status::Refused => 3,
            Status::SourceFailed => 4,
            Status::SinkFailed => 5,
            Status::WantOfMemory => 6,
            Status::WrongInput => 7,
            Status::TooLong => 9,
        }
    }
}
