//! How a run of the program ends, and the code of that.
ghost use Rattle.std.specs.Prelude.{◌≡◌};
ghost use Rattle.cv_base.specs.Code.{code_of};

/// How a run of the program ended.
#[derive(Clone, Copy, Debug, PartialEq, Eq)]
pub enum Status {
    /// The command did what it is for, and found nothing wrong.
    Fine,
    /// A requires clause can be false.
    Alarm,
    /// The certificate is not accepted.
    Rejected,
    /// A text is faulty.
    Refused,
    /// The words of the command line are no command.
    Usage,
    /// A text could not be loaded.
    ReadFault,
    /// Not all of the answer could be written.
    WriteFault,
    /// Memory was wanted and not found.
    Memory,
    /// The derivation does not close.
    Open,
    /// A stated limit is passed.
    Limit,
    /// The text is in a form that this version does not take yet.
    NotBuilt,
}

impl Status {
    /// The status with which the program ends.
    pub fn code(self) -> u8
        ensures { result ≡ code_of self }
    {
        match self {
            Status::Fine => 0,
            Status::Alarm | Status::Rejected => 1,
            Status::Refused => 2,
            Status::Usage => 3,
            Status::ReadFault => 4,
            Status::WriteFault => 5,
            Status::Memory => 6,
            Status::Open => 7,
            Status::Limit => 8,
            Status::NotBuilt => 9,
        }
    }
}
