//! What a command answers, and the text and the status of each answer.
ghost use Rattle.std.specs.Prelude.{◌≡◌};
ghost use Rattle.canvas_cli.specs.Texts.{status_of, text_of, read_fault_text, role_text, too_long_text};

use cv_base::Status;

/// Which of the texts that a command names.
#[derive(Clone, Copy, Debug, PartialEq, Eq)]
pub enum Role {
    Specification,
    Client,
}

impl Role {
    pub(crate) fn name(self) -> &'static [u8]
        ensures { result.now ≡ role_text self }
    {
        match self {
            Role::Specification => b"specification",
            Role::Client => b"client",
        }
    }
}

/// What a command answers before it is written.
#[derive(Debug, Drop)]
pub enum Answer {
    /// The words are no command.
    Usage,
    /// The text could not be loaded.
    ReadFault(Role),
    /// The text is longer than its limit.
    TooLong(Role),
    /// Something is wrong with the text: the line that says what, and where.
    Refused(Role, Vec<u8>),
    /// The client is not straight, and so is not certified so far.
    NotBuilt,
    /// Memory was wanted and not found.
    Memory,
    /// The specification in its canonical layout.
    Shown(Vec<u8>),
    /// The families, facts and updates with which the specification closes.
    Derived(Vec<u8>),
    /// The specification does not close: the line of why, and of the first question that stops it.
    Open(Vec<u8>),
    /// A question of the derivation has too many configurations: the line of it.
    ManyCases(Vec<u8>),
    /// The client breaks no clause.
    Certified,
    /// The client breaks a clause: the text of the alarm.
    Alarm(Vec<u8>),
    /// The run comes to its end: the text of that.
    Ends(Vec<u8>),
    /// The run finds no choice left at a test.
    Short,
    /// The run breaks a clause: the text of that.
    Fails(Vec<u8>),
    /// The run takes too many units.
    Long,
}

const USAGE: &[u8] =
    b"usage: canvas COMMAND\nshow SPEC\nderive SPEC\nrun SPEC CLIENT CHOICES\ncertify SPEC CLIENT\nsites SPEC CLIENT\nexplain SPEC CLIENT\nreport SPEC CLIENT\nproof SPEC CLIENT\ncheck SPEC CLIENT CERT\nload N\n";

impl Answer {
    pub(crate) fn status(&self) -> Status
        ensures { result ≡ status_of self.now }
    {
        match self {
            Answer::Usage => Status::Usage,
            Answer::ReadFault(_) => Status::ReadFault,
            Answer::TooLong(_) => Status::Limit,
            Answer::Refused(_, _) => Status::Refused,
            Answer::NotBuilt => Status::NotBuilt,
            Answer::Memory => Status::Memory,
            Answer::Shown(_) => Status::Fine,
            Answer::Derived(_) => Status::Fine,
            Answer::Open(_) => Status::Open,
            Answer::ManyCases(_) => Status::Limit,
            Answer::Certified => Status::Fine,
            Answer::Alarm(_) => Status::Alarm,
            Answer::Ends(_) => Status::Fine,
            Answer::Short => Status::Fine,
            Answer::Fails(_) => Status::Alarm,
            Answer::Long => Status::Limit,
        }
    }

    /// The whole text.
    pub(crate) fn text(&self) -> &[u8]
        ensures { result.now ≡ text_of self.now }
    {
        match self {
            Answer::Usage => USAGE,
            Answer::ReadFault(role) => read_fault_line(*role),
            Answer::TooLong(role) => too_long_line(*role),
            Answer::Refused(_, line) => line.as_slice(),
            Answer::NotBuilt => b"not built client\n",
            Answer::Memory => b"memory\n",
            Answer::Shown(layout) => layout.as_slice(),
            Answer::Derived(text) => text.as_slice(),
            Answer::Open(line) => line.as_slice(),
            Answer::ManyCases(line) => line.as_slice(),
            Answer::Certified => b"certified\n",
            Answer::Alarm(text) => text.as_slice(),
            Answer::Ends(text) => text.as_slice(),
            Answer::Short => b"short\n",
            Answer::Fails(text) => text.as_slice(),
            Answer::Long => b"limit steps 10000000\n",
        }
    }
}

fn read_fault_line(role: Role) -> &'static [u8]
    ensures { result.now ≡ read_fault_text role }
{
    match role {
        Role::Specification => b"read fault specification\n",
        Role::Client => b"read fault client\n",
    }
}

fn too_long_line(role: Role) -> &'static [u8]
    ensures { result.now ≡ too_long_text role }
{
    match role {
        Role::Specification => b"limit specification bytes 65536\n",
        Role::Client => b"limit client bytes 1048576\n",
    }
}
