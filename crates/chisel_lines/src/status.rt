ghost use Rattle.std.specs.Prelude.{◌≡◌};
ghost use Rattle.chisel_lines.specs.Statuses.{code_of, status_of};

/// How a command ended.
#[derive(Clone, Copy, Debug, PartialEq, Eq)]
pub enum Status {
    /// The work was done, and its answer is good.
    Done,
    /// A claim fails, there is no choice, or a certificate is refused.
    Refused,
    /// A bound lies inside the rounding.
    Undecided,
    /// The words are in no form.
    Words,
    /// A file's text is refused.
    Text,
    /// A named limit is reached.
    Limit,
    /// A fetch failed.
    ReadFault,
    /// A put failed.
    WriteFault,
    /// Want of memory.
    Memory,
}

impl Status {
    /// The program's exit status, from 0 to 8.
    pub fn code(self) -> u8
        ensures { result ≡ code_of self }
    {
        match self {
            Status::Done => 0,
            Status::Refused => 1,
            Status::Undecided => 2,
            Status::Words => 3,
            Status::Text => 4,
            Status::Limit => 5,
            Status::ReadFault => 6,
            Status::WriteFault => 7,
            Status::Memory => 8,
        }
    }
}

/// What an answer says of what was asked.
#[derive(Clone, Copy, Debug, PartialEq, Eq)]
pub enum Grade {
    Good,
    /// It isn't so: a claim fails, there is no choice, or a certificate is refused.
    Failing,
    /// It is inside the rounding.
    Undecided,
}

impl Grade {
    /// How a command with this answer ends.
    pub fn status(self) -> Status
        ensures { result ≡ status_of self }
    {
        match self {
            Grade::Good => Status::Done,
            Grade::Failing => Status::Refused,
            Grade::Undecided => Status::Undecided,
        }
    }
}
