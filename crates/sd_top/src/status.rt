//! How a call of `top` ends.

ghost use Rattle.std.specs.Prelude.{◌≡◌};
ghost use Rattle.sd_top.specs.ExitNumber.{exit_number};

/// How a call of `top` ended. The program's exit status is its number.
#[derive(Clone, Copy, Debug, PartialEq, Eq)]
pub enum Status {
    /// 0: each line has its reply, and the report is written.
    Done,
    /// 1: a line breaks the grammar of scripts.
    BadLine,
    /// 2: the words are no command.
    Usage,
    /// 3: the source failed.
    ReadFault,
    /// 4: the sink failed under the report.
    WriteFault,
    /// 5: there was no memory.
    NoMemory,
    /// 6: the devices aren't sound.
    Damaged,
    /// 7: a device failed in the opening.
    Device,
}

impl Status {
    /// The number of the status.
    pub fn number(self) -> u8
        ensures { result ≡ exit_number self }
    {
        match self {
            Status::Done => 0,
            Status::BadLine => 1,
            Status::Usage => 2,
            Status::ReadFault => 3,
            Status::WriteFault => 4,
            Status::NoMemory => 5,
            Status::Damaged => 6,
            Status::Device => 7,
        }
    }
}
