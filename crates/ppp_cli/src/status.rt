/// How a run of the program ended.
#[derive(Clone, Copy, Debug, PartialEq, Eq)]
pub enum Status {
    /// All was done, and the input was read to its end.
    Ok,
    /// The words aren't those of a command.
    BadWords,
    /// The input couldn't be read.
    ReadFault,
    /// The input has more than 1,048,576 octets.
    TooLong,
    /// The settings are refused.
    BadConfig,
    /// The line of that number, from 1, is the first that is refused: of the script, or of the capture.
    BadLine(u32),
    /// The step of that number, from 1, would make a span wider than 255.
    Outstanding(u32),
    /// The output couldn't be written.
    WriteFault,
    /// Memory wanted.
    Memory,
}

impl Status {
    ghost use Rattle.std.specs.Prelude.{◌≡◌};
    ghost use Rattle.ppp_cli.specs.Status.{code_of};

    /// The number that the process exits with.
    pub fn code(&self) -> u8
        ensures { result ≡ code_of self.now }
    {
        match self {
            Status::Ok => 0,
            Status::BadWords => 2,
            Status::ReadFault => 3,
            Status::TooLong => 4,
            Status::BadConfig => 5,
            Status::BadLine(_) => 6,
            Status::Outstanding(_) => 7,
            Status::WriteFault => 9,
            Status::Memory => 10,
        }
    }
}
