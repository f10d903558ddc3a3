// How a call of the program ends.
ghost use Rattle.std.specs.Prelude.{◌≡◌};
ghost use Rattle.t1s_cli.specs.Answers.{exit_code_of};

/// How a call of the program ended.
#[derive(Clone, Copy, PartialEq, Eq, Debug)]
pub enum Status {
    /// The whole text was written.
    Done,
    /// The input was refused, which the last line says.
    Refused,
    /// The words are none that the program takes.
    Usage,
    /// The source failed.
    ReadFault,
    /// The sink failed.
    WriteFault,
    /// It was out of memory.
    Memory,
}

impl Status {
    /// The exit status of the program, 0 to 5.
    pub fn exit_code(self) -> u8
        ensures { result ≡ exit_code_of self }
    {
        match self {
            Status::Done => 0,
            Status::Refused => 1,
            Status::Usage => 2,
            Status::ReadFault => 3,
            Status::WriteFault => 4,
            Status::Memory => 5,
        }
    }
}
