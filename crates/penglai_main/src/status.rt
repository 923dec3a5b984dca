// What a call ends with.
ghost use Rattle.std.specs.Prelude.{◌≡◌};
ghost use Rattle.penglai_main.specs.Top.{status_code};

use toml::de::Error;

/// What a call ended with. The numbers are the program's exit statuses.
#[derive(Clone, Copy, PartialEq, Eq, Debug)]
pub enum Status {
    /// 0: all that was asked is done and written.
    Done,
    /// 1: the words are no command.
    BadWords,
    /// 2: a read failed.
    ReadFault,
    /// 3: a write failed.
    WriteFault,
    /// 4: the setup fails this rule first, at this item; of a text that isn't TOML, with the parser's cause.
    BadSetup {
        rule: u8,
        item: u32,
        cause: Option<Error>,
    },
    /// 5: memory ran out.
    NoMemory,
    /// 6: two unequal byte strings of one digest were met.
    Collision,
    /// 7: each actor with lines left waits for another to answer some.
    Stuck,
}

impl Status {
    /// The exit status of the program.
    pub fn code(self) -> u8
        ensures { result ≡ status_code self }
    {
        match self {
            Status::Done => 0,
            Status::BadWords => 1,
            Status::ReadFault => 2,
            Status::WriteFault => 3,
            Status::BadSetup { .. } => 4,
            Status::NoMemory => 5,
            Status::Collision => 6,
            Status::Stuck => 7,
        }
    }
}
