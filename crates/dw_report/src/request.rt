//! What is requested of a file, and how the request ends.

ghost use Rattle.std.specs.Prelude.{◌≡◌};

/// What is requested of a file.
#[derive(Clone, Copy, Debug, PartialEq, Eq)]
pub enum Request {
    /// Whether the file is sound: a line, or an object in JSON.
    Check { json: bool },
    /// Each entry on a line: its offset, its tag, its name and its size.
    Show,
    /// The C declaration of each named type, or why it has none.
    Types,
    /// The size of the type whose entry starts at this offset of .debug_info.
    Size(u32),
}

/// How a request ends that has a result.
#[derive(Clone, Copy, Debug, PartialEq, Eq)]
pub enum Status {
    /// The file is sound.
    Sound,
    /// The file violates a rule.
    Fault,
    /// The file is sound, and no type's entry starts at the given offset.
    NotAType,
}

impl Status {
    ghost use Rattle.dw_report.specs.Reports.{status_code};

    /// The exit status of the program.
    pub fn code(self) -> u8
        ensures { result ≡ status_code self }
    {
        match self {
            Status::Sound => 0,
            Status::Fault => 1,
            Status::NotAType => 2,
        }
    }
}
