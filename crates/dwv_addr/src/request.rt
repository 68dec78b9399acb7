//! What is requested of a file, and how the request ends.

ghost use Rattle.std.specs.Prelude.{◌≡◌};

/// What is requested of a file.
#[derive(Clone, Copy, Debug, PartialEq, Eq)]
pub enum Request {
    /// Whether the file is sound: a line, or an object in JSON.
    Check { json: bool },
    /// The frames at addresses: lines, or an object in JSON for each.
    Find { json: bool },
}

impl Request {
    ghost use Rattle.dwv_addr.specs.Requests.{writes_json};

    /// Whether objects in JSON are written.
    pub fn json(self) -> bool
        ensures { result ≡ writes_json self }
    {
        match self {
            Request::Check { json } => json,
            Request::Find { json } => json,
        }
    }
}

/// How a request ends that has a result.
#[derive(Clone, Copy, Debug, PartialEq, Eq)]
pub enum Status {
    /// The file is sound, and each word or line in the place of an address is one.
    Sound,
    /// The file violates a rule.
    Fault,
    /// The file is sound, and some word or line is no address.
    BadAddress,
}

impl Status {
    ghost use Rattle.dwv_addr.specs.Endings.{status_code};

    /// The exit status of the program.
    pub fn code(self) -> u8
        ensures { result ≡ status_code self }
    {
        match self {
            Status::Sound => 0,
            Status::Fault => 1,
            Status::BadAddress => 2,
        }
    }
}
