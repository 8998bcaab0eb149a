// How a call ended.
ghost use Rattle.std.specs.Prelude.{◌≡◌};
ghost use Rattle.vsm_serve.specs.Statuses.{status_number};

/// How a call ended.
#[derive(Clone, Copy, Debug, PartialEq, Eq)]
pub enum Status {
    /// The input, where the command reads one, was read to its end, and the whole text was written.
    Ok = 0,
    /// The words are no command; the usage line was written.
    Usage = 1,
    /// The input was read to its end and is no script; a line that says why was written.
    Refused = 2,
    /// A read failed; nothing was written.
    ReadFault = 3,
    /// A write failed; a front of the text was written.
    WriteFault = 4,
    /// Memory ran out, before the first turn of the run; nothing was written.
    Memory = 5,
    /// The input has more than 1,048,576 bytes; nothing was written.
    TooLong = 6,
}

impl Status {
    /// The number of the status, which is the exit status of the process.
    pub fn number(self) -> u8
        ensures { result ≡ status_number self }
    {
        self as u8
    }
}
