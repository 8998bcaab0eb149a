// Why a text is no file of cases.

/// Why a line can't stand where it does.
#[derive(Clone, Copy, Debug, PartialEq, Eq)]
pub enum Cause {
    /// Its first word is no mark.
    UnknownMark,
    /// A case or a part has no name, or one that another has.
    Name,
    /// A mark has words that it can't have.
    Words,
    /// No part before this line has this name.
    UnknownPart,
    /// The line stands in no case and no part.
    Outside,
    /// The mark can't stand in this place of a case or a part.
    Place,
    /// The case before this line doesn't say what it gives.
    NothingGiven,
    /// There is no line whose end could be left out.
    NoLine,
    /// The script is as long as it should become, or longer.
    TooLong,
}

impl Cause {
    /// The words that tell it.
    pub fn text(self) -> &'static [u8] {
        match self {
            Cause::UnknownMark => b"unknown mark",
            Cause::Name => b"no name, or one that is taken",
            Cause::Words => b"wrong words behind the mark",
            Cause::UnknownPart => b"no part before has this name",
            Cause::Outside => b"outside a case and a part",
            Cause::Place => b"not in this place",
            Cause::NothingGiven => b"the case before says not what it gives",
            Cause::NoLine => b"no line before",
            Cause::TooLong => b"the script is that long already",
        }
    }
}
