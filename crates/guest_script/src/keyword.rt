// The kinds of lines, and where each can stand.
ghost use Rattle.std.specs.Prelude.{◌≡◌, find};
ghost use Rattle.guest_script.specs.Keywords.{spelling, is_spelled, keyword_of, stands};

/// The first word of a line.
#[derive(Clone, Copy, Debug, PartialEq, Eq)]
pub enum Keyword {
    Vsm,
    Vps,
    Pages,
    Budget,
    Started,
    Mask,
    Word,
    Program,
    Set,
    Get,
    Load,
    Store,
    Exec,
    Spin,
    Jump,
    JumpNe,
    Hypercall,
    VtlCall,
    VtlReturn,
    Poll,
    Ack,
    Eoi,
    Eom,
    Schedule,
    End,
}

/// Which lines may come next.
#[derive(Clone, Copy, Debug, PartialEq, Eq)]
pub enum Stage {
    Vsm,
    Vps,
    Pages,
    Budget,
    Started,
    Memory,
    /// The operations of a processor's program in a level may come.
    Program(u8, u8),
    Schedule,
    Done,
}

const ALL: [Keyword; 25] = [
    Keyword::Vsm,
    Keyword::Vps,
    Keyword::Pages,
    Keyword::Budget,
    Keyword::Started,
    Keyword::Mask,
    Keyword::Word,
    Keyword::Program,
    Keyword::Set,
    Keyword::Get,
    Keyword::Load,
    Keyword::Store,
    Keyword::Exec,
    Keyword::Spin,
    Keyword::Jump,
    Keyword::JumpNe,
    Keyword::Hypercall,
    Keyword::VtlCall,
    Keyword::VtlReturn,
    Keyword::Poll,
    Keyword::Ack,
    Keyword::Eoi,
    Keyword::Eom,
    Keyword::Schedule,
    Keyword::End,
];

impl Keyword {
    /// How it is spelled.
    pub fn text(self) -> &'static [u8]
        ensures { result.now ≡ spelling self }
    {
        match self {
            Keyword::Vsm => b"vsm",
            Keyword::Vps => b"vps",
            Keyword::Pages => b"pages",
            Keyword::Budget => b"budget",
            Keyword::Started => b"started",
            Keyword::Mask => b"mask",
            Keyword::Word => b"word",
            Keyword::Program => b"program",
            Keyword::Set => b"set",
            Keyword::Get => b"get",
            Keyword::Load => b"load",
            Keyword::Store => b"store",
            Keyword::Exec => b"exec",
            Keyword::Spin => b"spin",
            Keyword::Jump => b"jump",
            Keyword::JumpNe => b"jumpne",
            Keyword::Hypercall => b"hypercall",
            Keyword::VtlCall => b"vtlcall",
            Keyword::VtlReturn => b"vtlreturn",
            Keyword::Poll => b"poll",
            Keyword::Ack => b"ack",
            Keyword::Eoi => b"eoi",
            Keyword::Eom => b"eom",
            Keyword::Schedule => b"schedule",
            Keyword::End => b"end",
        }
    }
}

fn with_spelling(all: &[Keyword], word: &[u8]) -> Option<Keyword>
    ensures { result ≡ find (is_spelled word.now) all.now }
{
    for keyword in all {
        if keyword.text() == word {
            return Some(*keyword);
        }
    }
    None
}

/// The kind of line that a first word begins.
#[tactic(auto, unfolding(crate::specs::Keywords::all_keywords, crate::specs::Keywords::keyword_of))]
pub fn keyword_of(word: &[u8]) -> Option<Keyword>
    ensures { result ≡ keyword_of word.now }
{
    with_spelling(&ALL, word)
}

/// Whether a line of this kind can stand at this stage.
pub fn stands(keyword: Keyword, stage: Stage) -> bool
    ensures { result ≡ stands keyword stage }
{
    match keyword {
        Keyword::Vsm => matches!(stage, Stage::Vsm),
        Keyword::Vps => matches!(stage, Stage::Vps),
        Keyword::Pages => matches!(stage, Stage::Pages),
        Keyword::Budget => matches!(stage, Stage::Budget),
        Keyword::Started => matches!(stage, Stage::Started),
        Keyword::Mask | Keyword::Word => matches!(stage, Stage::Memory),
        Keyword::Program => matches!(stage, Stage::Memory | Stage::Program(_, _)),
        Keyword::Set
        | Keyword::Get
        | Keyword::Load
        | Keyword::Store
        | Keyword::Exec
        | Keyword::Spin
        | Keyword::Jump
        | Keyword::JumpNe
        | Keyword::Hypercall
        | Keyword::VtlCall
        | Keyword::VtlReturn
        | Keyword::Poll
        | Keyword::Ack
        | Keyword::Eoi
        | Keyword::Eom => matches!(stage, Stage::Program(_, _)),
        Keyword::Schedule | Keyword::End => {
            matches!(
                stage,
                Stage::Memory | Stage::Program(_, _) | Stage::Schedule
            )
        }
    }
}
