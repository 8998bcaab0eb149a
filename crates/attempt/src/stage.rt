// The parts of an attempt under way: its steps, what they need, how it is decided, and how far it has come.
ghost use Rattle.std.specs.Prelude.{◌≡◌, ◌/◌, ◌<◌, ◌^◌};

use hyper_abi::{Call, Interrupt};
use rep_frame::Look;
use vsm_base::{Access, HvStatus, Mask, Page, VpIndex, Vtl};
use vsm_core::{GuestFault, PendingWord};

/// What a processor asks of one shared word.
#[derive(Clone, Copy)]
pub enum Step {
    Enter,
    Check,
    Mask {
        page: Page,
    },
    Read {
        page: Page,
        index: u16,
    },
    Write {
        page: Page,
        index: u16,
        value: u64,
    },
    Leave,
    Post {
        vp: VpIndex,
        word: PendingWord,
        bits: u64,
    },
    Take {
        word: PendingWord,
    },
}

/// An address of memory, and its page.
#[derive(Clone, Copy)]
pub struct Site {
    pub address: u64,
    pub page: Page,
    ghost known: { page.0 ≡ address / 4096 },
}

impl Site {
    /// The site of an address.
    pub fn at(address: u64) -> Site
        requires { address / 4096 < 2 ^ 32 }
        ensures { result.address ≡ address }
    {
        Site {
            address,
            page: Page((address / 4096) as u32),
        }
    }
}

/// What was denied: the page, its mask, the generation that was checked, the kind of access, the address of the
/// operation where there is one, the guest physical address, and whether the access had filled a translation.
#[derive(Clone, Copy)]
pub struct Refusal {
    pub page: Page,
    pub mask: Mask,
    pub generation: u64,
    pub access: Access,
    pub gva: Option<u64>,
    pub gpa: u64,
    pub filled: bool,
}

/// Steps that are still to be made, none of which teaches anything: the words from `next` on and below `count` are
/// written to their places in a page, the first of all words at the place `at`, then a vector is requested for level 1
/// of this processor, and then the assist page is told the reason of an entry. The words stand beside it.
#[derive(Clone, Copy)]
pub struct Plan {
    pub page: Page,
    pub at: u16,
    pub next: u8,
    pub count: u8,
    pub vector: Option<u8>,
    pub told: Option<Page>,
    pub reason: u32,
}

/// A call whose input stands in memory, and its output, if it has one.
#[derive(Clone, Copy)]
pub struct Head {
    pub call: Call,
    pub site: Site,
    pub output: Option<Site>,
}

/// Words of a page that are read one after the other: the place of the next, how many are left, and how many were
/// found.
#[derive(Clone, Copy)]
pub struct Reads {
    pub page: Page,
    pub index: u16,
    pub left: u8,
    pub done: u8,
}

/// What a call asks of the partition. The words of its input stand beside it.
#[derive(Clone, Copy)]
pub enum Asked {
    /// HvCallEnablePartitionVtl.
    EnablePartition,
    /// HvCallEnableVpVtl.
    EnableVp,
    /// HvCallStartVirtualProcessor.
    Start,
    /// HvCallModifyVtlProtectionMask, for a slice of so many pages.
    Modify(u8),
    /// A flush of all translations.
    Flush,
    /// The configuration of the partition is to have this value.
    Write(u128),
    /// A register of the partition, whose value then goes to the output.
    Look(Look, Site),
}

/// An interrupt that is posted to one processor after the other, in the order of their numbers: to the next one, and
/// then to each behind it that has its bit.
#[derive(Clone, Copy)]
pub struct Sending {
    pub interrupt: Interrupt,
    pub next: u8,
}

/// How a call goes on outside of accesses: it posts to a processor next, or has this status.
#[derive(Clone, Copy)]
pub enum Sends {
    Post(Sending),
    Over(HvStatus),
}

/// How an attempt was decided. What that does to the state it does at the mark. The words that it needs stand beside
/// it.
#[derive(Clone, Copy)]
pub enum Decided {
    /// The operation makes no step.
    Local,
    /// Level 1 intercepts the register. The message slot has this first word, where it was read.
    Hit(Option<u64>),
    /// Level 0 calls level 1.
    Called,
    /// Level 1 returns to level 0, and these become RAX and RCX, where there is a pair.
    Returned(Option<(u64, u64)>),
    /// The access was granted; the word has this value.
    Granted(u64),
    /// It was denied. The message slot has this first word, where it was read.
    Denied(Option<u64>),
    Fault(GuestFault),
    /// A poll has taken its words.
    Polled,
    /// A hypercall was refused or served: its result value.
    Replied(u64),
    /// A hypercall has enabled a level, whose context stands in the words of the header: its result value.
    Enabled(Vtl, u64),
    /// A hypercall goes on at this element.
    Part(u16),
    /// A hypercall sets registers of a level, by the words of its slice.
    Set(Vtl),
    /// A message is ended. The message slot has this first word, where it was read.
    Eom(Option<u64>),
}

/// Why the first word of the message slot is read.
#[derive(Clone, Copy)]
pub enum Matter {
    /// The note of a denied access is posted.
    Denial,
    /// The note of an intercepted register is posted.
    Hit,
    /// A message is ended.
    Ending,
}

/// What comes in an access once its generation is checked.
#[derive(Clone, Copy)]
pub enum Inner {
    /// The first word of the message slot is read.
    Look(Page, Matter),
    /// The planned steps are made, and then the access is left.
    Make,
    /// A return takes RAX and RCX from this page.
    Restore(Page),
    /// A hypercall touches a page of its input or output.
    Page(Gate),
}

/// What comes once the mask of a hypercall's page has allowed it.
#[derive(Clone, Copy)]
pub enum Behind {
    /// The input's page may be read; the mask of the output's page comes next, where there is one.
    Input,
    /// The output's page may be written; the words come next.
    Words,
    /// The output is written.
    Make,
}

/// A page that a hypercall touches, and what comes behind its mask at level 0.
#[derive(Clone, Copy)]
pub struct Gate {
    pub site: Site,
    pub behind: Behind,
}

impl Behind {
    ghost use Rattle.attempt.specs.Calls.{access_of};

    /// The access that the mask must allow.
    pub fn access(self) -> Access
        ensures { result ≡ access_of self }
    {
        match self {
            Behind::Input => Access::Read,
            Behind::Words | Behind::Make => Access::Write,
        }
    }
}

/// How far an attempt has come: each stage is one step that comes next, and what is done by its answer.
#[derive(Clone, Copy)]
pub enum Stage {
    /// Its access is under way.
    Access,
    /// An access of its own is entered.
    Enter(Inner),
    /// The generation is checked.
    Check(Inner),
    /// At level 0 the mask of a hypercall's page is loaded; this generation was checked.
    Mask(Gate, u64),
    /// The first word of the message slot is read.
    Look(Page, Matter),
    /// A return reads what becomes RAX, and then what becomes RCX.
    Rax(Page),
    /// A return has read what becomes RAX.
    Rcx(Page, u64),
    /// The next word of a hypercall's header is read.
    Header(Reads),
    /// The next word of a hypercall's slice is read.
    Slice(Reads),
    /// The next planned step is made or, where none is left, the access is left.
    Make,
    /// A poll takes the next of its words; it has taken so many.
    Take(u8),
    /// The access is left, and then this is asked of the partition.
    Depart(Asked),
    /// This is asked of the partition; no step comes next.
    Want(Asked),
    /// The access is left, and then an interrupt is posted, where nothing refuses it.
    Quit(Sends),
    /// An interrupt is posted to the next processor.
    Send(Sending),
    /// It was decided; no step comes next.
    End,
}

/// What comes next at a stage: a step, a request, or the end.
#[derive(Clone, Copy)]
pub enum Next {
    Ask(Step),
    Want(Asked),
    End,
}
