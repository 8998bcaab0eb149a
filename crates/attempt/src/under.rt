// An attempt that is under way.
ghost use Rattle.std.specs.Prelude.{◌≡◌, ◌≤◌, ◌∷◌, [], take};
ghost use Rattle.attempt.specs.Unders.{departing, ended, left, made_by};

use crate::path::{Aim, Fill, Path, Place};
use crate::plans::nothing;
use crate::stage::{Asked, Decided, Head, Plan, Refusal, Site, Stage};
use hyper_abi::Call;
use page_walk::{Translation, Walk};
use vsm_base::{Access, Gva, Mask, Page, Vtl};
use vsm_core::Op;

/// An attempt of an operation that is under way: how far it has come, and what its stage and its end need of what was
/// found before. The access that it makes, what was denied, the call that it makes and the steps that are planned are
/// known where its stage names them. `header` and `slice` have the words of a hypercall's input, `taken` those of a
/// poll, and `output` the words that planned steps write.
#[derive(Drop)]
pub struct Under {
    pub op: Op,
    pub stage: Stage,
    pub decided: Decided,
    pub path: Path,
    pub refusal: Refusal,
    pub head: Head,
    pub plan: Plan,
    pub header: [u64; 32],
    pub slice: [u64; 32],
    pub taken: [u64; 8],
    pub output: [u64; 16],
}

/// The first words of those that were read.
pub fn front_of<const N: usize>(words: &[u64; 32]) -> [u64; N]
    requires { N ≤ 32 }
    ensures { result ≡ take N words.now }
{
    let mut front = [0; N];
    front.copy_from_slice(&words[..N]);
    front
}

/// Two words go to the front of others.
pub fn put_front<const N: usize>(words: &mut [u64; N], first: u64, second: u64)
    requires { 2 ≤ N }
    ensures { take 2 words.new ≡ first ∷ second ∷ [] }
{
    words[0] = first;
    words[1] = second;
}

/// An access of which nothing is known.
fn no_path() -> Path {
    let Ok(walk) = Walk::start(0, Gva(0), Access::Read, 0) else {
        unreachable!()
    };
    let aim = Aim {
        level: Vtl::Zero,
        cpl: 0,
        cr0: 0,
        cr3: 0,
        gva: Gva(0),
        access: Access::Read,
        need: 0,
        aligned: false,
        value: 0,
        pages: 0,
    };
    let to = Translation {
        page: 0,
        write: false,
        user: false,
        execute: false,
    };
    let fill = Fill {
        at: 0,
        to,
        mask: None,
        generation: 0,
    };
    Path {
        aim,
        place: Place::Start,
        walk,
        taken: 0,
        entries: [0; 4],
        page: Page(0),
        index: 0,
        fill,
    }
}

fn no_refusal() -> Refusal {
    Refusal {
        page: Page(0),
        mask: Mask::default(),
        generation: 0,
        access: Access::Read,
        gva: None,
        gpa: 0,
        filled: false,
    }
}

impl Under {
    /// Room for the attempts of a processor, in which none is under way.
    pub fn idle() -> Under {
        Under {
            op: Op::Poll,
            stage: Stage::End,
            decided: Decided::Local,
            path: no_path(),
            refusal: no_refusal(),
            head: Head {
                call: Call::EnablePartitionVtl,
                site: Site::at(0),
                output: None,
            },
            plan: nothing(None, 0),
            header: [0; 32],
            slice: [0; 32],
            taken: [0; 8],
            output: [0; 16],
        }
    }

    /// It is decided so, with no step left.
    pub fn end(&mut self, decided: Decided)
        ensures { self.new ≡ ended self.old decided }
    {
        self.decided = decided;
        self.stage = Stage::End;
    }

    /// The planned steps are made, then the access is left, and it is decided so.
    pub fn make(&mut self, plan: Plan, decided: Decided)
        ensures { self.new ≡ made_by self.old plan decided }
    {
        self.plan = plan;
        self.decided = decided;
        self.stage = Stage::Make;
    }

    /// The access is left, and it is decided so.
    pub fn leave(&mut self, decided: Decided)
        ensures { self.new ≡ left self.old decided }
    {
        self.plan = nothing(None, 0);
        self.decided = decided;
        self.stage = Stage::Make;
    }

    /// The access is left, and then this is asked of the partition.
    pub fn depart(&mut self, asked: Asked)
        ensures { self.new ≡ departing self.old asked }
    {
        self.stage = Stage::Depart(asked);
    }
}
