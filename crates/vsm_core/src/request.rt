// Requests to the partition.
ghost use Rattle.std.specs.Prelude.{◌≡◌};

use crate::Ending;
use arrayvec::ArrayVec;
use vsm_base::{HvStatus, VpIndex, Vtl};

/// What is asked of the partition, with the words of the call's input.
#[derive(Debug, Drop)]
pub enum PartCall {
    /// HvCallEnablePartitionVtl.
    EnablePartition([u64; 2]),
    /// HvCallEnableVpVtl.
    EnableVp([u64; 30]),
    /// HvCallStartVirtualProcessor.
    Start([u64; 30]),
    /// A slice of HvCallModifyVtlProtectionMask: its pages, the index of the first and the number of all.
    Modify {
        header: [u64; 2],
        pages: ArrayVec<u64, 8>,
        start: u16,
        total: u16,
    },
    /// A flush of translations that names so many elements.
    Flush {
        total: u16,
    },
    /// Reads VsmPartitionStatus.
    ReadStatus,
    /// Reads VsmPartitionConfig.
    ReadConfig,
    /// Writes VsmPartitionConfig.
    WriteConfig(u128),
    /// A starting processor fetches its contexts.
    Fetch,
}

/// A request of a processor at a level.
#[derive(Debug, Drop)]
pub struct Request {
    pub by: VpIndex,
    pub level: Vtl,
    pub call: PartCall,
}

/// The same pages once more.
fn same_pages(pages: &ArrayVec<u64, 8>) -> ArrayVec<u64, 8>
    ensures { result ≡ pages.now }
{
    let Ok(same) = pages.clone() else {
        unreachable!()
    };
    same
}

impl PartCall {
    /// The same call once more.
    pub fn again(&self) -> PartCall
        ensures { result ≡ self.now }
    {
        match self {
            PartCall::EnablePartition(words) => PartCall::EnablePartition(*words),
            PartCall::EnableVp(words) => PartCall::EnableVp(*words),
            PartCall::Start(words) => PartCall::Start(*words),
            PartCall::Modify {
                header,
                pages,
                start,
                total,
            } => PartCall::Modify {
                header: *header,
                pages: same_pages(pages),
                start: *start,
                total: *total,
            },
            PartCall::Flush { total } => PartCall::Flush { total: *total },
            PartCall::ReadStatus => PartCall::ReadStatus,
            PartCall::ReadConfig => PartCall::ReadConfig,
            PartCall::WriteConfig(value) => PartCall::WriteConfig(*value),
            PartCall::Fetch => PartCall::Fetch,
        }
    }
}

impl Request {
    /// The same request once more: one copy can be served, while the other is kept to tell what was served.
    pub fn again(&self) -> Request
        ensures { result ≡ self.now }
    {
        Request {
            by: self.by,
            level: self.level,
            call: self.call.again(),
        }
    }
}

/// The partition's reply.
#[derive(Clone, Copy, Debug, PartialEq, Eq)]
pub struct Reply {
    pub status: HvStatus,
    /// How many reps are complete.
    pub done: u16,
    pub value: u64,
    /// The level to start at, the words of its context, and those of level 1's context that has waited. No word
    /// has a must-be-zero bit.
    pub context: Option<(Vtl, [u64; 28], Option<[u64; 28]>)>,
}

/// The reply that an attempt has had, after so many events of its own.
#[derive(Clone, Copy, Debug, PartialEq, Eq)]
pub struct Heard {
    pub after: u32,
    pub reply: Reply,
}

/// A request that was served, or the end of a processor.
#[derive(Debug, Drop)]
pub enum Served {
    Replied(Request, Reply),
    Over(VpIndex, Ending),
}
