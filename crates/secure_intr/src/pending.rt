// The vectors of one level of a processor.
ghost use Rattle.std.specs.Prelude.{◌≡◌, ◌≤◌};
ghost use Rattle.vsm_core.specs.Vectors.{no_vectors, requested_too, all_requested, deliverable as deliverable_lem, acknowledged, ended};

use crate::priority::{class_in_service, if_above};
use crate::sets::{highest, insert, join, legal, remove};
use std::marker::Model;

/// The interrupt vectors of one level of a processor: those that are requested and those that are in service (Intel SDM,
/// Local APIC, Interrupt Acceptance for Fixed Interrupts: the registers IRR and ISR). Contracts see both as sets of four
/// words, of which bit b of word w is vector 64 w + b.
#[derive(Clone, Copy, Debug, PartialEq, Eq)]
pub struct Pending {
    requested: [u64; 4],
    served: [u64; 4],
}

impl Model for Pending {
    ghost use Rattle.vsm_core.specs.Vectors.{Vectors};

    ghost Value = { Vectors };

    ghost view = { λ p. record { requested = p.requested; served = p.served } };

    ghost inverse = { λ v. record { requested = v.requested; served = v.served } };
}

impl Pending {
    /// No vector is requested, and none is in service.
    pub fn new() -> Pending
        ensures { result ≡ no_vectors }
    {
        Pending {
            requested: [0; 4],
            served: [0; 4],
        }
    }

    /// Requests a vector, which must be 0x10 or above: those below can't be requested (Intel SDM, Valid Interrupt
    /// Vectors). A vector that is requested already stays so.
    pub fn request(&mut self, vector: u8)
        requires { 16 ≤ vector }
        ensures { self.new ≡ requested_too self.old vector }
    {
        insert(&mut self.requested, vector);
    }

    /// Requests all vectors of a set of four words, bit b of word w for vector 64 w + b, but leaves out those below 0x10.
    pub fn request_all(&mut self, words: &[u64; 4])
        ensures { self.new ≡ all_requested self.old words.now }
    {
        join(&mut self.requested, &legal(words));
    }

    /// The vector that is delivered next: the highest one requested, where its priority class, its bits 7 to 4, is above
    /// `cr8` and above the class of the highest vector in service (Intel SDM, Task and Processor Priorities). `None` exactly
    /// where no vector is requested or the class of the highest is not above both. Cr8 is any number: from 15 on no vector
    /// is delivered.
    #[tactic(auto, unfolding(vsm_core::specs::Vectors::deliverable))]
    pub fn deliverable(&self, cr8: u64) -> Option<u8>
        ensures { result ≡ deliverable_lem self.now cr8 }
    {
        let served = class_in_service(highest(&self.served));
        if_above(cr8, served, highest(&self.requested))
    }

    /// Takes the vector that is delivered next: it is no longer requested, and is in service. `None` exactly where no vector
    /// is deliverable; then nothing changes.
    pub fn ack(&mut self, cr8: u64) -> Option<u8>
        ensures vector { result ≡ deliverable_lem self.old cr8 }
        ensures service { self.new ≡ acknowledged self.old (deliverable_lem self.old cr8) }
    {
        let vector = self.deliverable(cr8)?;
        remove(&mut self.requested, vector);
        insert(&mut self.served, vector);
        Some(vector)
    }

    /// Ends the service of the highest vector in service; where none is, nothing changes (Intel SDM, Signaling Interrupt
    /// Servicing Completion).
    pub fn eoi(&mut self)
        ensures { self.new ≡ ended self.old }
    {
        if let Some(vector) = highest(&self.served) {
            remove(&mut self.served, vector);
        }
    }
}
