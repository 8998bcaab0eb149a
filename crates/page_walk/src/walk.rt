// A walk that is under way.
ghost use Rattle.std.specs.Prelude.{◌≡◌, ◌<◌, ◌++◌, ◌∷◌, [], ℕ, List, IfErr, IfOk, OnOk, true, false};
ghost use Rattle.vsm_core.specs.Walk.{Query, walk, Need, is_canonical};
ghost use Rattle.page_walk.specs.Half.{fresh, Stands, with_entry};
ghost use Rattle.page_walk.specs.Told.{Tells, GoesOn, answer_of};

use crate::entry::{canonical, executable, for_user, frame, index, present, right, writable};
use std::marker::Model;
use vsm_base::{Access, Gva};
use vsm_core::GuestFault;

/// Where an address leads, and what all four entries allow (Intel SDM, Determination of Access Rights).
#[derive(Clone, Copy, Debug, PartialEq, Eq)]
pub struct Translation {
    /// The number of the page, below 2^52.
    pub page: u64,
    /// Whether it may be written.
    pub write: bool,
    /// Whether it may be used at privilege level 3.
    pub user: bool,
    /// Whether it may be executed.
    pub execute: bool,
}

/// What a walk answers to an entry.
#[derive(Clone, Copy, Debug, PartialEq, Eq)]
pub enum WalkStep {
    /// It wants one more: the number of the table's page, below 2^40, and the place in it, below 512.
    Need(u64, u16),
    /// The address leads here, and the access is one that the entries allow.
    Mapped(Translation),
    /// The address leads nowhere, or the entries don't allow the access.
    Fault(GuestFault),
}

/// A walk through the four tables that an address goes through with 4-level paging (Intel SDM, 4-Level Paging), with
/// the entries that it has taken so far. Tables may lie anywhere and be of any content. There are no large pages, no
/// accessed and no dirty bits, and supervisor accesses are bound by the write bit: this project's own.
#[derive(Clone, Copy, Debug)]
pub struct Walk {
    gva: u64,
    access: Access,
    cpl: u8,
    depth: u8,
    table: u64,
    write: bool,
    user: bool,
    execute: bool,
}

impl Model for Walk {
    ghost use Rattle.std.specs.Prelude.{◌≤◌};
    ghost use Rattle.page_walk.specs.Half.{Half};

    ghost Value = { Half };

    ghost view = { λ w. record { gva = w.gva; access = w.access; cpl = w.cpl; depth = w.depth; table = w.table; write = w.write; user = w.user; execute = w.execute } };

    ghost invariant = { λ w. w.depth ≤ 4 };

    ghost inverse = { λ h. record { gva = h.gva; access = h.access; cpl = h.cpl; depth = h.depth; table = h.table; write = h.write; user = h.user; execute = h.execute } };
}

impl Walk {
    /// The walk of an access at privilege level `cpl` to an address, from the table that `cr3` names, before its first
    /// entry. `Noncanonical` exactly where bits 63:47 of the address aren't all equal (Intel SDM, Canonical
    /// Addressing).
    pub fn start(cr3: u64, gva: Gva, access: Access, cpl: u8) -> Result<Walk, GuestFault>
        ensures canonical { OnOk result (is_canonical gva.0 ≡ true) }
        ensures fresh { IfOk result (λ w. w ≡ fresh cr3 gva.0 access cpl) }
        ensures err { IfErr result (λ e. (e ≡ GuestFault.Noncanonical) × (is_canonical gva.0 ≡ false)) }
    {
        if canonical(gva.0) {
            Ok(Walk {
                gva: gva.0,
                access,
                cpl,
                depth: 0,
                table: frame(cr3),
                write: true,
                user: true,
                execute: true,
            })
        } else {
            Err(GuestFault::Noncanonical)
        }
    }

    /// The number of the table's page that is wanted first, and the place of the entry in it, below 512.
    pub fn first(&self) -> (u64, u16)
        ensures wanted { (q : Query) → Stands self.now q [] → walk q [] ≡ Need result.0 result.1 }
        ensures below { result.1 < 512 }
    {
        (self.table, index(self.gva, self.depth))
    }

    /// Takes the entry that was wanted. It needs that every earlier call answered `Need`. `Fault` is `Page` where the
    /// entry isn't present or, at the fourth, where the four don't allow the access.
    pub fn next(&mut self, word: u64) -> WalkStep
        requires { self.old.depth < 4 }
        ensures told { (q : Query) (entries : List ℕ) → Stands self.old q entries → Tells result (walk q (entries ++ word ∷ [])) (Stands self.new q (entries ++ word ∷ [])) }
        ensures goes_on { GoesOn result self.new }
    {
        if !present(word) {
            return WalkStep::Fault(GuestFault::Page);
        }
        self.take(word);
        self.answer()
    }

    fn take(&mut self, word: u64)
        requires { self.old.depth < 4 }
        ensures { self.new ≡ with_entry self.old word }
    {
        self.depth += 1;
        self.table = frame(word);
        self.write = self.write && writable(word);
        self.user = self.user && for_user(word);
        self.execute = self.execute && executable(word);
    }

    fn answer(&self) -> WalkStep
        ensures value { result ≡ answer_of self.now }
        ensures goes_on { GoesOn result self.now }
    {
        if self.depth < 4 {
            return WalkStep::Need(self.table, index(self.gva, self.depth));
        }
        let to = Translation {
            page: self.table,
            write: self.write,
            user: self.user,
            execute: self.execute,
        };
        if right(self.access, self.cpl, to) {
            WalkStep::Mapped(to)
        } else {
            WalkStep::Fault(GuestFault::Page)
        }
    }
}
