// One access under way.
ghost use Rattle.std.specs.Prelude.{◌≡◌, ◌≢◌, IfOk, IfErr, OnOk, Some, None};
ghost use Rattle.vsm_core.specs.Tree.{Tree};
ghost use Rattle.vsm_core.specs.Access.{Decision, start_fault};
ghost use Rattle.vsm_core.specs.Turns.{Turned};
ghost use Rattle.access_path.specs.Rest.{Rest, Goes, Matches, Serves, goal_of};

use crate::aim::Aim;
use crate::place::{PathTurn, Place};
use crate::steps::step;
use crate::ways::paging;
use fabric::Port;
use page_walk::Walk;
use std::marker::Model;
use vsm_base::Gva;
use vsm_core::{Event, GuestFault};

/// One access: an enter, a check of the generation, with paging on the four tables of the walk, and the word itself.
/// At level 0 the mask of each page is loaded before a word of it is used, and a table's page needs to be readable.
/// Contracts see its aim and how far it has come; `Rest` says what is then left of the definition of an access. The
/// order of the steps is this project's own.
#[derive(Clone, Copy, Debug)]
pub struct Path {
    aim: Aim,
    place: Place,
}

impl Model for Path {
    ghost use Rattle.access_path.specs.PathView.{PathView};

    ghost Value = { PathView };

    ghost use Rattle.access_path.specs.Rest.{IsPlaced};

    ghost view = { λ p. record { aim = p.aim; place = p.place } };

    ghost invariant = { λ p. IsPlaced p.aim p.place };

    ghost inverse = { λ v. record { aim = v.aim; place = v.place } };
}

impl Path {
    /// An access before its first step. `Align` where the address must be a multiple of 8 and isn't; else
    /// `Noncanonical` where paging is on and the address isn't canonical (Intel SDM, Canonical Addressing).
    pub fn start(aim: Aim) -> Result<Path, GuestFault>
        ensures ok { OnOk result (start_fault (goal_of aim) ≡ None) }
        ensures path { IfOk result (λ p. p ≡ record { aim = aim; place = Place.Start }) }
        ensures err { IfErr result (λ fault. start_fault (goal_of aim) ≡ Some fault) }
    {
        if aim.aligned && aim.gva.0 % 8 != 0 {
            return Err(GuestFault::Align);
        }
        if paging(aim.cr0) {
            Walk::start(aim.cr3, aim.gva, aim.access, aim.cpl)?;
        }
        Ok(Path {
            aim,
            place: Place::Start,
        })
    }

    /// The address of the access.
    pub fn gva(&self) -> Gva
        ensures { result ≡ self.now.aim.gva }
    {
        self.aim.gva
    }

    /// Makes the next step of the access at the port of its processor, and tells its event. It needs that every
    /// earlier step answered `Moved`, and never makes the leave.
    pub fn step<P: Port>(&mut self, port: &mut P) -> (PathTurn, Event)
        requires going { self.old.place ≢ Place.Over }
        requires serves { Serves self.old.aim self.old.place (P.seat port.old) }
        ensures event { (P.seat port.new).last ≡ Some result.1 }
        ensures turned { (t : Tree Decision) → Rest self.old.aim self.old.place t → Turned t (P.seat port.old) (P.seat port.new) (Goes self.old.aim result.0 self.new.place) }
        ensures matches { Matches result.0 self.new.place }
        ensures serves { Serves self.old.aim self.new.place (P.seat port.new) }
        ensures aim { self.new.aim ≡ self.old.aim }
    {
        let next = step(&self.aim, self.place, port);
        self.place = next.place;
        (next.turn, next.event)
    }

    /// Makes the next step of the access, as `step` does.
    pub fn turn<P: Port>(&mut self, port: &mut P) -> PathTurn
        requires going { self.old.place ≢ Place.Over }
        requires serves { Serves self.old.aim self.old.place (P.seat port.old) }
        ensures turned { (t : Tree Decision) → Rest self.old.aim self.old.place t → Turned t (P.seat port.old) (P.seat port.new) (Goes self.old.aim result self.new.place) }
        ensures matches { Matches result self.new.place }
        ensures serves { Serves self.old.aim self.new.place (P.seat port.new) }
        ensures aim { self.new.aim ≡ self.old.aim }
    {
        self.step(port).0
    }
}
