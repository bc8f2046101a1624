ghost use Rattle.std.specs.Prelude.{◌≡◌, ◌↔◌, ◌<◌, [], ◌∷◌, ◌++◌, map, length, nat_lt, Some, true, false, slice_get, IsTrue, IsErr, is_ok, IfOk, OnOk, OnErr, if◌then◌else◌};
ghost use Rattle.idx_outside.specs.Cause.{NeverFalls, Rose};
ghost use Rattle.idx_memory.specs.Links.{handing, unread};
ghost use Rattle.idx_memory.specs.Memory.{untouched, NextFails, after_call};

use crate::MemLink;
use crate::fault_script::FaultScript;
use http_server::Log;
use idx_outside::{Door, NoMemory, Outage, Served};
use std::marker::Model;

/// A door in memory, of which all is known. Its calls `accept` are numbered from 1, and those whose numbers were given
/// fail, as does one that finds no memory; the link is then still to come.
///
/// `accept` makes its copy of the link that it hands out, and the room for taking it back. There is room for as many
/// links as were handed out: of one that comes back beyond that, contracts know, but `finished` does not have it.
#[derive(Drop)]
pub struct MemDoor {
    coming: Vec<MemLink>,
    handed: Vec<MemLink>,
    went: Log<MemLink, ()>,
    finished: Vec<(MemLink, Vec<Served>)>,
    came: Log<MemLink, Vec<Served>>,
    kept: bool,
    script: FaultScript,
}

impl Model for MemDoor {
    ghost use Rattle.std.specs.Prelude.{◌≡◌, ◌≤◌, map, IsTrue, vec_len, vec_capacity};
    ghost use Rattle.idx_memory.specs.Links.{DoorState, unread};

    ghost Value = { DoorState };

    ghost view = { λ s. record {
      coming = s.coming.items;
      handed = map (λ went. went.0) s.went.items;
      finished = map (λ came. (came.0, came.1.items)) s.came.items;
      kept = s.kept;
      script = s.script;
    } };

    ghost invariant = { λ s. (vec_len s.handed ≤ vec_capacity s.finished)
        × (s.handed.items ≡ map unread (map (λ went. went.0) s.went.items))
        × (IsTrue s.kept → s.finished.items ≡ s.came.items) };
}

impl MemDoor {
    /// `fails` are the numbers of the calls `accept` that are to fail, from 1. Takes no memory.
    pub fn new(links: Vec<MemLink>, fails: Vec<u64>) -> MemDoor
        ensures { result ≡ record {
          coming = links.items;
          handed = [];
          finished = [];
          kept = true;
          script = untouched fails.items;
        } }
    {
        let alloc = *fails.allocator();
        MemDoor {
            coming: links,
            handed: Vec::new(alloc),
            went: Log::new(),
            finished: Vec::new(alloc),
            came: Log::new(),
            kept: true,
            script: FaultScript::new(fails),
        }
    }

    /// The links that were handed out, each as it was then; of a copy is not told when its link had been read.
    pub fn handed(&self) -> &Vec<MemLink>
        ensures { result.now.items ≡ map unread self.now.handed }
    {
        &self.handed
    }

    /// The links that came back, each as it was then, with its entries.
    pub fn finished(&self) -> &Vec<(MemLink, Vec<Served>)>
        ensures { IsTrue self.now.kept
            → map (λ came. (came.0, came.1.items)) result.now.items ≡ self.now.finished }
    {
        &self.finished
    }

    /// Hands out the next link. Where there is no memory, nothing changes.
    fn hand_out(&mut self) -> Result<MemLink, NoMemory>
        requires { 0 < length self.old.coming }
        ensures next { IfOk result (λ link. slice_get self.old.coming 0 ≡ Some link) }
        ensures state { self.new ≡ (if is_ok result then handing self.old self.old.coming else self.old) }
    {
        let room = self.handed.len().saturating_add(1);
        self.finished
            .reserve(room.saturating_sub(self.finished.len()))?;
        let copy = self.coming[0].copy(*self.coming.allocator())?;
        self.handed.push(copy)?;
        let link = self.coming.remove(0);
        self.went = self.went.and(&link, &());
        Ok(link)
    }
}

impl Door for MemDoor {
    type Link = MemLink;

    ghost use Rattle.idx_outside.specs.Doors.{door_told};

    ghost told = { λ s. Some (door_told s.coming s.handed s.finished) };

    ghost faults = { λ s. s.script.faults };

    fn accept(&mut self) -> Result<Option<MemLink>, Outage>
        ensures next { IfOk result (λ next. next ≡ slice_get self.old.coming 0) }
        ensures fails { NextFails self.old.script → IsErr result }
        ensures none { self.old.coming ≡ [] → (IsErr result ↔ NextFails self.old.script) }
        ensures state { self.new ≡ record (if is_ok result then handing self.old self.old.coming else self.old) {
          script = after_call (is_ok result) self.old.script;
        } }
        ensures count { NeverFalls self.old.script.faults self.new.script.faults }
        ensures quiet { OnOk result (self.new.script.faults ≡ self.old.script.faults) }
        ensures cause { OnErr result (Rose self.old.script.faults self.new.script.faults) }
    {
        self.script.call()?;
        if self.coming.is_empty() {
            return Ok(None);
        }
        match self.hand_out() {
            Ok(link) => Ok(Some(link)),
            Err(NoMemory) => Err(self.script.fault()),
        }
    }

    fn finish(&mut self, link: MemLink, served: Vec<Served>)
        ensures { self.new ≡ record self.old {
          finished = self.old.finished ++ (link, served.items) ∷ [];
          kept = (if nat_lt (length self.old.finished) (length self.old.handed) then self.old.kept else false);
        } }
    {
        self.came = self.came.and(&link, &served);
        if self.finished.len() < self.handed.len() {
            let _room = self.finished.push((link, served));
        } else {
            self.kept = false;
        }
    }

    fn faults(&self) -> u64 {
        self.script.faults()
    }
}
