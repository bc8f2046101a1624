ghost use Rattle.std.specs.Prelude.{◌≡◌, ◌↔◌, ◌<◌, None, Some, IsSome, IsNone, IsOk, is_ok, IfSome, IfOk, OnOk, OnErr, option_map, if◌then◌else◌};
ghost use Rattle.idx_outside.specs.Cause.{counted, NeverFalls, Rose};
ghost use Rattle.idx_real.specs.DoorState.{one_less};
ghost use Rattle.idx_real.specs.Faults.{no_faults};
ghost use Rattle.idx_real.specs.LinkState.{most_read};

use crate::notes::Notes;
use idx_outside::{Door, Outage, Served};
use idx_real::{Fault, Sockets, TcpDoor, TcpLink};
use std::io::Write;
use std::marker::{Model, PhantomData};
use std::net::TcpStream;

/// A door over TCP that says, where it is to, why it hands out no further link, with which its worker thread ends. Where the
/// address could not be opened in the first place it says nothing, since the program then ends by that. A contract sees the
/// door.
#[derive(Drop)]
pub struct NotingDoor<R: Sockets, W: Write + Copy> {
    door: TcpDoor<R>,
    notes: Option<Notes<W>>,
    /// The type of the links, which a function that holds a door of the host has to know.
    links: PhantomData<TcpLink<TcpStream, R>>,
}

impl<R: Sockets, W: Write + Copy> Model for NotingDoor<R, W> {
    ghost use Rattle.idx_real.specs.DoorState.{DoorState};

    ghost Value = { DoorState };

    ghost view = { λ s. s.door };
}

impl<R: Sockets, W: Write + Copy> NotingDoor<R, W> {
    /// The door, which says so here.
    pub fn new(door: TcpDoor<R>, notes: Option<Notes<W>>) -> NotingDoor<R, W>
        ensures { result ≡ door }
    {
        NotingDoor {
            door,
            notes,
            links: PhantomData,
        }
    }

    /// The last fault, with the address and the reason; `None` exactly where no fault was counted.
    pub fn last_fault(&self) -> Option<Fault<'_>>
        ensures path { IfSome result (λ fault. fault.path.now ≡ self.now.address) }
        ensures reason { option_map (λ fault. fault.reason) result ≡ self.now.faults.last }
        ensures some { IsSome result ↔ (0 < self.now.faults.count) }
    {
        self.door.last_fault()
    }

    /// Says why no link was handed out.
    fn say(&self) {
        if let (Some(notes), Some(fault)) = (&self.notes, self.door.last_fault())
            && self.door.listens()
        {
            notes.worker_ended(fault);
        }
    }
}

impl<R: Sockets, W: Write + Copy> Door for NotingDoor<R, W> {
    type Link = TcpLink<TcpStream, R>;

    ghost told = { λ _. None };

    ghost faults = { λ s. s.faults.count };

    fn accept(&mut self) -> Result<Option<TcpLink<TcpStream, R>>, Outage>
        ensures none { IfOk result (λ next. IsNone next ↔ (self.old.left ≡ Some 0)) }
        ensures ended { self.old.left ≡ Some 0 → IsOk result }
        ensures fresh { IfOk result (λ next. IfSome next (λ link. link.faults ≡ no_faults)) }
        ensures unread { IfOk result (λ next. IfSome next (λ link. link.left ≡ most_read)) }
        ensures address { self.new.address ≡ self.old.address }
        ensures left { self.new.left ≡ (if is_ok result then one_less self.old.left else self.old.left) }
        ensures quiet { OnOk result (self.new.faults ≡ self.old.faults) }
        ensures err { OnErr result (self.new.faults.count ≡ counted self.old.faults.count) }
        ensures count { NeverFalls self.old.faults.count self.new.faults.count }
        ensures cause { OnErr result (Rose self.old.faults.count self.new.faults.count) }
    {
        match self.door.accept() {
            Ok(next) => Ok(next),
            Err(outage) => {
                self.say();
                Err(outage)
            }
        }
    }

    fn finish(&mut self, link: TcpLink<TcpStream, R>, served: Vec<Served>)
        ensures { self.new ≡ self.old }
    {
        self.door.finish(link, served);
    }

    fn faults(&self) -> u64 {
        self.door.faults()
    }
}
