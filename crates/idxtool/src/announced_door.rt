ghost use Rattle.std.specs.Prelude.{◌≡◌, ◌↔◌, ◌<◌, None, Some, IsSome, IsNone, IsOk, is_ok, IfSome, IfOk, OnOk, OnErr, option_map, if◌then◌else◌};
ghost use Rattle.idx_outside.specs.Cause.{counted, NeverFalls, Rose};
ghost use Rattle.idx_real.specs.DoorState.{one_less};
ghost use Rattle.idx_real.specs.Faults.{no_faults};
ghost use Rattle.idx_real.specs.LinkState.{most_read};

use idx_outside::{Bay, Door, Outage, Served};
use idx_progress::NotingDoor;
use idx_real::{Fault, Sockets, TcpLink};
use idx_report::Notice;
use std::io::Write;
use std::marker::{Model, PhantomData};
use std::net::TcpStream;

/// A door over TCP that says where it listens, once, before it waits for its first link; or one that shares what listens
/// with such a door, and says nothing. A contract sees the door.
#[derive(Drop)]
pub struct AnnouncedDoor<R: Sockets, B: Bay + Drop, W: Write + Copy + Drop> {
    notice: Option<Notice<R, B, W>>,
    door: NotingDoor<R, W>,
    /// The type of the links, which a function that holds a door of the host has to know.
    links: PhantomData<TcpLink<TcpStream, R>>,
}

impl<R: Sockets, B: Bay + Drop, W: Write + Copy + Drop> Model for AnnouncedDoor<R, B, W> {
    ghost use Rattle.idx_real.specs.DoorState.{DoorState};

    ghost Value = { DoorState };

    ghost view = { λ s. s.door };
}

impl<R: Sockets, B: Bay + Drop, W: Write + Copy + Drop> AnnouncedDoor<R, B, W> {
    /// The notice, where there is one, speaks of the address of the door.
    pub fn new(notice: Option<Notice<R, B, W>>, door: NotingDoor<R, W>) -> AnnouncedDoor<R, B, W>
        ensures { result ≡ door }
    {
        AnnouncedDoor {
            notice,
            door,
            links: PhantomData,
        }
    }

    /// The last fault, with the address and the reason; `None` exactly where no fault was counted.
    pub fn last_fault(&self) -> Option<Fault<'_>>
        ensures path { IfSome result (λ fault. fault.path.now ≡ self.now.address) }
        ensures reason { option_map (λ fault. fault.reason) result ≡ self.now.faults.last }
        ensures some { IsSome result ↔ (0 < self.now.faults.count) }
    {
        self.door.last_fault()
    }
}

impl<R: Sockets, B: Bay + Drop, W: Write + Copy + Drop> Door for AnnouncedDoor<R, B, W> {
    type Link = TcpLink<TcpStream, R>;

    ghost told = { λ _. None };

    ghost faults = { λ s. s.faults.count };

    /// As the door does. The first call says before it where the door listens, if it does.
    fn accept(&mut self) -> Result<Option<TcpLink<TcpStream, R>>, Outage>
        ensures none { IfOk result (λ next. IsNone next ↔ (self.old.left ≡ Some 0)) }
        ensures ended { self.old.left ≡ Some 0 → IsOk result }
        ensures fresh { IfOk result (λ next. IfSome next (λ link. link.faults ≡ no_faults)) }
        ensures unread { IfOk result (λ next. IfSome next (λ link. link.left ≡ most_read)) }
        ensures address { self.new.address ≡ self.old.address }
        ensures left { self.new.left ≡ (if is_ok result then one_less self.old.left else self.old.left) }
        ensures quiet { OnOk result (self.new.faults ≡ self.old.faults) }
        ensures err { OnErr result (self.new.faults.count ≡ counted self.old.faults.count) }
        ensures count { NeverFalls self.old.faults.count self.new.faults.count }
        ensures cause { OnErr result (Rose self.old.faults.count self.new.faults.count) }
    {
        if let Some(mut notice) = self.notice.take() {
            notice.give();
        }
        self.door.accept()
    }

    fn finish(&mut self, link: TcpLink<TcpStream, R>, served: Vec<Served>)
        ensures { self.new ≡ self.old }
    {
        self.door.finish(link, served);
    }

    fn faults(&self) -> u64 {
        self.door.faults()
    }
}
