ghost use Rattle.std.specs.Prelude.{◌≡◌, string_bytes};

use crate::{Reason, Sockets};
use std::marker::Model;
use std::net::{SocketAddr, TcpListener};
use std::sync::Mutex;
use std::sync::atomic::{AtomicBool, Ordering};

/// An address at which several doors listen. It is opened by the first call that needs it, and stays open. A contract
/// sees the bytes of the address.
#[derive(Drop)]
pub struct SharedListener {
    address: String,
    listener: Mutex<Option<TcpListener>>,
    /// Whether it is open.
    listens: AtomicBool,
}

impl Model for SharedListener {
    ghost use Rattle.std.specs.Prelude.{ℕ, List, string_bytes};

    ghost Value = { List ℕ };

    ghost view = { λ s. string_bytes s.address };
}

impl SharedListener {
    /// `address` is a socket address, as `127.0.0.1:8080` or `[::1]:8080`. Opens nothing yet and takes no memory.
    pub fn new(address: String) -> SharedListener
        ensures { result ≡ string_bytes address }
    {
        SharedListener {
            address,
            listener: Mutex::new(None),
            listens: AtomicBool::new(false),
        }
    }

    /// The address that was given.
    pub fn address(&self) -> &str
        ensures { result.now ≡ self.now }
    {
        self.address.as_str()
    }

    /// The address that is listened at, with the port that the system gave for port 0. What fails here is counted by no
    /// door; the first `accept` tries again.
    pub fn bind<R: Sockets>(&self, rt: &R) -> Result<SocketAddr, Reason> {
        let listener = self.handle(rt)?;
        Ok(listener.local_addr()?)
    }

    /// Whether it is open.
    pub fn listens(&self) -> bool {
        self.listens.load(Ordering::SeqCst)
    }

    /// Another handle of the listener, which is opened where it is not open yet.
    pub(crate) fn handle<R: Sockets>(&self, rt: &R) -> Result<TcpListener, Reason> {
        let mut place = self.listener.lock(rt);
        if let Some(listener) = &*place {
            return Ok(listener.try_clone()?);
        }
        let listener = rt.bind(self.socket_address()?)?;
        let handle = listener.try_clone()?;
        *place = Some(listener);
        self.listens.store(true, Ordering::SeqCst);
        Ok(handle)
    }

    fn socket_address(&self) -> Result<SocketAddr, Reason> {
        match self.address.parse::<SocketAddr>() {
            Ok(address) => Ok(address),
            Err(_) => Err(Reason::NotAddress),
        }
    }
}
