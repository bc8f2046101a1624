use std::net::{Net, TcpListener, TcpStream};
use std::sync::Wait;
use std::time::Clock;

/// What doors over TCP ask of the runtime: sockets of the system, a clock, and leave to wait for one another where
/// several open one listener.
pub trait Sockets: Net<Listener = TcpListener, Stream = TcpStream> + Clock + Wait + Copy {}

impl<R: Net<Listener = TcpListener, Stream = TcpStream> + Clock + Wait + Copy> Sockets for R {}
