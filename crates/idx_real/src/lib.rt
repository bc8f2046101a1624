//! What lies outside, for real: a file as input, standard output, the folder of a header file with the files that are
//! written there and read again, and listening sockets over TCP with their connections.
#![tactic(auto)]

mod fault;
mod fault_log;
mod file_draft;
mod file_leaf;
mod file_reader;
mod file_source;
mod folder_bay;
mod fresh_name;
mod header_file;
mod local_disk;
mod lock;
mod opened;
mod patience;
mod pauses;
mod placed;
mod refusal;
mod regular_file;
mod shared_listener;
mod sockets;
mod stage;
mod std_sink;
mod step_folder;
mod tcp_door;
mod tcp_link;

pub use fault::{Fault, Reason};
pub use file_draft::FileDraft;
pub use file_leaf::FileLeaf;
pub use file_reader::FileReader;
pub use file_source::FileSource;
pub use folder_bay::{FolderBay, HEADER_READ};
pub use lock::Lockable;
pub use patience::Patience;
pub use placed::read_range;
pub use shared_listener::SharedListener;
pub use sockets::Sockets;
pub use std_sink::StdSink;
pub use tcp_door::{TcpDoor, accept_link};
pub use tcp_link::TcpLink;
