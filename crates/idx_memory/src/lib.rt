//! What lies outside, in memory: files, outputs and connections that fail at chosen calls and tell what they hold, and
//! ones that never fail and tell nothing, but for the bytes of a source.
#![tactic(auto)]

mod fault_script;
mod files;
mod hold_gate;
mod input;
mod mem_bay;
mod mem_door;
mod mem_draft;
mod mem_leaf;
mod mem_link;
mod mem_reader;
mod mem_sink;
mod mem_source;
mod range;
mod reads;
mod sure_bay;
mod sure_door;
mod sure_draft;
mod sure_leaf;
mod sure_link;
mod sure_reader;
mod sure_sink;
mod sure_source;

pub use hold_gate::HoldGate;
pub use mem_bay::MemBay;
pub use mem_door::MemDoor;
pub use mem_draft::MemDraft;
pub use mem_leaf::MemLeaf;
pub use mem_link::MemLink;
pub use mem_reader::MemReader;
pub use mem_sink::MemSink;
pub use mem_source::MemSource;
pub use sure_bay::SureBay;
pub use sure_door::SureDoor;
pub use sure_draft::SureDraft;
pub use sure_leaf::SureLeaf;
pub use sure_link::SureLink;
pub use sure_reader::SureReader;
pub use sure_sink::SureSink;
pub use sure_source::SureSource;
