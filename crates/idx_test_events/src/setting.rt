//! What a world is made of, and what happens in it, as the rows of a table say it one after another.
use idx_events::Event;
use idx_header::Header;
use idx_outside::Bytes;
use idx_plan::Ask;
use std::alloc::Global;

/// A dataset, how it is divided, its volumes with their timesteps, the questions and the events, and whether the written files
/// are printed too.
#[derive(Drop)]
pub struct Setting {
    pub header: Option<Header>,
    pub ranks: u32,
    pub cache: u32,
    pub volumes: Vec<(u64, Bytes)>,
    pub asks: Vec<Ask>,
    pub events: Vec<Event>,
    pub files: bool,
}

impl Setting {
    /// No dataset yet, one rank, a cache of one block, and nothing in them.
    pub fn new(alloc: Global) -> Setting {
        Setting {
            header: None,
            ranks: 1,
            cache: 1,
            volumes: Vec::new(alloc),
            asks: Vec::new(alloc),
            events: Vec::new(alloc),
            files: false,
        }
    }
}
