//! How a volume is written by several ranks: the part of the box that each rank reads, the pieces that are put into
//! hierarchical order one by one, and what is moved between the two and the files (PIDX, Kumar et al.).
#![tactic(auto)]

mod all_pieces;
mod append;
mod assemble_parcels;
mod begun;
mod cursor;
mod digits;
mod examples;
mod filled;
mod filling;
mod joined;
mod laws;
mod parcel;
mod parcels;
mod piece;
mod piece_ids;
mod rank_parcels;
mod ranks;
mod raw_refusal;
mod reading;
mod refusal;
mod refused;
mod regions;
mod run;
mod runs;
mod sample_examples;
mod shipment;
mod why;

pub use all_pieces::pieces;
pub use assemble_parcels::assemble;
pub use digits::piece_digits;
pub use examples::{worked_addresses, worked_pieces, worked_ranks, worked_refusals};
pub use filled::Filled;
pub use laws::{pieces_divide_the_box, ranks_divide_the_box, ranks_have_their_parts};
pub use parcel::Parcel;
pub use parcels::Parcels;
pub use piece::Piece;
pub use piece_ids::piece_region;
pub use rank_parcels::read_rank;
pub use ranks::Ranks;
pub use raw_refusal::RawRefusal;
pub use refusal::{part_of, why_not};
pub use refused::Refused;
pub use regions::{rank_count, rank_region, rank_regions};
pub use run::Run;
pub use runs::Runs;
pub use sample_examples::worked_samples;
pub use shipment::Shipment;
pub use why::Why;
