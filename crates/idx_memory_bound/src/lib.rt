//! Laws: what is read of a batch of pieces has no more bytes than the room, or is of one piece; and how many bytes the files
//! have that are begun and not complete.
#![tactic(auto)]

mod laws;

pub use laws::{
    batches_fit_into_the_room, begun_files_take_no_more_than_was_counted,
    begun_files_take_what_was_counted, parcelled_pieces_fit_into_the_room,
    parcels_take_as_their_piece,
};
