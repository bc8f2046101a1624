//! Laws of the definitions: where each file of a timestep agrees with some volume, one volume agrees with them all.
#![tactic(auto)]

mod laws;

pub use laws::{
    complete_docks_write_some_volume, files_make_one_volume, volumes_have_raws,
    volumes_join_by_files,
};
