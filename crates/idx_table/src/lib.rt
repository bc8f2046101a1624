//! The table of blocks at the head of each file of a dataset: where in the file each block stands.
#![tactic(auto)]

mod examples;
mod laws;
mod row;
mod table;
mod table_fault;

pub use examples::{worked_rows, worked_tables};
pub use laws::{first_faults_are_first, rows_read_back, tables_read_back};
pub use row::{ABSENT, RAW, ROW_BYTES, ROW_MAJOR, Row, read_row, write_row};
pub use table::{Table, table_bytes};
pub use table_fault::{TableFault, TableKind};
