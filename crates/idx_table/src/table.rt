ghost use Rattle.std.specs.Prelude.{◌≡◌, ◌≢◌, ◌↔◌, ℕ, ◌+◌, ◌*◌, ◌/◌, ◌%◌, ◌^◌, ◌<◌, ◌≤◌, min, length, slice_index, slice_get, Some, None, Err, IfOk, IfErr};
ghost use Rattle.idx_table.specs.Table.{table_bytes, row_at, rows_of, field_of, is_outside, fault_in, kind_of_row, first_fault};
ghost use Rattle.idx_table.specs.declared.table_fault.TableFault.{TableFault};

use crate::row::{RAW, ROW_BYTES, ROW_MAJOR, Row, row_in};
use crate::table_fault::{TableFault, TableKind};
use idx_outside::NoMemory;
use std::alloc::Global;
use std::marker::Model;

/// How many bytes a row has.
const ROW: u64 = ROW_BYTES as u64;

/// The table of the blocks of a file, seen as its rows: field after field, and within a field block after block.
#[derive(Debug, Drop)]
pub struct Table {
    rows: Vec<Row>,
}

impl Model for Table {
    ghost use Rattle.std.specs.Prelude.{List};
    ghost use Rattle.idx_table.specs.declared.row.Row.{Row};

    ghost Value = { List Row };

    ghost view = { λ t. t.rows.items };
}

impl Table {
    /// The table of so many rows, from the first bytes of a file: `front` goes to the table's end or to the file's end.
    /// `block` has the bytes of a block of each field, and `len` is the file's length in bytes. The first faulty row is
    /// answered, with the first of the kinds that applies to it. Memory is taken only for a table without a faulty row.
    pub fn read(
        alloc: Global,
        front: &[u8],
        rows: u64,
        block: &Vec<u64>,
        len: u64,
    ) -> Result<Table, TableFault>
        requires fields { 1 ≤ length block.now.items }
        requires whole { rows % length block.now.items ≡ 0 }
        requires front { min (table_bytes rows) len ≤ length front.now }
        ensures ok { IfOk result (λ table. (table ≡ rows_of front.now rows)
            × (first_fault front.now rows block.now.items len ≡ None)) }
        ensures fault { IfErr result (λ fault. fault.kind ≢ TableKind.NoMemory →
            first_fault front.now rows block.now.items len ≡ Some fault) }
        ensures refused { (fault : TableFault) →
            first_fault front.now rows block.now.items len ≡ Some fault → result ≡ Err fault }
    {
        if let Some(fault) = first_fault(front, rows, block, len) {
            return Err(fault);
        }
        match rows_of(alloc, front, rows) {
            Ok(rows) => Ok(Table { rows }),
            Err(NoMemory) => Err(TableFault {
                row: 0,
                kind: TableKind::NoMemory,
            }),
        }
    }

    /// The table of rows, without another look at them. Takes no memory.
    pub fn of_rows(rows: Vec<Row>) -> Table
        ensures { result ≡ rows.items }
    {
        Table { rows }
    }

    /// The rows of the table. Takes no memory.
    pub fn into_rows(self) -> Vec<Row>
        ensures { result.items ≡ self }
    {
        let Table { rows } = self;
        rows
    }

    /// How many rows there are.
    pub fn rows(&self) -> u64
        ensures { result ≡ length self.now }
    {
        self.rows.len() as u64
    }

    /// The row with this number, counted from 0. Takes no memory.
    pub fn row(&self, i: u64) -> Row
        requires { i < length self.now }
        ensures { slice_get self.now i ≡ Some result }
    {
        self.rows[i as usize]
    }
}

/// The fault of the first faulty row, if there is one.
fn first_fault(front: &[u8], rows: u64, block: &Vec<u64>, len: u64) -> Option<TableFault>
    requires fields { 1 ≤ length block.now.items }
    requires whole { rows % length block.now.items ≡ 0 }
    requires front { min (table_bytes rows) len ≤ length front.now }
    ensures { result ≡ first_fault front.now rows block.now.items len }
{
    for row in 0..rows {
        if let Some(kind) = kind_of_row(front, rows, block, len, row) {
            return Some(TableFault { row, kind });
        }
    }
    None
}

/// What is wrong with a row, if anything.
fn kind_of_row(front: &[u8], rows: u64, block: &Vec<u64>, len: u64, i: u64) -> Option<TableKind>
    requires fields { 1 ≤ length block.now.items }
    requires whole { rows % length block.now.items ≡ 0 }
    requires front { min (table_bytes rows) len ≤ length front.now }
    requires row { i < rows }
    ensures { result ≡ kind_of_row front.now rows block.now.items len i }
{
    if i >= whole_rows(len) {
        return Some(TableKind::CutShort);
    }
    let field = field_of(rows, block.len() as u64, i);
    fault_in(rows, block[field as usize], len, &row_at(front, i))
}

/// How many bytes a table of so many rows has.
pub fn table_bytes(rows: u64) -> u64
    requires { rows ≤ 2 ^ 48 }
    ensures { result ≡ table_bytes rows }
{
    ROW + ROW * rows
}

/// How many rows of a table stand whole in a file of so many bytes.
fn whole_rows(len: u64) -> u64
    ensures { (i : ℕ) → (i < result) ↔ (table_bytes (i + 1) ≤ len) }
{
    len.saturating_sub(ROW) / ROW
}

/// The field of a row.
fn field_of(rows: u64, fields: u64, i: u64) -> u64
    requires fields { 1 ≤ fields }
    requires whole { rows % fields ≡ 0 }
    requires row { i < rows }
    ensures value { result ≡ field_of rows fields i }
    ensures exists { result < fields }
{
    i / (rows / fields)
}

/// What is wrong with a row that stands whole in a file of so many bytes, if anything.
fn fault_in(rows: u64, size: u64, len: u64, row: &Row) -> Option<TableKind>
    ensures { result ≡ fault_in rows size len row.now }
{
    if row.size == 0 {
        None
    } else if row.flags != RAW && row.flags != ROW_MAJOR {
        Some(TableKind::Compressed)
    } else if u64::from(row.size) != size {
        Some(TableKind::WrongSize)
    } else if is_outside(rows, len, row) {
        Some(TableKind::OutsideFile)
    } else {
        None
    }
}

/// Whether the block of a row begins inside the table, or ends past the end of a file of so many bytes.
fn is_outside(rows: u64, len: u64, row: &Row) -> bool
    ensures { result ≡ is_outside rows len row.now }
{
    let is_in_table = row.offset / ROW <= rows;
    is_in_table || row.offset > len || u64::from(row.size) > len - row.offset
}

/// Row i of the table with which a file begins.
fn row_at(front: &[u8], i: u64) -> Row
    requires { table_bytes (i + 1) ≤ length front.now }
    ensures { result ≡ row_at front.now i }
{
    let start = ROW_BYTES + ROW_BYTES * i as usize;
    row_in(&front[start..start + ROW_BYTES])
}

/// All of so many rows.
fn rows_of(alloc: Global, front: &[u8], rows: u64) -> Result<Vec<Row>, NoMemory>
    requires { (i : ℕ) → i < rows → table_bytes (i + 1) ≤ length front.now }
    ensures { IfOk result (λ table. table.items ≡ rows_of front.now rows) }
{
    let mut table = Vec::with_capacity(alloc, rows as usize)?;
    for i in 0..rows {
        table.push(row_at(front, i))?;
    }
    Ok(table)
}
