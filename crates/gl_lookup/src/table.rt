ghost use Rattle.std.specs.Prelude.{◌≡◌, ◌↔◌, [], Some, IsTrue, IfOk, OnOk, option_map};
ghost use Rattle.csv.specs.Records.{fields_of};
ghost use Rattle.gl_lookup.specs.declared.columns.Columns.{Columns};
ghost use Rattle.gl_lookup.specs.Rows.{left_of, rows_of, cell, IsReading};
ghost use Rattle.gl_lookup.specs.Tables.{pairs_of, value_of, with_pair, pair_of, table_of, taken, IsTable, Answers};

use crate::LookupRefusal;
use crate::columns::{Columns, columns_of};
use crate::rows::{cell, next_row, reader_of};
use csv::{Reader, StringRecord};
use gl_base::Joint;
use std::alloc::{AllocError, Global};
use std::collections::BTreeMap;
use std::marker::Model;

/// How many records may follow the first.
const MAX_ROWS: u64 = 10_000;

/// What each key stands for. Its copies share it.
#[derive(Drop)]
pub struct LookupTable {
    values: Joint<BTreeMap<String, String>>,
}

impl Model for LookupTable {
    ghost use Rattle.std.specs.Prelude.{List};
    ghost use Rattle.gl_lookup.specs.Tables.{Pair, pairs_of};

    ghost Value = { List Pair };

    ghost view = { λ t. pairs_of t.values };

    ghost use Rattle.gl_lookup.specs.Tables.{IsTable};

    ghost invariant = { λ t. IsTable (pairs_of t.values) };
}

impl LookupTable {
    /// The table of a text of comma-separated records (RFC 4180, each line end being CR, LF or both), of which
    /// the first names the columns. Each other record gives the value in the column `value` to the key in the
    /// column `key`; a repeated key has its last value. Of columns of one name the first counts.
    ///
    /// NoColumn comes where there is no first record or it lacks either column. Else the first record that is
    /// refused decides: BadCsv where it has another number of fields than the first, TooManyRows where it is
    /// the 10,001st behind the first.
    pub fn from_csv(
        alloc: Global,
        text: &str,
        key: &str,
        value: &str,
    ) -> Result<LookupTable, LookupRefusal>
        ensures { Answers (λ t. t) result (table_of key.now value.now (rows_of text.now)) }
    {
        let mut reader = reader_of(alloc, text);
        let mut row = StringRecord::new(alloc);
        if !next_row(&mut reader, &mut row)? {
            return Err(LookupRefusal::NoColumn);
        }
        let Some(columns) = columns_of(&row, key, value) else {
            return Err(LookupRefusal::NoColumn);
        };
        let values = take_rows(alloc, &mut reader, &mut row, columns)?;
        Ok(LookupTable {
            values: Joint::new(alloc, values)?,
        })
    }

    /// What the key stands for. It takes no memory.
    pub fn value(&self, key: &str) -> Option<&str>
        ensures { option_map (λ s. s.now) result ≡ value_of key.now self.now }
    {
        value_in(self.values.get(), key)
    }

    /// An equal table: one more owner of the same one, which takes no memory.
    pub fn copy(&self) -> Result<LookupTable, AllocError>
        ensures { IfOk result (λ t. t ≡ self.now) }
    {
        Ok(LookupTable {
            values: self.values.share()?,
        })
    }

    /// Whether both have the same keys with the same values. It takes no memory.
    pub fn same(&self, other: &LookupTable) -> bool
        ensures { IsTrue result ↔ (self.now ≡ other.now) }
    {
        are_same(self.values.get(), other.values.get())
    }
}

/// What the key stands for in a map.
fn value_in<'m>(values: &'m BTreeMap<String, String>, key: &str) -> Option<&'m str>
    ensures { option_map (λ s. s.now) result ≡ value_of key.now (pairs_of values.now) }
{
    match values.get(key) {
        Some(value) => Some(value.as_str()),
        None => None,
    }
}

fn are_same(values: &BTreeMap<String, String>, others: &BTreeMap<String, String>) -> bool
    ensures { IsTrue result ↔ (pairs_of values.now ≡ pairs_of others.now) }
{
    values == others
}

/// The values of the records that are left.
fn take_rows(
    alloc: Global,
    reader: &mut Reader<&[u8]>,
    row: &mut StringRecord,
    columns: Columns,
) -> Result<BTreeMap<String, String>, LookupRefusal>
    requires { IsReading (λ s. Some s.now) reader.old }
    ensures table { Answers pairs_of result (taken columns 1 [] (left_of (λ s. Some s.now) reader.old)) }
    ensures ordered { IfOk result (λ m. IsTable (pairs_of m)) }
{
    let mut values = BTreeMap::new(alloc);
    for number in 1..MAX_ROWS + 1 {
        if !next_row(reader, row)? {
            return Ok(values);
        }
        if row.len() != columns.width {
            return Err(LookupRefusal::BadCsv { row: number });
        }
        put(alloc, &mut values, row, columns)?;
    }
    if !next_row(reader, row)? {
        return Ok(values);
    }
    if row.len() != columns.width {
        return Err(LookupRefusal::BadCsv { row: MAX_ROWS + 1 });
    }
    Err(LookupRefusal::TooManyRows)
}

/// Gives the value of a record to its key.
fn put(
    alloc: Global,
    values: &mut BTreeMap<String, String>,
    row: &StringRecord,
    columns: Columns,
) -> Result<(), AllocError>
    ensures pairs { OnOk result (pairs_of values.new ≡ with_pair (pairs_of values.old) (pair_of columns (fields_of row.now))) }
    ensures ordered { OnOk result (IsTable (pairs_of values.new)) }
{
    let key = String::from_str(alloc, cell(row, columns.key))?;
    let value = String::from_str(alloc, cell(row, columns.value))?;
    values.insert(key, value)?;
    Ok(())
}
