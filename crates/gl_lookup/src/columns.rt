// The columns of a table.
ghost use Rattle.std.specs.Prelude.{◌≡◌, length, position, option_map};
ghost use Rattle.std.specs.Str.{bytes_eq};
ghost use Rattle.csv.specs.Records.{fields_of};
ghost use Rattle.gl_lookup.specs.Tables.{column, columns_of};

use crate::rows::cell;
use csv::StringRecord;

/// How many columns there are, and those of the keys and of the values.
#[derive(Clone, Copy)]
pub struct Columns {
    pub width: usize,
    pub key: usize,
    pub value: usize,
}

/// The columns of these names, by the record that names them.
pub fn columns_of(names: &StringRecord, key: &str, value: &str) -> Option<Columns>
    ensures { result ≡ columns_of key.now value.now (fields_of names.now) }
{
    let key = column_of(names, key)?;
    let value = column_of(names, value)?;
    let width = names.len();
    Some(Columns { width, key, value })
}

/// The first column of this name.
fn column_of(names: &StringRecord, name: &str) -> Option<usize>
    ensures { result ≡ column name.now (fields_of names.now) }
{
    for at in 0..names.len() {
        if cell(names, at) == name {
            return Some(at);
        }
    }
    None
}
