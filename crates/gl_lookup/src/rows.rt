// The records of a text, one after the other.
ghost use Rattle.std.specs.Prelude.{◌≡◌, ◌∷◌, [], true, Some, IfOk};
ghost use Rattle.std.specs.Bool.{MatchBool};
ghost use Rattle.csv.specs.Records.{fields_of};
ghost use Rattle.gl_lookup.specs.Rows.{rows_of, left_of, cell, IsReading};

use csv::{Reader, ReaderBuilder, StringRecord};
use std::alloc::{AllocError, Global};

/// A reader of the records of a text, each of any number of fields.
pub fn reader_of(alloc: Global, text: &str) -> Reader<&[u8]>
    ensures reading { IsReading (λ s. Some s.now) result }
    ensures left { left_of (λ s. Some s.now) result ≡ rows_of text.now }
{
    ReaderBuilder::new()
        .has_headers(false)
        .flexible(true)
        .from_reader(alloc, text.as_bytes())
}

/// Reads the next record, where there is one.
pub fn next_row(reader: &mut Reader<&[u8]>, row: &mut StringRecord) -> Result<bool, AllocError>
    requires { IsReading (λ s. Some s.now) reader.old }
    ensures reading { IfOk result (λ found. MatchBool found (IsReading (λ s. Some s.now) reader.new) (left_of (λ s. Some s.now) reader.old ≡ [])) }
    ensures row { IfOk result (λ found. found ≡ true → left_of (λ s. Some s.now) reader.old ≡ fields_of row.new ∷ left_of (λ s. Some s.now) reader.new) }
{
    // The records are slices of memory and texts, and may have any lengths, so that only want of memory
    // is left to fail.
    let Ok(found) = reader.read_record(row) else {
        return Err(AllocError);
    };
    Ok(found)
}

/// The field at this place of a record, or nothing where it has none.
pub fn cell(row: &StringRecord, at: usize) -> &str
    ensures { result.now ≡ cell at (fields_of row.now) }
{
    match row.get(at) {
        Some(field) => field,
        None => "",
    }
}
