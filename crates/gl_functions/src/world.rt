// What rules know beside the message.
ghost use Rattle.std.specs.Prelude.{◌≡◌, find, option_copied, option_map};
ghost use Rattle.std.specs.Str.{bytes_eq};
ghost use Rattle.std.specs.Map.{lookup};
ghost use Rattle.gl_text.specs.Ids.{id_text};
ghost use Rattle.gl_functions.specs.Worlds.{known_of, stream_named, looked_up, tables_of};

use crate::asking::is_id_of;
use gl_lookup::LookupTable;
use gl_streams::Stream;
use gl_text::read_id;
use std::collections::BTreeMap;

/// The streams and lookup tables that there are.
#[derive(Clone, Copy)]
pub struct World<'a> {
    pub streams: &'a [Stream],
    /// Each table by its name.
    pub lookups: &'a BTreeMap<String, LookupTable>,
}

impl<'a> World<'a> {
    /// The stream of this id, or the one of this name where the id is empty; of several the first. It takes no memory.
    pub fn stream_named(&self, id: &str, name: &str) -> Option<&'a Stream>
        ensures { option_copied result ≡ stream_named (known_of self.now) id.now name.now }
    {
        if id.is_empty() {
            stream_called(self.streams, name)
        } else {
            stream_of_id(self.streams, id)
        }
    }

    /// What a key stands for in the table of this name. It takes no memory.
    pub fn looked_up(&self, table: &str, key: &str) -> Option<&'a str>
        ensures { option_map (λ s. s.now) result ≡ looked_up (known_of self.now) table.now key.now }
    {
        let table = table_called(self.lookups, table)?;
        table.value(key)
    }
}

fn stream_called<'s>(streams: &'s [Stream], name: &str) -> Option<&'s Stream>
    ensures { option_copied result ≡ find (λ stream. bytes_eq name.now stream.name) streams.now }
{
    let mut rest = streams;
    while let [stream, behind @ ..] = rest {
        if name == stream.name.as_str() {
            return Some(stream);
        }
        rest = behind;
    }
    None
}

fn stream_of_id<'s>(streams: &'s [Stream], id: &str) -> Option<&'s Stream>
    ensures { option_copied result ≡ find (λ stream. bytes_eq id.now (id_text stream.id)) streams.now }
{
    let wanted = read_id(id);
    let mut rest = streams;
    while let [stream, behind @ ..] = rest {
        if is_id_of(id, wanted, stream.id) {
            return Some(stream);
        }
        rest = behind;
    }
    None
}

/// The table of this name.
fn table_called<'m>(
    tables: &'m BTreeMap<String, LookupTable>,
    name: &str,
) -> Option<&'m LookupTable>
    ensures { option_copied result ≡ lookup (λ other. bytes_eq name.now other) (tables_of tables.now) }
{
    tables.get(name)
}
