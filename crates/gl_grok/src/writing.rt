// Writing what a text becomes.
ghost use Rattle.std.specs.Prelude.{◌≡◌, ◌++◌, ◌∷◌, [], ◌+◌, ◌*◌, ◌<◌, ◌≤◌, map, length, option_map, OnOk};
ghost use Rattle.std.specs.String.{string_bytes};
ghost use Rattle.std.specs.List.{All};
ghost use Rattle.gl_grok.specs.Answers.{Answers, within};
ghost use Rattle.gl_grok.specs.Expansion.{begun, expansion};
ghost use Rattle.gl_grok.specs.Tables.{table_of};
ghost use Rattle.gl_grok.specs.Unwinding.{IsExpandable, so_far, finished};

use crate::pieces::first_percent;
use crate::table::pattern_or_empty;
use crate::{Expanded, GrokRefusal};
use gl_base::{Items, Text};
use std::alloc::{AllocError, Global};
use std::collections::BTreeMap;

/// How many bytes an expansion may have.
const MAX_TEXT: usize = 8192;

/// What was written so far, with the fields of the groups that began.
#[derive(Drop)]
pub struct Writing {
    pub text: String,
    pub fields: Vec<Text>,
}

/// Begins a group.
fn begin(alloc: Global, written: &mut Writing, field: Option<&str>) -> Result<(), AllocError>
    ensures { OnOk result (so_far written.new ≡ begun (so_far written.old) (option_map (λ s. s.now) field.entry)) }
{
    match field {
        None => written.text.push_str("(?:")?,
        Some(field) => {
            let number = written.fields.len();
            let group = format!(in alloc; "(?P<g{number}>")?;
            written.text.push_str(group.as_str())?;
            written.fields.push(Text::from_str(alloc, field)?)?;
        }
    }
    Ok(())
}

/// Writes the innermost of the rests of texts up to its first reference, whose pattern then stands inside it, or to
/// its end, which ends its group.
fn write_rest<'t>(
    alloc: Global,
    table: &'t BTreeMap<String, String>,
    written: &mut Writing,
    rests: &mut Vec<&'t str>,
    rest: &'t str,
) -> Result<(), AllocError>
    requires outer { All (IsExpandable (table_of table.now)) (map (λ s. s.now) rests.old.items) }
    requires inner { IsExpandable (table_of table.now) rest.now }
    ensures all { OnOk result (All (IsExpandable (table_of table.now)) (map (λ s. s.now) rests.new.items)) }
    ensures finished { OnOk result (finished (table_of table.now) (map (λ s. s.now) rests.new.items) (so_far written.new)
        ≡ finished (table_of table.now) (map (λ s. s.now) (rests.old.items ++ rest.entry ∷ [])) (so_far written.old)) }
    ensures less { OnOk result (length rests.new.items + 2 * length (string_bytes written.old.text) < length rests.old.items + 1 + 2 * length (string_bytes written.new.text)) }
{
    let Some(front) = first_percent(rest) else {
        written.text.push_str(rest)?;
        if !rests.is_empty() {
            written.text.push(')')?;
        }
        return Ok(());
    };
    written.text.push_str(front.before)?;
    rests.push(front.after)?;
    let Some(reference) = front.reference else {
        written.text.push('%')?;
        return Ok(());
    };
    begin(alloc, written, reference.field)?;
    rests.push(pattern_or_empty(table, reference.name))?;
    Ok(())
}

/// What a text becomes, if it is not too long. Nothing is written behind the piece that makes it too long.
pub fn write<'t>(
    alloc: Global,
    text: &'t str,
    table: &'t BTreeMap<String, String>,
) -> Result<Expanded, GrokRefusal>
    requires { IsExpandable (table_of table.now) text.now }
    ensures { Answers result (within (expansion (table_of table.now) text.now)) }
{
    let mut written = Writing {
        text: String::new(alloc),
        fields: Vec::new(alloc),
    };
    let mut rests = Vec::new(alloc);
    rests.push(text)?;
    while let Some(rest) = rests.pop() {
        write_rest(alloc, table, &mut written, &mut rests, rest)?;
        if written.text.len() > MAX_TEXT {
            return Err(GrokRefusal::TooLong);
        }
    }
    Ok(Expanded {
        text: Text::from_string(written.text),
        fields: Items::from_vec(written.fields),
    })
}
