ghost use Rattle.gl_grok.specs.Answers.{Answers, answer};
ghost use Rattle.gl_grok.specs.Tables.{table_of};

use crate::GrokRefusal;
use crate::names::{first_among, first_unknown, names_met};
use crate::writing::write;
use gl_base::{Items, Text};
use std::alloc::Global;
use std::collections::BTreeMap;

/// What a pattern becomes.
#[derive(Drop)]
pub struct Expanded {
    /// A regular expression of at most 8,192 bytes.
    pub text: Text,
    /// The fields of its groups `g0`, `g1` and so on.
    pub fields: Items<Text>,
}

/// What a pattern becomes by a table of named patterns: `%{NAME}` becomes `(?:X)`, and `%{NAME:field}` becomes
/// `(?P<gN>X)`, where X is what the pattern of NAME becomes, and N counts the groups with a field by their start,
/// from 0 on. NAME is 1 to 64 letters, digits and `_`, and `field` a field name; all other text stands.
///
/// UnknownPattern comes exactly where a name that is reached isn't in the table, and has the first one that is met;
/// else Circular exactly where a name that is reached reaches itself, and has the first such one; else TooLong exactly
/// where the text would have more than 8,192 bytes. Names are met from the left, and those of a name's pattern
/// before what stands behind the name.
pub fn expand(
    alloc: Global,
    pattern: &str,
    table: &BTreeMap<String, String>,
) -> Result<Expanded, GrokRefusal>
    ensures { Answers result (answer (table_of table.now) pattern.now) }
{
    let met = names_met(alloc, pattern, table)?;
    if let Some(name) = first_unknown(met.names.as_slice(), table) {
        let name = Text::from_str(alloc, name)?;
        return Err(GrokRefusal::UnknownPattern { name });
    }
    if let Some(name) = first_among(met.names.as_slice(), met.again.as_slice()) {
        let name = Text::from_str(alloc, name)?;
        return Err(GrokRefusal::Circular { name });
    }
    write(alloc, pattern, table)
}
