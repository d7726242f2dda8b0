// The names that are reached from a text.
ghost use Rattle.std.specs.Prelude.{◌≡◌, not, map, option_map, IfOk};
ghost use Rattle.std.specs.List.{find, list_any};
ghost use Rattle.std.specs.Str.{bytes_eq};
ghost use Rattle.gl_grok.specs.Names.{names_met, reaches_itself};
ghost use Rattle.gl_grok.specs.Tables.{table_of, is_known};

use crate::pieces::first_percent;
use crate::table::{pattern, pattern_or_empty};
use std::alloc::{AllocError, Global};
use std::collections::{BTreeMap, BTreeSet};

/// The names that are reached from a text, in the order in which they are met.
#[derive(Drop)]
pub struct Met<'t> {
    pub names: Vec<&'t str>,
    /// Those that were met again while their own pattern was gone into. The first of `names` that stands here is the
    /// first that reaches itself.
    pub again: Vec<&'t str>,
}

/// The names that are reached from a text. Each is gone into once.
pub fn names_met<'t>(
    alloc: Global,
    text: &'t str,
    table: &'t BTreeMap<String, String>,
) -> Result<Met<'t>, AllocError>
    ensures names { IfOk result (λ m. map (λ s. s.now) m.names.items ≡ names_met (table_of table.now) text.now) }
    ensures circular { IfOk result (λ m. find (λ name. list_any (λ other. bytes_eq name other.now) m.again.items) (map (λ s. s.now) m.names.items) ≡ find (reaches_itself (table_of table.now)) (names_met (table_of table.now) text.now)) }
{
    let mut seen = BTreeSet::new(alloc);
    let mut names = Vec::new(alloc);
    let mut again = Vec::new(alloc);
    // The rest of the text and those of the patterns that are gone into, the innermost last, and the names whose
    // patterns they are of.
    let mut rests = Vec::new(alloc);
    let mut inside = Vec::new(alloc);
    rests.push(text)?;
    while let Some(rest) = rests.pop() {
        let Some(front) = first_percent(rest) else {
            inside.pop();
            continue;
        };
        rests.push(front.after)?;
        let Some(reference) = front.reference else {
            continue;
        };
        let name = reference.name;
        if seen.insert(name)? {
            names.push(name)?;
            inside.push(name)?;
            rests.push(pattern_or_empty(table, name))?;
            continue;
        }
        if !has(inside.as_slice(), name) {
            continue;
        }
        again.push(name)?;
    }
    Ok(Met { names, again })
}

/// The first of these names that the table hasn't.
pub fn first_unknown<'t>(names: &[&'t str], table: &BTreeMap<String, String>) -> Option<&'t str>
    ensures { option_map (λ s. s.now) result ≡ find (λ name. not (is_known (table_of table.now) name)) (map (λ s. s.now) names.now) }
{
    for name in names {
        if pattern(table, name).is_none() {
            return Some(*name);
        }
    }
    None
}

fn has(names: &[&str], name: &str) -> bool
    ensures { result ≡ list_any (λ other. bytes_eq name.now other.now) names.now }
{
    names.iter().any(|other| name == *other)
}

/// The first of these names that stands among the others.
pub fn first_among<'t>(names: &[&'t str], others: &[&str]) -> Option<&'t str>
    ensures { option_map (λ s. s.now) result ≡ find (λ name. list_any (λ other. bytes_eq name other.now) others.now) (map (λ s. s.now) names.now) }
{
    for name in names {
        if has(others, name) {
            return Some(*name);
        }
    }
    None
}
