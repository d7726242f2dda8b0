ghost use Rattle.std.specs.Prelude.{◌≡◌, option_map};
ghost use Rattle.gl_grok.specs.Tables.{table_of, pattern_in, pattern_of};

use std::collections::BTreeMap;

/// The pattern of a name.
pub fn pattern<'t>(table: &'t BTreeMap<String, String>, name: &str) -> Option<&'t str>
    ensures { option_map (λ s. s.now) result ≡ pattern_in (table_of table.now) name.now }
{
    match table.get(name) {
        Some(pattern) => Some(pattern.as_str()),
        None => None,
    }
}

/// The pattern of a name, or no text where the table hasn't the name.
pub fn pattern_or_empty<'t>(table: &'t BTreeMap<String, String>, name: &str) -> &'t str
    ensures { result.now ≡ pattern_of (table_of table.now) name.now }
{
    match pattern(table, name) {
        Some(pattern) => pattern,
        None => "",
    }
}
