// Whether two configurations are equal.
ghost use Rattle.std.specs.Prelude.{◌≡◌, ◌≢◌, ◌↔◌, ◌∷◌, ℕ, List, IsTrue, MatchBool};
ghost use Rattle.gl_lookup.specs.Tables.{Pair};
ghost use Rattle.gl_settings.specs.Settings.{tables_of};
ghost use Rattle.gl_history.specs.Entries.{entries_of};

use gl_config::Config;
use gl_lookup::LookupTable;
use gl_settings::{are_same, same_connections};
use std::collections::BTreeMap;
use std::collections::btree_map::Iter;

/// Whether both configurations are equal. It takes no memory.
pub fn same_configs(config: &Config, other: &Config) -> bool
    ensures { IsTrue result ↔ (config.now ≡ other.now) }
{
    config.version() == other.version()
        && are_same(config.inputs(), other.inputs())
        && are_same(config.index_sets(), other.index_sets())
        && are_same(config.streams(), other.streams())
        && are_same(config.rules(), other.rules())
        && are_same(config.pipelines(), other.pipelines())
        && same_connections(config.connections(), other.connections())
        && same_tables(config.lookups(), other.lookups())
        && same_groks(config, other)
        && are_same(config.users(), other.users())
}

/// Whether both have the same named patterns.
fn same_groks(config: &Config, other: &Config) -> bool
    ensures { IsTrue result ↔ (config.now.groks ≡ other.now.groks) }
{
    config.groks() == other.groks()
}

/// Whether both have equal tables under the same names.
fn same_tables(
    tables: &BTreeMap<String, LookupTable>,
    others: &BTreeMap<String, LookupTable>,
) -> bool
    ensures { IsTrue result ↔ (tables_of tables.now ≡ tables_of others.now) }
{
    let mut rest = others.iter();
    for (name, table) in tables {
        if !comes_next(&mut rest, name.as_str(), table) {
            return false;
        }
    }
    rest.next().is_none()
}

/// Takes the next entry off, and answers whether it is an equal table under this name.
fn comes_next(rest: &mut Iter<'_, String, LookupTable>, name: &str, table: &LookupTable) -> bool
    ensures { MatchBool result (entries_of rest.old ≡ (name.now, table.now) ∷ entries_of rest.new)
        ((more : List (List ℕ × List Pair)) → entries_of rest.old ≢ (name.now, table.now) ∷ more) }
{
    match rest.next() {
        Some((other, value)) => other.as_str() == name && table.same(value),
        None => false,
    }
}
