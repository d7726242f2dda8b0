// Maps of texts: the lookup tables and the named patterns of grok.
ghost use Rattle.std.specs.Prelude.{◌≡◌, is_some, IfOk, OnOk};
ghost use Rattle.std.specs.Map.{lookup};
ghost use Rattle.std.specs.Str.{bytes_eq};
ghost use Rattle.std.specs.BTreeMap.{insert_entry};
ghost use Rattle.std.specs.Ordering.{nat_cmp};
ghost use Rattle.std.specs.Cmp.Lexicographic.{slice_cmp};
ghost use Rattle.gl_grok.specs.Tables.{table_of, is_known};
ghost use Rattle.gl_settings.specs.Settings.{tables_of};

use gl_lookup::LookupTable;
use std::alloc::{AllocError, Global};
use std::collections::BTreeMap;

/// Whether a lookup table has this name.
pub fn has_table(tables: &BTreeMap<String, LookupTable>, name: &str) -> bool
    ensures { result ≡ is_some (lookup (λ key. bytes_eq name.now key) (tables_of tables.now)) }
{
    match tables.get(name) {
        Some(_) => true,
        None => false,
    }
}

/// Gives a name to a lookup table, which takes the place of the one of its name. After an error nothing is known of the map.
pub fn name_table(
    alloc: Global,
    tables: &mut BTreeMap<String, LookupTable>,
    name: &str,
    table: LookupTable,
) -> Result<(), AllocError>
    ensures { OnOk result (tables_of tables.new ≡ insert_entry (slice_cmp nat_cmp) (tables_of tables.old) name.now table) }
{
    let name = String::from_str(alloc, name)?;
    tables.insert(name, table)?;
    Ok(())
}

/// Equal lookup tables, which share what they hold.
pub fn copy_tables(
    alloc: Global,
    tables: &BTreeMap<String, LookupTable>,
) -> Result<BTreeMap<String, LookupTable>, AllocError>
    ensures { IfOk result (λ copies. tables_of copies ≡ tables_of tables.now) }
{
    let mut copies = BTreeMap::new(alloc);
    for (name, table) in tables {
        name_table(alloc, &mut copies, name.as_str(), table.copy()?)?;
    }
    Ok(copies)
}

/// Whether a pattern of grok has this name.
pub fn has_pattern(groks: &BTreeMap<String, String>, name: &str) -> bool
    ensures { result ≡ is_known (table_of groks.now) name.now }
{
    match groks.get(name) {
        Some(_) => true,
        None => false,
    }
}

/// Equal patterns under the same names.
pub fn copy_patterns(
    groks: &BTreeMap<String, String>,
) -> Result<BTreeMap<String, String>, AllocError>
    ensures { IfOk result (λ copies. table_of copies ≡ table_of groks.now) }
{
    groks.clone()
}
