ghost use Rattle.std.specs.Prelude.{◌≡◌, IfOk, OnOk};
ghost use Rattle.gl_grok.specs.Initial.{initial};
ghost use Rattle.gl_grok.specs.Tables.{table_of, with_pattern};

use std::alloc::{AllocError, Global};
use std::collections::BTreeMap;

/// Names a pattern; a name that the table has already gets this one.
pub fn name_pattern(
    alloc: Global,
    table: &mut BTreeMap<String, String>,
    name: &str,
    pattern: &str,
) -> Result<(), AllocError>
    ensures { OnOk result (table_of table.new ≡ with_pattern (table_of table.old) name.now pattern.now) }
{
    let name = String::from_str(alloc, name)?;
    let pattern = String::from_str(alloc, pattern)?;
    table.insert(name, pattern)?;
    Ok(())
}

/// The patterns that stand before any other is named: WORD, NOTSPACE, SPACE, DATA, GREEDYDATA, INT, NUMBER, IPV4 and
/// USER.
pub fn initial_patterns(alloc: Global) -> Result<BTreeMap<String, String>, AllocError>
    ensures { IfOk result (λ m. table_of m ≡ initial) }
{
    let mut table = BTreeMap::new(alloc);
    name_pattern(alloc, &mut table, "WORD", "[A-Za-z0-9_]+")?;
    name_pattern(alloc, &mut table, "NOTSPACE", "[^ ]+")?;
    name_pattern(alloc, &mut table, "SPACE", "[ ]*")?;
    name_pattern(alloc, &mut table, "DATA", ".*?")?;
    name_pattern(alloc, &mut table, "GREEDYDATA", ".*")?;
    name_pattern(alloc, &mut table, "INT", "[+-]?[0-9]+")?;
    name_pattern(alloc, &mut table, "NUMBER", "[+-]?[0-9]+(?:[.][0-9]+)?")?;
    name_pattern(alloc, &mut table, "IPV4", "(?:[0-9]{1,3}[.]){3}[0-9]{1,3}")?;
    name_pattern(alloc, &mut table, "USER", "[a-zA-Z0-9._-]+")?;
    Ok(table)
}
