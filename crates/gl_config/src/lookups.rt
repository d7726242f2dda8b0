// The commands on lookup tables.
ghost use Rattle.std.specs.Prelude.{◌≡◌, ◌-◌, ◌<◌, ◌^◌, None, Ok, IfOk, IfErr, OnOk};
ghost use Rattle.gl_lookup.specs.Rows.{rows_of};
ghost use Rattle.gl_lookup.specs.Tables as lookup;
ghost use Rattle.gl_settings.specs.Limits.{Refuses};
ghost use Rattle.gl_config.specs.Next.{with_lookup, behind};
ghost use Rattle.gl_config.specs.Applying.{name_cause, lookup_refusal, Makes};

use crate::known::has_lookup;
use crate::own::Own;
use crate::texts::table_in;
use gl_base::Text;
use gl_lookup::LookupTable;
use gl_settings::{ConfigRefusal, Parts, copy_tables, is_short_name, name_table};
use std::alloc::{AllocError, Global};

/// A text of comma-separated records, and the columns of keys and values.
#[derive(Clone, Copy)]
pub struct Columns<'a> {
    pub csv: &'a Text,
    pub key: &'a Text,
    pub value: &'a Text,
}

#[tactic(auto, using(crate::proofs::Refusing::refuses_first, crate::proofs::Refusing::refuses_later, crate::proofs::Refusing::none_both))]
fn refuse_name(own: Own, name: &Text, is_there: bool) -> Result<(), ConfigRefusal>
    ensures ok { OnOk result (name_cause own name.now is_there ≡ None) }
    ensures err { IfErr result (Refuses (name_cause own name.now is_there)) }
{
    if !is_short_name(name.as_str()) {
        return Err(ConfigRefusal::BadName);
    }
    own.check(is_there)
}

fn with_table(
    parts: &Parts,
    alloc: Global,
    name: &Text,
    table: LookupTable,
) -> Result<Parts, AllocError>
    requires { parts.now.version < 2 ^ 64 - 1 }
    ensures { IfOk result (λ next. next ≡ behind parts.now (with_lookup parts.now name.now (Ok table))) }
{
    let mut lookups = copy_tables(alloc, parts.lookups())?;
    name_table(alloc, &mut lookups, name.as_str(), table)?;
    parts.next()?.with_lookups(alloc, lookups)
}

/// A lookup table more, or another in the place of one.
#[tactic(auto, using(crate::proofs::Refusing::refuses_first, crate::proofs::Refusing::refuses_later, crate::proofs::Refusing::none_both))]
pub fn put_table(
    parts: &Parts,
    alloc: Global,
    own: Own,
    name: &Text,
    columns: &Columns<'_>,
) -> Result<Parts, ConfigRefusal>
    requires { parts.now.version < 2 ^ 64 - 1 }
    ensures ok { IfOk result (Makes (lookup_refusal own parts.now name.now columns.now.csv.now columns.now.key.now columns.now.value.now) (behind parts.now (with_lookup parts.now name.now (lookup.table_of columns.now.key.now columns.now.value.now (rows_of columns.now.csv.now))))) }
    ensures err { IfErr result (Refuses (lookup_refusal own parts.now name.now columns.now.csv.now columns.now.key.now columns.now.value.now)) }
{
    refuse_name(own, name, has_lookup(parts, name))?;
    let table = table_in(alloc, columns.csv, columns.key, columns.value)?;
    Ok(with_table(parts, alloc, name, table)?)
}
