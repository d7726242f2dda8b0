// The streams and the lookup tables that the rows know: the default stream, `audit`, `off`, which is paused, `z` and `Payments`; and a
// table `t` with `v` for `k` and nothing for `e`, and `owners` with `ann` for `web-1` and `bea` for `pay-2`.

use gl_base::{Items, Text};
use gl_lookup::LookupTable;
use gl_streams::Stream;
use std::alloc::{AllocError, Global};
use std::collections::BTreeMap;

fn stream(alloc: Global, id: u64, name: &str, paused: bool) -> Result<Stream, AllocError> {
    Ok(Stream {
        id,
        name: Text::from_str(alloc, name)?,
        index_set: Text::from_str(alloc, "graylog")?,
        any: false,
        remove_from_default: false,
        paused,
        rules: Items::new(alloc),
    })
}

pub fn streams(alloc: Global) -> Result<Vec<Stream>, AllocError> {
    let mut all = Vec::new(alloc);
    all.push(stream(alloc, 1, "Default", false)?)?;
    all.push(stream(alloc, 2, "audit", false)?)?;
    all.push(stream(alloc, 3, "off", true)?)?;
    all.push(stream(alloc, 26, "z", false)?)?;
    all.push(stream(alloc, 27, "Payments", false)?)?;
    Ok(all)
}

fn table(alloc: Global, csv: &str) -> Result<LookupTable, AllocError> {
    match LookupTable::from_csv(alloc, csv, "k", "v") {
        Ok(table) => Ok(table),
        Err(_) => Err(AllocError),
    }
}

pub fn tables(alloc: Global) -> Result<BTreeMap<String, LookupTable>, AllocError> {
    let mut all = BTreeMap::new(alloc);
    all.insert(
        String::from_str(alloc, "t")?,
        table(alloc, "k,v\nk,v\ne,\n")?,
    )?;
    let owners = table(alloc, "k,v\nweb-1,ann\npay-2,bea\n")?;
    all.insert(String::from_str(alloc, "owners")?, owners)?;
    Ok(all)
}
