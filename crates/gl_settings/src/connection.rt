// The pipelines to which streams are connected, by the streams' ids.
ghost use Rattle.std.specs.Prelude.{◌≡◌, ◌↔◌, ◌++◌, ◌∷◌, [], ℕ, List, nat_lt, filter, IfOk, OnOk, IsTrue};
ghost use Rattle.gl_settings.specs.Settings.{connected};

use gl_base::{Items, Text};
use std::alloc::{AllocError, Global};

/// The id of a stream, and the names of the pipelines that it is connected to, as they were given.
type Connection = (u64, Items<Text>);

/// Equal names.
pub fn copy_names(alloc: Global, names: &[Text]) -> Result<Items<Text>, AllocError>
    ensures { IfOk result (λ copies. copies ≡ names.now) }
{
    let mut copies = Items::new(alloc);
    for name in names {
        copies.push(name.copy()?)?;
    }
    Ok(copies)
}

/// Whether both are the same names, in the same order.
fn same_names(names: &[Text], others: &[Text]) -> bool
    ensures { IsTrue result ↔ (names.now ≡ others.now) }
{
    if names.len() != others.len() {
        return false;
    }
    for (index, name) in names.iter().enumerate() {
        if !name.same(&others[index]) {
            return false;
        }
    }
    true
}

fn same_connection(connection: &Connection, other: &Connection) -> bool
    ensures { IsTrue result ↔ (connection.now ≡ other.now) }
{
    connection.0 == other.0 && same_names(connection.1.as_slice(), other.1.as_slice())
}

/// Whether both are the same connections, in the same order.
pub fn same_connections(connections: &[Connection], others: &[Connection]) -> bool
    ensures { IsTrue result ↔ (connections.now ≡ others.now) }
{
    if connections.len() != others.len() {
        return false;
    }
    for (index, connection) in connections.iter().enumerate() {
        if !same_connection(connection, &others[index]) {
            return false;
        }
    }
    true
}

/// The connections with this list for this stream, in place of the one that it had.
pub fn connected(
    alloc: Global,
    stream: u64,
    pipelines: Items<Text>,
    connections: &[Connection],
) -> Result<Items<Connection>, AllocError>
    ensures { IfOk result (λ all. all ≡ connected stream pipelines connections.now) }
{
    let mut all = Items::new(alloc);
    for connection in connections {
        if connection.0 < stream {
            all.push(copy_connection(alloc, connection)?)?;
        }
    }
    all.push((stream, pipelines))?;
    push_behind(alloc, &mut all, stream, connections)?;
    Ok(all)
}

fn copy_connection(alloc: Global, connection: &Connection) -> Result<Connection, AllocError>
    ensures { IfOk result (λ copy. copy ≡ connection.now) }
{
    Ok((connection.0, copy_names(alloc, connection.1.as_slice())?))
}

/// The connections of later streams, at the end of these.
fn push_behind(
    alloc: Global,
    all: &mut Items<Connection>,
    stream: u64,
    connections: &[Connection],
) -> Result<(), AllocError>
    ensures { OnOk result (all.new ≡ all.old ++ filter (λ other. nat_lt stream other.0) connections.now) }
{
    for connection in connections {
        if stream < connection.0 {
            all.push(copy_connection(alloc, connection)?)?;
        }
    }
    Ok(())
}
