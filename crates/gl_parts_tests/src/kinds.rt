// The kinds in memory fail at their listed calls alone.
ghost use Rattle.std.specs.Prelude.{◌≡◌, ◌≤◌, length, IfOk};

use gl_base::{Items, Text};
use gl_outside::{
    Clock, Delivery, Disk, FreeGate, Gate, LONGEST_DATAGRAM, Link, ListClock, MemoryDisk,
    MemoryLink, MemorySink, MemorySource, Outside, Received, Sink, Source,
};
use std::alloc::{AllocError, Global};
use std::collections::VecDeque;
use std::test::*;

// Whether the source's next answers are these.
fn reads_all(source: &mut MemorySource, into: &mut [u8], wants: &[Result<usize, Outside>]) -> bool {
    for want in wants {
        if source.read(into) != *want {
            return false;
        }
    }
    true
}

// Whether the sink's next answers to these bytes are these.
fn takes_all(sink: &mut MemorySink, bytes: &[u8], wants: &[Result<usize, Outside>]) -> bool {
    for want in wants {
        if sink.write(bytes) != *want {
            return false;
        }
    }
    true
}

#[test]
fn a_source_and_a_sink_fail_where_listed(rt: HostRuntime) -> Result<(), Fail> {
    let alloc = rt.alloc();
    let mut source = MemorySource::new(b"abcde", 2, &[2, 5]);
    let mut into = [0u8; 8];
    let failed = Err(Outside::Failed);
    let wants = [Ok(2), failed, Ok(2), Ok(1), failed, Ok(0)];
    assert!(rt; reads_all(&mut source, &mut into, &wants) && source.faults() == 2);
    let mut sink = MemorySink::new(alloc, 3, Vec::from_slice(alloc, &[1, 3])?);
    let wants = [failed, Ok(3), failed, Ok(3)];
    assert!(rt; takes_all(&mut sink, b"abcd", &wants));
    assert!(rt; sink.bytes() == b"abcabc".as_slice() && sink.faults() == 2);
    Ok(())
}

#[test]
fn a_memory_disk_fails_where_listed(rt: HostRuntime) -> Result<(), Fail> {
    let alloc = rt.alloc();
    let mut disk = MemoryDisk::new(alloc, Vec::from_slice(alloc, &[4, 6])?)?;
    assert!(rt; disk.length(7) == Ok(0));
    assert!(rt; disk.write_at(7, 0, b"abc") == Ok(()));
    assert!(rt; disk.sync(7) == Ok(()));
    assert!(rt; disk.sync(7) == Err(Outside::Failed));
    assert!(rt; disk.cut(7, 2) == Ok(()));
    assert!(rt; disk.write_at(7, 0, b"x") == Err(Outside::Failed));
    assert!(rt; disk.length(7) == Ok(2) && disk.bytes(7) == b"ab".as_slice() && disk.faults() == 2);
    Ok(())
}

// Room of so many bytes. Its length alone is told: no proof is to look at each of them.
fn room(alloc: Global, size: usize) -> Result<Vec<u8>, AllocError>
    ensures { IfOk result (λ v. length v.items ≡ size) }
{
    Vec::from_elem(alloc, 0u8, size)
}

// Whether the link's next answers are these.
fn gives_all(link: &mut MemoryLink, into: &mut [u8], wants: &[Result<Received, Outside>]) -> bool
    requires { 65535 ≤ length into.old }
{
    for want in wants {
        if link.recv(into) != *want {
            return false;
        }
    }
    true
}

#[test]
fn a_link_fails_where_listed(rt: HostRuntime) -> Result<(), Fail> {
    let alloc = rt.alloc();
    let mut items = VecDeque::new(alloc);
    items.push_back(Delivery::Datagram {
        peer: Text::from_str(alloc, "10.0.0.7")?,
        bytes: Items::from_slice(alloc, b"abc")?,
    })?;
    items.push_back(Delivery::Quiet)?;
    let mut link = MemoryLink::new(alloc, items, Vec::from_slice(alloc, &[1, 3])?);
    assert!(rt; link.peer() == "");
    let wants = [
        Err(Outside::Failed),
        Ok(Received::Datagram { length: 3 }),
        Err(Outside::Failed),
        Ok(Received::Quiet),
        Ok(Received::Closed),
        Ok(Received::Closed),
    ];
    let mut into = room(alloc, LONGEST_DATAGRAM)?;
    assert!(rt; gives_all(&mut link, into.as_mut_slice(), &wants));
    assert!(rt; into.starts_with(b"abc") && link.peer() == "10.0.0.7" && link.faults() == 2);
    Ok(())
}

#[test]
fn a_clock_stays_at_its_last_moment_and_a_gate_holds_nobody(rt: HostRuntime) {
    let mut none = ListClock::new(&[]);
    assert!(rt; none.now_ms() == 0);
    let mut clock = ListClock::new(&[5, 3]);
    assert!(rt; clock.now_ms() == 5 && clock.now_ms() == 3 && clock.now_ms() == 3);
    let mut gate = FreeGate;
    Gate::<u8, u8>::pass(&mut gate, 0, &1);
    Gate::<u8, u8>::passed(&mut gate, 0, &2);
    assert!(rt; gate == FreeGate);
}
