// Logs that are full say so, and what doesn't go in waits.
use gl_node::{Arrival, Claimed, Finished, Node, Options, stage_range};
use gl_outside::MemoryDisk;
use std::test::Fail;

// The journal of 77 bytes, with `hello` in it, takes no batch of 5,047 bytes within 4,096.
#[test]
fn a_full_journal_says_so(rt: HostRuntime) -> Result<(), Fail> {
    let alloc = rt.alloc();
    let mut disk = MemoryDisk::new(alloc, Vec::new(alloc))?;
    let options = Options {
        segment: 67_108_864,
        journal_limit: 4096,
        index_limit: 4096,
    };
    let mut node = Node::open(alloc, &mut disk, options)?;
    let first = node.datagram(&mut disk, 1000, "raw", "10.0.0.7", b"hello")?;
    assert!(rt; first == Arrival::Journalled { position: 0 });
    let long = [b'x'; 5000];
    let second = node.datagram(&mut disk, 1000, "raw", "10.0.0.7", &long)?;
    assert!(rt;
        second
            == Arrival::JournalFull {
                bytes: 77,
                limit: 4096
            }
    );
    assert!(rt; node.journalled() == 1);
    Ok(())
}

// The index log of 25 bytes takes no outcome with 5,000 bytes of text within 4,096; the work waits.
#[test]
fn a_full_index_log_says_so(rt: HostRuntime) -> Result<(), Fail> {
    let alloc = rt.alloc();
    let mut disk = MemoryDisk::new(alloc, Vec::new(alloc))?;
    let options = Options {
        segment: 67_108_864,
        journal_limit: 1 << 36,
        index_limit: 4096,
    };
    let mut node = Node::open(alloc, &mut disk, options)?;
    let long = [b'x'; 5000];
    let arrival = node.datagram(&mut disk, 1000, "raw", "10.0.0.7", &long)?;
    assert!(rt; arrival == Arrival::Journalled { position: 0 });
    let Claimed::Range(range) = node.claim(63, 256)? else {
        return Err("a range was free".into());
    };
    assert!(rt; range.entries.len() == 1);
    let Ok(work) = stage_range(alloc, range) else {
        return Err("memory was ample".into());
    };
    let finished = node.finish(&mut disk, 63, work)?;
    assert!(rt;
        finished
            == Finished::IndexFull {
                bytes: 25,
                limit: 4096
            }
    );
    assert!(rt; node.committed() == 0);
    Ok(())
}
