// A log in segments, and what is read of areas as they stand.
ghost use Rattle.std.specs.Prelude.{◌≡◌, length, IfOk};

use gl_gatelog::{GateLog, Log, LogFault};
use gl_outside::{Disk, MemoryDisk};
use std::alloc::{AllocError, Global};
use std::test::Fail;

// A record of 1,034 equal bytes: its batch has 1,047.
fn one_record(alloc: Global, byte: u8) -> Result<Vec<Vec<u8>>, AllocError>
    ensures { IfOk result (λ records. length records.items ≡ 1) }
{
    let record = Vec::from_elem(alloc, byte, 1034)?;
    let mut records = Vec::new(alloc);
    records.push(record)?;
    Ok(records)
}

// A disk with a log of five batches in segments of 4,096 bytes, and whether they got the positions from 0 on.
fn five_batches(alloc: Global) -> Result<(MemoryDisk, GateLog, bool), LogFault> {
    let mut disk = MemoryDisk::new(alloc, Vec::new(alloc))?;
    let mut log = GateLog::open(alloc, &mut disk, Log::Journal, 4096, 1 << 40)?;
    let mut in_order = true;
    for i in 0..5u64 {
        let records = one_record(alloc, i as u8)?;
        let first = log.append(&mut disk, &records)?;
        in_order = in_order && first == i;
    }
    Ok((disk, log, in_order))
}

// Whether the five batches stand where they are to stand: the fourth ends the first area, and the fifth begins the second.
fn stands(log: &GateLog) -> bool {
    if log.len() != 5 || log.bytes() != 5260 {
        return false;
    }
    log.place(3) == (0, 3166) && log.place(4) == (2, 0)
}

// Whether each record of a log is read back whole.
fn reads_back(alloc: Global, log: &mut GateLog, disk: &mut MemoryDisk) -> Result<bool, LogFault> {
    let mut record = Vec::new(alloc);
    for position in 0..5u64 {
        if position >= log.len() {
            return Ok(false);
        }
        log.read(disk, position, &mut record)?;
        if record.len() != 1034 || record.last() != Some(&(position as u8)) {
            return Ok(false);
        }
    }
    Ok(true)
}

// Five batches of 1,047 bytes, of which the fifth begins the second segment; then the log is opened again and read.
#[test]
fn a_fifth_batch_begins_a_segment(rt: HostRuntime) -> Result<(), Fail> {
    let alloc = rt.alloc();
    let (mut disk, log, in_order) = five_batches(alloc)?;
    assert!(rt; in_order && stands(&log));
    assert!(rt; disk.bytes(0).len() == 4214 && disk.bytes(2).len() == 1048);
    let mut again = GateLog::open(alloc, &mut disk, Log::Journal, 8192, 1 << 40)?;
    assert!(rt; stands(&again));
    assert!(rt; reads_back(alloc, &mut again, &mut disk)?);
    Ok(())
}

// What the first area holds, and what opening answers: how many records there are, or where it is damaged.
type Row = (&'static [u8], Result<u64, LogFault>);

const AT_0: Result<u64, LogFault> = Err(LogFault::Damaged { area: 0, at: 0 });

const AT_25: Result<u64, LogFault> = Err(LogFault::Damaged { area: 0, at: 25 });

// Most begin with a begin batch of a journal of small segments, which is 25 bytes long.
const ROWS: [Row; 11] = [
    (b"", Ok(0)),
    (b"\x01", Ok(0)),
    (b"\0\x01\x01", Ok(0)),
    (
        b"\x01\0\0\0\x01\0\0\0\x10\0\0\0\x0cGLJ\x01\0\0\0\0\0\0\x10\0\0",
        Ok(0),
    ),
    (b"\x01\0\0\0\x01\0\0\0\x10\0\0\0\x0cGLJ\x01\0\0\0", AT_0),
    // Without the gate behind it.
    (
        b"\x01\0\0\0\x01\0\0\0\x10\0\0\0\x0cGLJ\x01\0\0\0\0\0\0\x10\0",
        AT_0,
    ),
    // Of the index log.
    (
        b"\x01\0\0\0\x01\0\0\0\x10\0\0\0\x0cGLX\x01\0\0\0\0\0\0\x10\0\0",
        AT_0,
    ),
    // A segment size that is too small.
    (
        b"\x01\0\0\0\x01\0\0\0\x10\0\0\0\x0cGLJ\x01\0\0\0\0\0\0\x0f\xff\0",
        AT_0,
    ),
    // A batch of two records, the same without its gate, and one without records.
    (
        b"\x01\0\0\0\x01\0\0\0\x10\0\0\0\x0cGLJ\x01\0\0\0\0\0\0\x10\0\x01\0\0\0\x02\0\0\0\x09\0\0\0\x01a\0\0\0\0\x07",
        Ok(2),
    ),
    (
        b"\x01\0\0\0\x01\0\0\0\x10\0\0\0\x0cGLJ\x01\0\0\0\0\0\0\x10\0\x01\0\0\0\x02\0\0\0\x09\0\0\0\x01a\0\0\0\0",
        AT_25,
    ),
    (
        b"\x01\0\0\0\x01\0\0\0\x10\0\0\0\x0cGLJ\x01\0\0\0\0\0\0\x10\0\x01\0\0\0\0\0\0\0\0\0",
        AT_25,
    ),
];

// Whether opening a log over these bytes answers this.
fn opens_to(alloc: Global, bytes: &[u8], wanted: Result<u64, LogFault>) -> Result<bool, Fail> {
    let mut disk = MemoryDisk::new(alloc, Vec::new(alloc))?;
    disk.write_at(0, 0, bytes)?;
    let found = match GateLog::open(alloc, &mut disk, Log::Journal, 4096, 1 << 40) {
        Ok(log) => Ok(log.len()),
        Err(fault) => Err(fault),
    };
    Ok(found == wanted)
}

#[test]
fn areas_are_read_as_they_stand(rt: HostRuntime) -> Result<(), Fail> {
    for (bytes, wanted) in ROWS {
        assert!(rt; opens_to(rt.alloc(), bytes, wanted)?);
    }
    Ok(())
}
