// What a disk of files does with a file system, and what it tells where that fails.
use crate::memory_files::{MemoryFiles, World};
use gl_outside::{Disk, Outside};
use gl_system::FileDisk;
use std::alloc::{AllocError, Global};
use std::test::*;

fn disk<'w>(world: &'w World, alloc: Global) -> Result<FileDisk<MemoryFiles<'w>>, AllocError> {
    Ok(FileDisk::new(world.files(), alloc, String::from_str(alloc, "S")?))
}

// Begins an area, writes behind its end and over its front, and syncs.
fn work<D: Disk>(disk: &mut D, area: u32) -> Result<(), Outside> {
    if disk.length(area)? != 0 {
        disk.cut(area, 0)?;
    }
    disk.write_at(area, 0, b"hello")?;
    disk.write_at(area, 5, b" world")?;
    disk.write_at(area, 0, b"J")?;
    disk.sync(area)
}

fn reads<D: Disk>(disk: &mut D, area: u32, want: &[u8; 11]) -> bool {
    let mut found = [0u8; 11];
    disk.length(area) == Ok(11) && disk.read(area, 0, &mut found) == Ok(()) && &found == want
}

#[test]
fn what_is_synced_is_on_the_device_with_its_name(rt: HostRuntime) -> Result<(), Fail> {
    let world = World::new(rt.alloc(), 4)?;
    let mut disk = disk(&world, rt.alloc())?;
    // A read and a write that move one byte at a time are made again until all is done.
    for most in [usize::MAX, 3, 1] {
        world.move_at_most(most);
        for (area, number) in [(2, 2), (0, 0)] {
            assert!(rt; work(&mut disk, area) == Ok(()) && world.keeps(number, b"Jello world"));
            assert!(rt; reads(&mut disk, area, b"Jello world"));
        }
    }
    assert!(rt; disk.length(3) == Ok(0) && disk.sync(3) == Ok(()) && !world.keeps(3, b""));
    assert!(rt; disk.faults() == 0 && disk.first_fault().is_none());
    Ok(())
}

#[test]
fn each_call_that_fails_is_told(rt: HostRuntime) -> Result<(), Fail> {
    let mut past = 0;
    for number in 1..100 {
        let world = World::new(rt.alloc(), 1)?;
        let mut disk = disk(&world, rt.alloc())?;
        world.fail(number);
        let told = work(&mut disk, 0);
        if world.calls() < number {
            past = number;
            assert!(rt; told == Ok(()) && disk.faults() == 0);
            break;
        }
        assert!(rt;
            told == Err(Outside::Failed) && disk.faults() == 1,
            "call {number}"
        );
        assert!(rt; disk.first_fault().is_some(), "call {number}");
        // What a failed sync left is synced by the next one.
        assert!(rt;
            work(&mut disk, 0) == Ok(()) && world.keeps(0, b"Jello world"),
            "call {number}"
        );
    }
    assert!(rt; past == 14, "{past}");
    Ok(())
}

#[test]
fn few_files_are_open_and_each_is_synced_before_it_is_closed(rt: HostRuntime) -> Result<(), Fail> {
    let world = World::new(rt.alloc(), 40)?;
    let mut disk = disk(&world, rt.alloc())?;
    for area in 0..40 {
        assert!(rt;
            disk.write_at(area, 0, b"Jello world") == Ok(()),
            "area {area}"
        );
    }
    for area in 0..40 {
        assert!(rt; reads(&mut disk, area, b"Jello world"), "area {area}");
    }
    // The areas opened last are closed by now too. Their names come with the next sync.
    assert!(rt; disk.sync(0) == Ok(()));
    for area in 0..40 {
        assert!(rt; world.keeps(area, b"Jello world"), "area {area}");
    }
    assert!(rt; world.most_open() == 9, "{} open", world.most_open());
    Ok(())
}

#[test]
fn a_store_is_one_disks(rt: HostRuntime) -> Result<(), Fail> {
    let world = World::new(rt.alloc(), 1)?;
    let mut first = disk(&world, rt.alloc())?;
    assert!(rt; work(&mut first, 0) == Ok(()));
    let mut second = disk(&world, rt.alloc())?;
    world.fail(0);
    assert!(rt; second.write_at(0, 0, b"no") == Err(Outside::Failed) && second.faults() == 1);
    // It looked at the folder, opened it, and asked for the lock.
    assert!(rt; world.calls() == 3 && second.length(0) == Err(Outside::Failed));
    assert!(rt; reads(&mut first, 0, b"Jello world"));
    drop(first);
    assert!(rt; reads(&mut second, 0, b"Jello world"));
    Ok(())
}

#[test]
fn what_may_not_be_written_to_can_be_read(rt: HostRuntime) -> Result<(), Fail> {
    let world = World::new(rt.alloc(), 2)?;
    let mut before = disk(&world, rt.alloc())?;
    assert!(rt; work(&mut before, 0) == Ok(()));
    drop(before);
    world.freeze();
    let mut disk = disk(&world, rt.alloc())?;
    assert!(rt;
        disk.sync(0) == Ok(()) && reads(&mut disk, 0, b"Jello world") && disk.faults() == 0
    );
    assert!(rt; disk.write_at(0, 5, b"!") == Err(Outside::Failed) && disk.faults() == 1);
    assert!(rt; disk.cut(0, 1) == Err(Outside::Failed) && disk.faults() == 2);
    assert!(rt; disk.write_at(1, 0, b"new") == Err(Outside::Failed) && disk.faults() == 3);
    assert!(rt; reads(&mut disk, 0, b"Jello world"));
    Ok(())
}
