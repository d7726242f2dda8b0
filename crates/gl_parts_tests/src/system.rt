// Files, standard streams, sockets and the clock of the system. Each port is the system's choice.
ghost use Rattle.std.specs.Prelude.{◌≡◌, ◌≤◌, length, IfOk};

use gl_fields::split_peer;
use gl_outside::{Clock, Disk, LONGEST_DATAGRAM, Link, Outside, Received, Sink, Source};
use gl_system::{
    Connection, Entered, FileDisk, ReaderSource, SystemClock, TcpDoor, UdpLink, WriterSink,
};
use std::alloc::{AllocError, Global};
use std::net::{Ipv4Addr, Net, TcpListener, TcpStream, UdpSocket};
use std::test::*;
use std::time::Duration;
use std::{fs, io, thread, time};

#[test]
fn a_folder_keeps_what_was_synced(rt: HostRuntime) -> Result<(), Fail> {
    let alloc = rt.alloc();
    let folder = "file-disk-test";
    let mut missing = FileDisk::new(
        rt.clone()?,
        alloc,
        String::from_str(alloc, "no-such-folder")?,
    );
    assert!(rt; missing.length(0) == Err(Outside::Failed) && missing.faults() == 1);
    assert!(rt; missing.write_at(0, 0, b"a") == Err(Outside::Failed) && missing.faults() == 2);
    let _ = fs::create_dir(&rt, folder);
    let mut disk = FileDisk::new(rt.clone()?, alloc, String::from_str(alloc, folder)?);
    assert!(rt; disk.length(3) == Ok(0) && disk.write_at(3, 0, b"") == Ok(()));
    assert!(rt; fs::exists(&rt, "file-disk-test/area-3").is_ok_and(|there| !there));
    assert!(rt;
        disk.write_at(3, 0, b"hello") == Ok(()) && disk.write_at(3, 5, b" world") == Ok(())
    );
    assert!(rt; disk.sync(3) == Ok(()) && disk.length(3) == Ok(11));
    let mut found = [0u8; 5];
    assert!(rt; disk.read(3, 6, &mut found) == Ok(()) && &found == b"world");
    assert!(rt; disk.cut(3, 2) == Ok(()) && disk.sync(3) == Ok(()) && disk.faults() == 0);
    assert!(rt; disk.read(3, 0, &mut found) == Err(Outside::Failed) && disk.faults() == 1);
    // The folder is one program's as long as it is used.
    drop(disk);
    let mut again = FileDisk::new(rt.clone()?, alloc, String::from_str(alloc, folder)?);
    assert!(rt; again.length(3) == Ok(2));
    let _ = fs::remove_dir_all(&rt, folder);
    Ok(())
}

#[test]
fn standard_streams_and_the_clock_of_the_system(rt: HostRuntime) -> Result<(), Fail> {
    let mut into = [0u8; 4];
    let mut source = ReaderSource::new(io::empty());
    assert!(rt; source.read(&mut into) == Ok(0) && source.faults() == 0);
    let mut sink = WriterSink::new(io::sink());
    assert!(rt; sink.write(b"abc") == Ok(3) && sink.faults() == 0);
    let mut system = SystemClock::new(rt.clone()?);
    assert!(rt; system.now_ms() > 1_600_000_000_000 && system.faults() == 0);
    Ok(())
}

// Room of so many bytes. Its length alone is told: no proof is to look at each of them.
fn room(alloc: Global, size: usize) -> Result<Vec<u8>, AllocError>
    ensures { IfOk result (λ v. length v.items ≡ size) }
{
    Vec::from_elem(alloc, 0u8, size)
}

#[test]
fn a_datagram_comes_with_its_peer(rt: HostRuntime) -> Result<(), Fail> {
    let alloc = rt.alloc();
    let mut link = UdpLink::bind(&rt, alloc, 0, Duration::from_millis(50))?;
    let Some(port) = link.port() else {
        return Err(Fail::new("no port"));
    };
    let mut into = room(alloc, LONGEST_DATAGRAM)?;
    assert!(rt; link.recv(into.as_mut_slice()) == Ok(Received::Quiet) && link.peer() == "");
    let sender = UdpSocket::bind(&rt, (Ipv4Addr::LOCALHOST, 0))?;
    assert_eq!(rt; sender.send_to(b"abc", (Ipv4Addr::LOCALHOST, port))?, 3);
    assert!(rt; link.recv(into.as_mut_slice()) == Ok(Received::Datagram { length: 3 }));
    assert!(rt; into.starts_with(b"abc") && link.faults() == 0);
    assert!(rt; split_peer(link.peer()) == ("127.0.0.1", sender.local_addr()?.port()));
    assert!(rt; UdpLink::bind(&rt, alloc, port, Duration::from_millis(50)).is_err());
    Ok(())
}

// The next connection, for which the test looks some five seconds.
fn next_connection<R: time::Clock>(rt: &R, door: &mut TcpDoor) -> Option<Connection> {
    for _ in 0..5_000 {
        match door.accept() {
            Ok(Entered::Connection(connection)) => return Some(connection),
            Ok(Entered::Quiet) => thread::sleep(rt, Duration::from_millis(1)),
            Err(_) => return None,
        }
    }
    None
}

// Reads four bytes, answers them and hangs up.
fn answer_one<R: time::Clock>(rt: &R, door: &mut TcpDoor) -> bool {
    let Some(connection) = next_connection(rt, door) else {
        return false;
    };
    let mut into = [0u8; 4];
    let read = connection.source().read(&mut into);
    let is_answered = read == Ok(4) && connection.sink().write(&into) == Ok(4);
    let is_here = split_peer(connection.peer()).0 == "127.0.0.1";
    is_answered && is_here && door.hang_up(connection).is_ok()
}

// Sends more than is read before the reply, and reads the whole reply.
fn ask<R: Net<Listener = TcpListener, Stream = TcpStream>>(rt: &R, port: u16) -> bool {
    let Ok(stream) = TcpStream::connect(rt, (Ipv4Addr::LOCALHOST, port)) else {
        return false;
    };
    let mut source = ReaderSource::new(&stream);
    let mut sink = WriterSink::new(&stream);
    let mut into = [0u8; 8];
    sink.write(b"ping and more") == Ok(13)
        && source.read(&mut into) == Ok(4)
        && &into[..4] == b"ping".as_slice()
        && source.read(&mut into) == Ok(0)
}

#[test]
fn a_reply_reaches_a_peer_that_sent_too_much(rt: HostRuntime) -> Result<(), Fail> {
    let mut door = TcpDoor::bind(&rt, rt.alloc(), 0, Duration::from_secs(5))?;
    let Some(port) = door.port() else {
        return Err(Fail::new("no port"));
    };
    assert!(rt; matches!(door.accept(), Ok(Entered::Quiet)));
    let (answered, asked) = thread::join(&rt, || answer_one(&rt, &mut door), || ask(&rt, port));
    assert!(rt; answered && asked && door.faults() == 0);
    assert!(rt; TcpDoor::bind(&rt, rt.alloc(), port, Duration::from_secs(5)).is_err());
    Ok(())
}
