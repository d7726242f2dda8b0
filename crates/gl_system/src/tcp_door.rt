// TCP connections, one after another.
ghost use Rattle.std.specs.Prelude.{◌≡◌, IfOk};
ghost use Rattle.gl_base.specs.Counts.{HasCause};
ghost use Rattle.gl_outside.specs.Links.{IsAddress};
ghost use Rattle.gl_outside.specs.declared.fault.Outside.TheVariants.{Failed};

use crate::udp_link::is_address;
use crate::{ReaderSource, WriterSink};
use gl_base::Text;
use gl_outside::{Outside, count_one};
use std::alloc::Global;
use std::fmt::Write;
use std::io::{ErrorKind, Read};
use std::net::{Ipv4Addr, Net, Shutdown, TcpListener, TcpStream};
use std::time::Duration;

// Room for each address with its port.
const ADDRESS_ROOM: usize = 64;

// How much of what a peer still sends is read after a reply: so many pieces of so many bytes, each waited for so long.
const MOST_PIECES: u32 = 128;

const PIECE: usize = 16_384;

const PIECE_WAIT_MS: u64 = 100;

/// A port at which TCP connections come in.
#[derive(Drop)]
pub struct TcpDoor {
    listener: TcpListener,
    alloc: Global,
    patience: Duration,
    faults: u64,
}

/// What a door answers.
#[derive(Drop)]
pub enum Entered {
    Connection(Connection),
    /// None is there now.
    Quiet,
}

/// A connection, whose two ends are a source and a sink.
#[derive(Drop)]
pub struct Connection {
    stream: TcpStream,
    peer: Text,
    ghost named: { IsAddress peer },
}

impl TcpDoor {
    /// Listens at the port of 127.0.0.1; at port 0 the system picks one. A read or a write of a connection that waits
    /// longer than `patience`, which is to be more than no time, fails. `Failed` is the system's refusal.
    pub fn bind<R: Net<Listener = TcpListener, Stream = TcpStream>>(
        rt: &R,
        alloc: Global,
        port: u16,
        patience: Duration,
    ) -> Result<TcpDoor, Outside>
        ensures { IfOk result (λ door. door.faults ≡ 0) }
    {
        let Ok(listener) = TcpListener::bind(rt, (Ipv4Addr::LOCALHOST, port)) else {
            return Err(Outside::Failed);
        };
        if listener.set_nonblocking(true).is_err() {
            return Err(Outside::Failed);
        }
        Ok(TcpDoor {
            listener,
            alloc,
            patience,
            faults: 0,
        })
    }

    /// The port at which it listens; none where the system doesn't tell it.
    pub fn port(&self) -> Option<u16> {
        Some(self.listener.local_addr().ok()?.port())
    }

    /// The next connection that came in. It doesn't wait for one. A client that is gone before it is taken, or a network
    /// that failed it, is no fault of the door: the answer is then `Quiet`. Room for the address is taken first, so that
    /// no connection is lost for want of memory.
    pub fn accept(&mut self) -> Result<Entered, Outside>
        ensures cause { HasCause Failed self.old.faults self.new.faults result }
    {
        let entered = self.next();
        if let Err(Outside::Failed) = &entered {
            count_one(&mut self.faults);
        }
        entered
    }

    /// Ends a connection so that a reply reaches its peer: the system throws away what wasn't sent yet where bytes that
    /// came are unread as a socket is closed. So this side is shut first, and what still comes is read, at most 2 MiB and
    /// for some twelve seconds. A peer that is gone is no fault. After `Failed` it is closed all the same.
    pub fn hang_up(&mut self, connection: Connection) -> Result<(), Outside>
        ensures cause { HasCause Failed self.old.faults self.new.faults result }
    {
        if part_from(&connection.stream) {
            return Ok(());
        }
        count_one(&mut self.faults);
        Err(Outside::Failed)
    }

    /// How often it has failed, which never falls; it stays at 2^64 - 1.
    pub fn faults(&self) -> u64
        ensures { result ≡ self.now.faults }
    {
        self.faults
    }

    fn next(&self) -> Result<Entered, Outside> {
        let mut peer = String::new(self.alloc);
        peer.reserve(ADDRESS_ROOM)?;
        match self.listener.accept() {
            Ok((stream, from)) => {
                if write!(peer, "{from}").is_err() || !is_address(&peer) {
                    return Err(Outside::Failed);
                }
                if !is_patient(&stream, self.patience) {
                    return Ok(Entered::Quiet);
                }
                Ok(Entered::Connection(Connection {
                    stream,
                    peer: Text::from_string(peer),
                }))
            }
            Err(error) if is_of_client(error.kind()) => Ok(Entered::Quiet),
            Err(_) => Err(Outside::Failed),
        }
    }
}

// Sets how long a read or a write waits. It fails where the client is gone.
fn is_patient(stream: &TcpStream, patience: Duration) -> bool {
    stream.set_read_timeout(Some(patience)).is_ok()
        && stream.set_write_timeout(Some(patience)).is_ok()
}

// Whether nobody came in, or who came is gone, or the network failed.
fn is_of_client(kind: ErrorKind) -> bool {
    matches!(
        kind,
        ErrorKind::WouldBlock
            | ErrorKind::Interrupted
            | ErrorKind::ConnectionAborted
            | ErrorKind::ConnectionReset
            | ErrorKind::TimedOut
            | ErrorKind::NetworkDown
            | ErrorKind::NetworkUnreachable
            | ErrorKind::HostUnreachable
    )
}

// Whether a peer has ended its side, so that nothing can be sent to it.
fn is_gone(kind: ErrorKind) -> bool {
    matches!(
        kind,
        ErrorKind::NotConnected
            | ErrorKind::ConnectionReset
            | ErrorKind::ConnectionAborted
            | ErrorKind::BrokenPipe
    )
}

impl Connection {
    /// What the peer sends.
    pub fn source(&self) -> ReaderSource<&TcpStream>
        ensures { result.faults ≡ 0 }
    {
        ReaderSource::new(&self.stream)
    }

    /// What the peer gets.
    pub fn sink(&self) -> WriterSink<&TcpStream>
        ensures { result.faults ≡ 0 }
    {
        WriterSink::new(&self.stream)
    }

    /// The address that it comes from, as `IP:PORT`, 1 to 255 bytes.
    pub fn peer(&self) -> &str
        ensures { IsAddress result.now }
    {
        self.peer.as_str()
    }
}

// Shuts this side, and reads what the peer still sends until it ends, pauses, or has sent enough. Answers whether nothing
// failed but for a peer that is gone.
fn part_from(mut stream: &TcpStream) -> bool {
    if let Err(error) = stream.shutdown(Shutdown::Write) {
        return is_gone(error.kind());
    }
    if let Err(error) = stream.set_read_timeout(Some(Duration::from_millis(PIECE_WAIT_MS))) {
        return is_gone(error.kind());
    }
    let mut piece = [0u8; PIECE];
    for _ in 0..MOST_PIECES {
        match stream.read(&mut piece) {
            Ok(0) => return true,
            Ok(_) => {}
            Err(error) => return is_pause(error.kind()) || is_gone(error.kind()),
        }
    }
    true
}

// Whether the peer only sends nothing at the moment.
fn is_pause(kind: ErrorKind) -> bool {
    matches!(
        kind,
        ErrorKind::WouldBlock | ErrorKind::TimedOut | ErrorKind::Interrupted
    )
}
