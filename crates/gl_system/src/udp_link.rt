// A UDP socket as a link.
ghost use Rattle.std.specs.Prelude.{◌≡◌, ◌↔◌, ◌≤◌, length, None, IfOk, IsTrue};
ghost use Rattle.std.specs.String.{string_bytes};
ghost use Rattle.gl_outside.specs.Links.{IsAddress, IsShort, KeepsPeerAfter};

use gl_outside::{LONGEST_DATAGRAM, Link, Outside, Received, count_one};
use std::alloc::Global;
use std::fmt::Write;
use std::io::ErrorKind;
use std::mem;
use std::net::{Ipv4Addr, Net, SocketAddr, UdpSocket};
use std::time::Duration;

// Room for each address with its port.
const ADDRESS_ROOM: usize = 64;

/// A UDP socket of this machine as a link, which tells nothing and is never closed. A call that was interrupted is quiet.
/// A peer is written as `IP:PORT`.
#[derive(Drop)]
pub struct UdpLink {
    socket: UdpSocket,
    peer: String,
    // where the next address is written
    next: String,
    faults: u64,
}

impl UdpLink {
    /// Listens at the port of 127.0.0.1; at port 0 the system picks one. A call waits so long for a datagram, which is to be
    /// more than no time. `Failed` is the system's refusal.
    pub fn bind<R: Net>(
        rt: &R,
        alloc: Global,
        port: u16,
        wait: Duration,
    ) -> Result<UdpLink, Outside>
        ensures { IfOk result (λ link. link.faults ≡ 0) }
    {
        let Ok(socket) = UdpSocket::bind(rt, (Ipv4Addr::LOCALHOST, port)) else {
            return Err(Outside::Failed);
        };
        if socket.set_read_timeout(Some(wait)).is_err() {
            return Err(Outside::Failed);
        }
        Ok(UdpLink {
            socket,
            peer: String::new(alloc),
            next: String::new(alloc),
            faults: 0,
        })
    }

    /// The port at which it listens; none where the system doesn't tell it.
    pub fn port(&self) -> Option<u16> {
        Some(self.socket.local_addr().ok()?.port())
    }

    // One datagram. Room for the address is taken first, so that none is lost for want of memory.
    fn receive(&mut self, into: &mut [u8]) -> Result<Received, Outside>
        requires { length into.old ≤ 65535 }
        ensures bound { IfOk result IsShort }
        ensures peer { KeepsPeerAfter (string_bytes self.old.peer) (string_bytes self.new.peer) result }
        ensures faults { self.new.faults ≡ self.old.faults }
    {
        self.next.clear();
        self.next.reserve(ADDRESS_ROOM)?;
        match self.socket.recv_from(into) {
            Ok((length, from)) => {
                if write!(self.next, "{from}").is_err() || !is_address(&self.next) {
                    return Err(Outside::Failed);
                }
                mem::swap(&mut self.peer, &mut self.next);
                Ok(Received::Datagram { length })
            }
            Err(error) => match error.kind() {
                ErrorKind::WouldBlock | ErrorKind::TimedOut | ErrorKind::Interrupted => Ok(
                    Received::Quiet,
                ),
                _ => Err(Outside::Failed),
            },
        }
    }
}

// Whether it has the length of an address.
pub(crate) fn is_address(text: &str) -> bool
    ensures { IsTrue result ↔ IsAddress text.now }
{
    0 < text.len() && text.len() <= 255
}

impl Link for UdpLink {
    ghost use Rattle.std.specs.String.{string_bytes};

    ghost left = { λ _. None };

    ghost peer = { λ l. string_bytes l.peer };

    ghost faults = { λ l. l.faults };

    fn recv(&mut self, into: &mut [u8]) -> Result<Received, Outside> {
        let received = self.receive(&mut into[..LONGEST_DATAGRAM]);
        if received == Err(Outside::Failed) {
            count_one(&mut self.faults);
        }
        received
    }

    fn peer(&self) -> &str {
        self.peer.as_str()
    }

    fn faults(&self) -> u64 {
        self.faults
    }
}
