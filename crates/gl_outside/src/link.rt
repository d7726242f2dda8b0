// Where datagrams come from.
ghost use Rattle.std.specs.Prelude.{◌≡◌, ◌≤◌, length, IfOk};
ghost use Rattle.gl_base.specs.Counts.{HasCause};
ghost use Rattle.gl_outside.specs.declared.fault.Outside.TheVariants.{Failed};
ghost use Rattle.gl_outside.specs.Links.{GivesNext, IsShort, KeepsPeerAfter};

use crate::Outside;
use gl_base::{Items, Text};

/// The most bytes of a datagram.
pub const LONGEST_DATAGRAM: usize = 65_535;

/// What a link answers.
#[derive(Clone, Copy, Debug, PartialEq, Eq)]
pub enum Received {
    /// A datagram of this many bytes, at the front of the buffer.
    Datagram { length: usize },
    /// None came meanwhile.
    Quiet,
    /// None will come.
    Closed,
}

/// What a link has to give.
#[derive(Drop)]
pub enum Delivery {
    /// A datagram and the address that it came from, as `IP:PORT`.
    Datagram { peer: Text, bytes: Items<u8> },
    /// A while in which none came.
    Quiet,
}

/// Where datagrams come from. A link may tell which it has left.
pub trait Link {
    ghost use Rattle.std.specs.Prelude.{List, ℕ, Option};
    ghost use Rattle.gl_outside.specs.declared.link.Delivery.{Delivery};

    /// What is left, where it tells that.
    ghost left: { Self → Option (List Delivery) };

    /// The address of the last datagram, as `IP:PORT`; empty before the first.
    ghost peer: { Self → List ℕ };

    /// How often it has failed.
    ghost faults: { Self → ℕ };

    /// Gives the next of what is left, and `Closed` at the end. After `Err` all of it is left.
    fn recv(&mut self, into: &mut [u8]) -> Result<Received, Outside>
        requires { 65535 ≤ length into.old }
        ensures next { GivesNext (left self.old) (left self.new) result into.new (peer self.new) }
        ensures bound { IfOk result IsShort }
        ensures peer { KeepsPeerAfter (peer self.old) (peer self.new) result }
        ensures cause { HasCause Failed (faults self.old) (faults self.new) result };

    /// The address that the last datagram came from, as `IP:PORT`, of 1 to 255 bytes; empty before the first.
    fn peer(&self) -> &str
        ensures { result.now ≡ peer self.now };

    /// How often it has failed, which never falls; it stays at 2^64 - 1.
    fn faults(&self) -> u64
        ensures { result ≡ faults self.now };
}
