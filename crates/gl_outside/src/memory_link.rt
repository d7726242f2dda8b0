// A link in memory, which fails exactly at listed calls.
ghost use Rattle.std.specs.Prelude.{◌≡◌, ◌↔◌, ◌≤◌, [], length, All, IfOk, IsErrOf, Some};
ghost use Rattle.gl_base.specs.Counts.{HasCause};
ghost use Rattle.gl_outside.specs.declared.fault.Outside.TheVariants.{Failed};
ghost use Rattle.gl_outside.specs.Faults.{NeedsNoMemory};
ghost use Rattle.gl_outside.specs.Links.{GivesNext, IsLawful, IsShort, KeepsPeerAfter};
ghost use Rattle.gl_outside.specs.Listed.{IsListed, one_more};

use crate::Outside;
use crate::link::{Delivery, Link, Received};
use crate::listed::{count_one, is_listed};
use gl_base::Text;
use std::alloc::Global;
use std::collections::VecDeque;
use std::marker::Model;

/// A link that has datagrams and pauses to give, and fails exactly at listed calls.
#[derive(Drop)]
pub struct MemoryLink {
    left: VecDeque<Delivery>,
    peer: Text,
    failing: Vec<u64>,
    made: u64,
    faults: u64,
}

impl Model for MemoryLink {
    ghost use Rattle.std.specs.Prelude.{All};
    ghost use Rattle.gl_outside.specs.Links.{LinkView, IsLawful};

    ghost Value = { LinkView };

    ghost view = { λ l. record { left = l.left.items; peer = l.peer; failing = l.failing.items; made = l.made; faults = l.faults } };

    ghost invariant = { λ l. All IsLawful l.left.items };
}

impl MemoryLink {
    /// A link that gives these, in order. The calls whose numbers are in `failing` fail; the first call is 1, and from 2^64 - 1 on each is that.
    pub fn new(alloc: Global, items: VecDeque<Delivery>, failing: Vec<u64>) -> MemoryLink
        requires { All IsLawful items.items }
        ensures { result ≡ record { left = items.items; peer = []; failing = failing.items; made = 0; faults = 0 } }
    {
        MemoryLink {
            left: items,
            peer: Text::from_string(String::new(alloc)),
            failing,
            made: 0,
            faults: 0,
        }
    }
}

impl Link for MemoryLink {
    ghost left = { λ l. Some l.left };

    ghost peer = { λ l. l.peer };

    ghost faults = { λ l. l.faults };

    fn recv(&mut self, into: &mut [u8]) -> Result<Received, Outside>
        requires { 65535 ≤ length into.old }
        ensures next { GivesNext (Some self.old.left) (Some self.new.left) result into.new self.new.peer }
        ensures bound { IfOk result IsShort }
        ensures peer { KeepsPeerAfter self.old.peer self.new.peer result }
        ensures cause { HasCause Failed self.old.faults self.new.faults result }
        ensures exact { IsErrOf result Failed ↔ IsListed self.old.failing self.old.made }
        ensures fault { IsErrOf result Failed → self.new.faults ≡ one_more self.old.faults }
        ensures memory { NeedsNoMemory result }
        ensures made { self.new.made ≡ one_more self.old.made }
        ensures kept { self.new.failing ≡ self.old.failing }
    {
        if is_listed(&self.failing, &mut self.made) {
            count_one(&mut self.faults);
            return Err(Outside::Failed);
        }
        match self.left.pop_front() {
            Some(Delivery::Datagram { peer, bytes }) => {
                let length = bytes.len();
                into[..length].copy_from_slice(bytes.as_slice());
                self.peer = peer;
                Ok(Received::Datagram { length })
            }
            Some(Delivery::Quiet) => Ok(Received::Quiet),
            None => Ok(Received::Closed),
        }
    }

    fn peer(&self) -> &str {
        self.peer.as_str()
    }

    fn faults(&self) -> u64 {
        self.faults
    }
}
