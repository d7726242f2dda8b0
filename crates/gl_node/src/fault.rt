// Why a store isn't opened, and why a node doesn't answer.
ghost use Rattle.std.specs.Prelude.{◌≡◌};
ghost use Rattle.gl_node.specs.declared.fault.OpenFault.TheVariants as opening;
ghost use Rattle.gl_node.specs.declared.fault.NodeFault.TheVariants as running;

use gl_gatelog::Log;
use std::alloc::AllocError;

/// Why a store wasn't opened.
#[derive(Clone, Copy, Debug, PartialEq, Eq)]
pub enum OpenFault {
    /// The first unlawful batch of this log stands at this byte of this area.
    Damaged { log: Log, area: u32, at: u64 },
    /// The disk failed.
    DiskFault,
    OutOfMemory,
}

/// Why a call of a node wasn't answered.
#[derive(Clone, Copy, Debug, PartialEq, Eq)]
pub enum NodeFault {
    /// The disk failed in this call, when its count of faults came to this number. The node is
    /// stopped from then on: the store is to be opened again.
    DiskFault { faults: u64 },
    /// The node was stopped by a disk fault, when the disk's count came to this number.
    Stopped { faults: u64 },
    OutOfMemory,
}

impl From<AllocError> for OpenFault {
    ghost from_gives = { λ _ e. e ≡ opening.OutOfMemory };

    fn from(_: AllocError) -> Self {
        OpenFault::OutOfMemory
    }
}

impl From<AllocError> for NodeFault {
    ghost from_gives = { λ _ e. e ≡ running.OutOfMemory };

    fn from(_: AllocError) -> Self {
        NodeFault::OutOfMemory
    }
}
