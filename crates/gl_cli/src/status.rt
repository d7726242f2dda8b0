ghost use Rattle.std.specs.Prelude.{◌≡◌};
ghost use Rattle.gl_cli.specs.declared.status.Status.TheVariants.{OutOfMemory};
ghost use Rattle.gl_cli.specs.Statuses.{status_of};

use gl_base::Text;
use gl_node::{Log, NodeFault, Options};
use std::alloc::AllocError;

/// What the words of the command line ask for.
#[derive(Drop)]
pub enum Command {
    /// Opens the store and runs a script.
    Session { store: Text, options: Options },
    /// Opens the store and says what it holds.
    Check { store: Text, options: Options },
    Usage,
}

/// How a command ended.
#[derive(Clone, Copy, Debug, PartialEq, Eq)]
pub enum Status {
    Done,
    Usage,
    SourceFault,
    SinkFault,
    DiskFault,
    BadScript { line: u64 },
    Damaged { log: Log, area: u32, at: u64 },
    OutOfMemory,
    PatternFault,
    ScriptTooLong,
}

impl From<AllocError> for Status {
    ghost from_gives = { λ _ status. status ≡ OutOfMemory };

    fn from(_: AllocError) -> Self {
        Status::OutOfMemory
    }
}

impl From<NodeFault> for Status {
    ghost from_gives = { λ fault status. status ≡ status_of fault };

    fn from(fault: NodeFault) -> Self {
        match fault {
            NodeFault::DiskFault { .. } | NodeFault::Stopped { .. } => Status::DiskFault,
            NodeFault::OutOfMemory => Status::OutOfMemory,
        }
    }
}
