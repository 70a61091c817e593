//! Why a server ended before its time.

ghost use Rattle.mt_service.specs.{declared.faults.ServerFault.TheVariants.{Memory as MemoryFault}, Faults.status_of};
ghost use Rattle.std.specs.Prelude.{◌≡◌};

use mt_loop::LoopFault;
use mt_rows::Refusal;
use mt_store_files::FolderFault;
use std::alloc::{AllocError, AllocFailed};
use std::io;
use thiserror::Error;

/// Why a server ended before its time.
#[derive(Debug, Drop, Error)]
pub enum ServerFault {
    /// A tenant can't be served.
    #[error("{0}")]
    Refused(Refusal),
    /// A growth of its own was refused.
    #[error("E2: out of memory")]
    Memory,
    /// The store isn't served.
    #[error("{0}")]
    Store(FolderFault),
    /// The last settle was refused: the logs may lack the last changes.
    #[error("{0}: the last settle failed, so the logs may lack the last changes")]
    Unsettled(Refusal),
    /// Nobody can listen at this port of 127.0.0.1.
    #[error("127.0.0.1:{port} can't be listened at: {error}: choose another --port")]
    Listen { port: u16, error: io::Error },
    /// The listener failed.
    #[error("the socket failed: {0}")]
    Socket(io::Error),
    /// The output failed.
    #[error("the output failed: {0}")]
    Output(io::Error),
    /// Passes were lost, so that no total can be told.
    #[error("passes were lost")]
    Passes,
}

impl ServerFault {
    /// The exit status: 2 if a tenant is refused, 3 if the store is, else 1.
    pub fn status(&self) -> u8
        ensures { result ≡ status_of self.now }
    {
        match self {
            ServerFault::Refused(_) => 2,
            ServerFault::Store(FolderFault { fault, .. }) => fault.status(),
            ServerFault::Memory
            | ServerFault::Unsettled(_)
            | ServerFault::Listen { .. }
            | ServerFault::Socket(_)
            | ServerFault::Output(_)
            | ServerFault::Passes => 1,
        }
    }
}

/// `Memory` if memory was refused, else `Refused`.
impl From<Refusal> for ServerFault {
    ghost use Rattle.mt_service.specs.Faults.{fault_of};

    ghost from_gives = { λ refusal fault. fault ≡ fault_of refusal };

    fn from(refusal: Refusal) -> ServerFault {
        match refusal {
            Refusal::Memory => ServerFault::Memory,
            _ => ServerFault::Refused(refusal),
        }
    }
}

impl From<AllocError> for ServerFault {
    ghost from_gives = { λ _ e. e ≡ MemoryFault };

    fn from(_e: AllocError) -> ServerFault {
        ServerFault::Memory
    }
}

impl<T: Drop> From<AllocFailed<T>> for ServerFault {
    ghost from_gives = { λ _ e. e ≡ MemoryFault };

    fn from(_e: AllocFailed<T>) -> ServerFault {
        ServerFault::Memory
    }
}

/// `Memory` if memory was refused, else `Socket`.
impl From<LoopFault> for ServerFault {
    ghost use Rattle.mt_service.specs.Faults.{IsOfServing};

    ghost from_gives = { λ _ fault. IsOfServing fault };

    fn from(fault: LoopFault) -> ServerFault {
        match fault {
            LoopFault::Memory => ServerFault::Memory,
            LoopFault::System(error) => ServerFault::Socket(error),
        }
    }
}
