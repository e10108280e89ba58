//! The reasons why a server could not share what it has with other servers.

use bg_etcd::Fault;
use std::alloc::{AllocError, AllocFailed};
use std::io;

/// The reasons why a server could not share what it has with other servers.
#[derive(Drop)]
pub enum Trouble {
    /// The store could not be asked, or refused the request.
    Store(Fault),
    /// The store has not answered yet: the same request is to be sent again.
    NotYet,
    /// The store is older than what was read from it.
    Older,
    /// The folder could not be read or written.
    Folder(io::Error),
}

impl From<Fault> for Trouble {
    fn from(fault: Fault) -> Trouble {
        Trouble::Store(fault)
    }
}

impl From<io::Error> for Trouble {
    fn from(error: io::Error) -> Trouble {
        Trouble::Folder(error)
    }
}

impl From<AllocError> for Trouble {
    fn from(_error: AllocError) -> Trouble {
        Trouble::Store(Fault::Memory)
    }
}

impl<T: Drop> From<AllocFailed<T>> for Trouble {
    fn from(_error: AllocFailed<T>) -> Trouble {
        Trouble::Store(Fault::Memory)
    }
}
