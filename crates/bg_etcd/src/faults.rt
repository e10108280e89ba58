//! The reasons why a cluster has not carried out a request.

use base64::DecodeAllocError;
use http1::{ReadError, WriteError};
use serde_json::Category;
use std::alloc::AllocError;
use std::io;
use std::io::ErrorKind;

/// The reason why a cluster has not carried out a request, or why nobody knows whether it has.
#[derive(Debug, Drop)]
pub enum Fault {
    /// A member could not be reached, disconnected, or was silent for too long.
    Away(ErrorKind),
    /// A member refused the request, with this HTTP status, for this reason.
    Refused(u16, String),
    /// What came isn't an answer of etcd.
    Unreadable,
    /// Memory has run out.
    Memory,
}

impl From<io::Error> for Fault {
    fn from(error: io::Error) -> Fault {
        Fault::Away(error.kind())
    }
}

impl From<AllocError> for Fault {
    fn from(_error: AllocError) -> Fault {
        Fault::Memory
    }
}

impl From<ReadError> for Fault {
    fn from(error: ReadError) -> Fault {
        match error {
            ReadError::UnexpectedEof => Fault::Away(ErrorKind::UnexpectedEof),
            _ => Fault::Unreadable,
        }
    }
}

impl From<WriteError> for Fault {
    fn from(error: WriteError) -> Fault {
        match error {
            WriteError::OutOfMemory => Fault::Memory,
            _ => Fault::Unreadable,
        }
    }
}

impl From<serde_json::Error> for Fault {
    fn from(error: serde_json::Error) -> Fault {
        match error.classify() {
            Category::Memory => Fault::Memory,
            _ => Fault::Unreadable,
        }
    }
}

impl From<DecodeAllocError> for Fault {
    fn from(error: DecodeAllocError) -> Fault {
        match error {
            DecodeAllocError::OutOfMemory => Fault::Memory,
            DecodeAllocError::DecodeError(_) => Fault::Unreadable,
        }
    }
}
