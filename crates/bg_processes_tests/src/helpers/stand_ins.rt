//! A runtime that stands in for the system's: it has so many sockets and no more, and opens files,
//! or some, or none.
use crate::helpers::hosts::{Host, Hosted};
use crate::helpers::lasting::lasting;
use std::alloc::{Alloc, Allocator, Global};
use std::cell::{Cell, RefCell};
use std::fs::{File, Metadata, OpenOptions};
use std::io;
use std::io::ErrorKind;
use std::net::{Ipv4Addr, Net, SocketAddr, TcpListener, TcpStream, UdpSocket};
use std::process::Abort;
use std::rt::Files;

/// The system's files and sockets, as far as this lets them through.
#[derive(Drop)]
pub(crate) struct StandIn<'a> {
    host: &'a HostRuntime,
    /// How many sockets may still be opened.
    sockets_left: Cell<usize>,
    /// Why no file is opened, if none is.
    pub(crate) files_fail: Cell<Option<io::Error>>,
    /// The file or folder that can't be opened, if there is one.
    pub(crate) barred: Cell<&'a str>,
    /// Whether a socket was asked for at another address than 127.0.0.1, or at a port that the
    /// system did not choose.
    pub(crate) strayed: Cell<bool>,
    /// Another handle of each socket.
    sockets: RefCell<Vec<UdpSocket>>,
}

/// One that opens so many sockets, and all files. It lasts as long as the process.
pub(crate) fn stand_in<R: Host>(rt: &R, sockets: usize) -> &StandIn<'_> {
    lasting(rt, StandIn::new(rt.host(), sockets))
}

impl<'a> StandIn<'a> {
    fn new(host: &'a HostRuntime, sockets: usize) -> StandIn<'a> {
        StandIn {
            host,
            sockets_left: Cell::new(sockets),
            files_fail: Cell::new(None),
            barred: Cell::new(""),
            strayed: Cell::new(false),
            sockets: RefCell::new(Vec::new(host.alloc())),
        }
    }

    /// How many sockets were opened.
    pub(crate) fn opened(&self) -> usize {
        match self.sockets.try_borrow() {
            Ok(sockets) => sockets.len(),
            Err(_) => 0,
        }
    }

    /// Another handle of a socket, by the order in which they were opened.
    pub(crate) fn socket<'b>(
        &self,
        rt: &(impl AllocGlobal + Abort),
        index: usize,
    ) -> &'b UdpSocket {
        let found = copied(&self.sockets, index);
        lasting(rt, found.expect(rt, "a socket of this number"))
    }

    /// Where a socket is reached, by the order in which they were opened; none before.
    pub(crate) fn address(&self, index: usize) -> Option<SocketAddr> {
        address_of(&self.sockets, index)
    }
}

/// Where one of the sockets is reached.
fn address_of(sockets: &RefCell<Vec<UdpSocket>>, index: usize) -> Option<SocketAddr> {
    match sockets.try_borrow() {
        Ok(sockets) => sockets.get(index)?.local_addr().ok(),
        Err(_) => None,
    }
}

/// Another handle of one of the sockets.
fn copied(sockets: &RefCell<Vec<UdpSocket>>, index: usize) -> Option<UdpSocket> {
    match sockets.try_borrow() {
        Ok(sockets) => sockets.get(index)?.try_clone().ok(),
        Err(_) => None,
    }
}

/// Keeps a socket behind the others.
fn keep(sockets: &RefCell<Vec<UdpSocket>>, socket: UdpSocket) -> io::Result<()> {
    match sockets.try_borrow_mut() {
        Ok(mut sockets) => Ok(sockets.push(socket)?),
        Err(_) => Err(io::Error::from(ErrorKind::ResourceBusy)),
    }
}

/// Any port of this machine alone that the system chooses.
const ANY_PORT: (Ipv4Addr, u16) = (Ipv4Addr::LOCALHOST, 0);

impl<'a> Alloc for StandIn<'a> {
    type A = Global;

    fn alloc(&self) -> Global {
        self.host.alloc()
    }
}

impl<'a> Net for StandIn<'a> {
    type Stream = TcpStream;

    type Listener = TcpListener;

    fn bind(&self, _addr: SocketAddr) -> io::Result<TcpListener> {
        Err(io::Error::from(ErrorKind::Unsupported))
    }

    fn connect(&self, _addr: SocketAddr) -> io::Result<TcpStream> {
        Err(io::Error::from(ErrorKind::Unsupported))
    }

    /// Where none is left it fails as where a process has as many open files as it may.
    fn bind_udp(&self, addr: SocketAddr) -> io::Result<UdpSocket> {
        let Some(left) = self.sockets_left.get().checked_sub(1) else {
            return Err(io::Error::from_raw_os_error(TOO_MANY_OPEN_FILES));
        };
        self.sockets_left.set(left);
        if addr != SocketAddr::from(ANY_PORT) {
            self.strayed.set(true);
        }
        let socket = self.host.bind_udp(addr)?;
        keep(&self.sockets, socket.try_clone()?)?;
        Ok(socket)
    }
}

/// The system's number of the error that a process has as many open files as it may.
const TOO_MANY_OPEN_FILES: i32 = 24;

impl<'a> Files for StandIn<'a> {
    type File = File;

    type Dir = <HostRuntime as Files>::Dir;

    fn open_file(&self, how: &OpenOptions, path: &str) -> io::Result<File> {
        match self.files_fail.get() {
            Some(error) => Err(error),
            None if path == self.barred.get() => Err(io::Error::from(ErrorKind::PermissionDenied)),
            None => self.host.open_file(how, path),
        }
    }

    fn open_dir(&self, path: &str) -> io::Result<Self::Dir> {
        self.host.open_dir(path)
    }

    fn metadata(&self, path: &str) -> io::Result<Metadata> {
        self.host.metadata(path)
    }

    fn symlink_metadata(&self, path: &str) -> io::Result<Metadata> {
        self.host.symlink_metadata(path)
    }

    fn copy(&self, from: &str, to: &str) -> io::Result<u64> {
        self.host.copy(from, to)
    }

    fn rename(&self, from: &str, to: &str) -> io::Result<()> {
        self.host.rename(from, to)
    }

    fn remove_file(&self, path: &str) -> io::Result<()> {
        self.host.remove_file(path)
    }

    fn create_dir(&self, path: &str) -> io::Result<()> {
        self.host.create_dir(path)
    }

    fn remove_dir(&self, path: &str) -> io::Result<()> {
        self.host.remove_dir(path)
    }

    fn remove_dir_all<B: Allocator>(&self, alloc: B, path: &str) -> io::Result<()> {
        self.host.remove_dir_all(alloc, path)
    }
}
