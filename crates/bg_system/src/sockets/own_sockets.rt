//! A party's UDP socket, which takes nothing but what it sends.

use arrayvec::ArrayVec;
use std::io;
use std::io::ErrorKind;
use std::net::{Ipv4Addr, Net, SocketAddr, UdpSocket};

/// Number of bytes of a datagram that are taken, at most. Every packet is shorter; what goes beyond
/// is cut off.
pub(crate) const MAX_DATAGRAM: usize = 256;

/// The result of reading a socket: the bytes of a datagram, at most 256, or `None` where none has
/// come.
pub type Received = io::Result<Option<ArrayVec<u8, MAX_DATAGRAM>>>;

/// Number of foreign datagrams that one call passes over, at most.
const MOST_PASSED_OVER: u32 = 1000;

/// A non-blocking socket on 127.0.0.1 that is connected to itself. So the system hands it nothing
/// that another socket sent (docs/OPERATING.md, "Sockets").
#[derive(Drop)]
pub struct OwnSocket {
    socket: UdpSocket,
    /// The address of the socket.
    pub address: SocketAddr,
}

impl OwnSocket {
    /// Opens a socket on a port that the system chooses.
    ///
    /// # Errors
    /// The system's error where it gives no socket.
    pub fn open(rt: &impl Net) -> io::Result<OwnSocket> {
        let own = OwnSocket::bind(rt)?;
        own.hear_only(own.address)?;
        Ok(own)
    }

    /// Opens a socket to which any socket can send.
    ///
    /// # Errors
    /// The system's error where it gives no socket.
    pub fn bind(rt: &impl Net) -> io::Result<OwnSocket> {
        let socket = UdpSocket::bind(rt, (Ipv4Addr::LOCALHOST, 0))?;
        socket.set_nonblocking(true)?;
        let address = socket.local_addr()?;
        Ok(OwnSocket { socket, address })
    }

    /// Connects the socket to this address: it sends there from now on, and the system drops what
    /// others send to it. What they sent before may still be queued.
    ///
    /// # Errors
    /// The system's error where it doesn't connect the two.
    pub fn hear_only(&self, peer: SocketAddr) -> io::Result<()> {
        self.socket.connect(peer)
    }

    /// Sends a datagram to the socket itself.
    ///
    /// # Errors
    /// The system's error where it doesn't send it.
    pub fn send(&self, bytes: &[u8]) -> io::Result<()> {
        self.socket.send(bytes)?;
        Ok(())
    }

    /// Returns the oldest datagram in the queue that the socket sent itself, if there is one.
    /// Others are passed over.
    ///
    /// # Errors
    /// The system's error where the socket can't be read.
    pub fn receive(&self) -> Received {
        for _ in 0..MOST_PASSED_OVER {
            let mut buffer = [0; MAX_DATAGRAM];
            match self.socket.recv_from(&mut buffer) {
                Ok((count, sender)) if sender == self.address => {
                    let mut bytes = ArrayVec::new();
                    bytes.try_extend_from_slice(&buffer[..count]).unwrap();
                    return Ok(Some(bytes));
                }
                Ok(_) => {}
                Err(error) if error.kind() == ErrorKind::WouldBlock => return Ok(None),
                Err(error) => return Err(error),
            }
        }
        Ok(None)
    }
}
