//! The host of a referee: it answers the parties of a match over a UDP socket, and keeps the match
//! in two files.
ghost use Rattle.bg_wire.specs.Packets.PacketText.{IsPacket};

use crate::slot_files::SlotFiles;
use bg_match::{LengthFault, Rules};
use bg_referee::{DueFault, Referee, TakeOutcome};
use bg_wire::{Packet, REFEREE, RestoreRefusal, SaveRefusal, Slot, decode, encode, restore};
use std::fs::File;
use std::io;
use std::io::ErrorKind;
use std::net::{Ipv4Addr, Net, SocketAddr, UdpSocket};
use std::random::RandomSource;
use std::rt::Files;
use std::time::Duration;
use thiserror::Error;

/// The reason why a host ends. The next one over the same folder continues from what was saved.
#[derive(Debug, Drop, Error)]
pub enum HostFault {
    #[error(transparent)]
    System(#[from] io::Error),
    #[error("the files can't be restored: {0}")]
    Restore(#[from] RestoreRefusal),
    #[error(transparent)]
    Length(#[from] LengthFault),
    #[error(transparent)]
    Save(#[from] SaveRefusal),
    #[error("out of memory")]
    Memory,
}

/// A referee, its files, its socket, and the address from which each party was last heard.
#[derive(Drop)]
pub struct RefereeHost<'a, R> {
    rt: &'a R,
    files: SlotFiles<'a, R>,
    socket: UdpSocket,
    parties: [Option<SocketAddr>; 256],
    core: Referee,
}

/// Returns the referee that the files restore.
fn restored<R: Files<File = File> + AllocGlobal>(
    rt: &R,
    files: &mut SlotFiles<'_, R>,
    id: u64,
    length: u8,
    rules: Rules,
) -> Result<Referee, HostFault> {
    let zero = files.read(Slot::Zero)?;
    let one = files.read(Slot::One)?;
    match restore(rt.alloc(), &zero, &one, REFEREE, id, length, rules)? {
        Some(saved) => Ok(Referee::resume(rt.alloc(), saved)),
        None => Ok(Referee::fresh(rt.alloc(), id, length, rules)?),
    }
}

/// Returns a socket at a port of 127.0.0.1, on which a turn waits for at most 200 milliseconds.
fn socket_at<R: Net>(rt: &R, port: u16) -> io::Result<UdpSocket> {
    let socket = UdpSocket::bind(rt, (Ipv4Addr::LOCALHOST, port))?;
    socket.set_read_timeout(Some(Duration::from_millis(200)))?;
    Ok(socket)
}

impl<'a, R: Net + Files<File = File> + RandomSource + AllocGlobal> RefereeHost<'a, R> {
    /// Continues the match that the folder has, or begins it, at a port of 127.0.0.1 (0: one that
    /// is free).
    ///
    /// # Errors
    /// `Restore` where the files don't restore a referee of this match. `Length` where the length
    /// is not from 1 to 99. `System` where the files or the socket can't be used.
    pub fn open(
        rt: &'a R,
        folder: &str,
        port: u16,
        id: u64,
        length: u8,
        rules: Rules,
    ) -> Result<RefereeHost<'a, R>, HostFault> {
        let socket = socket_at(rt, port)?;
        let mut files = SlotFiles::open(rt, folder, REFEREE)?;
        let core = restored(rt, &mut files, id, length, rules)?;
        Ok(RefereeHost {
            rt,
            files,
            socket,
            parties: [None; 256],
            core,
        })
    }

    /// Returns the address at which the parties reach it.
    ///
    /// # Errors
    /// The system's error.
    pub fn address(&self) -> io::Result<SocketAddr> {
        self.socket.local_addr()
    }

    /// Serves the match for `turns` turns, or until something fails.
    ///
    /// # Errors
    /// Those of [`turn`](RefereeHost::turn).
    pub fn serve(mut self, turns: u64) -> Result<(), HostFault> {
        self.take_turns(turns)
    }

    /// Takes `turns` turns, or as many as do not fail.
    fn take_turns(&mut self, turns: u64) -> Result<(), HostFault> {
        for _ in 0..turns {
            self.turn()?;
        }
        Ok(())
    }

    /// Answers a datagram, opens a game or passes a turn where that is due, saves what is new, and
    /// pushes what is saved. After an error the host is dropped: what its files then have is what
    /// holds.
    pub fn turn(&mut self) -> Result<(), HostFault> {
        let mut buffer = [0; 256];
        match self.socket.recv_from(&mut buffer) {
            Ok((count, from)) => self.hear(&buffer[..count], from)?,
            Err(error) if has_waited(&error) => {}
            Err(error) => return Err(error.into()),
        }
        // If this word opens no game that is due, the next turn tries another one.
        let word = self.word()?;
        if self.core.due(word) == Err(DueFault::Memory) {
            return Err(HostFault::Memory);
        }
        if self.core.saved() < self.core.held().len() {
            self.save()?;
        }
        self.push();
        Ok(())
    }

    /// Sends the parties what they are known to lack.
    fn push(&mut self) {
        for (party, packet) in &self.core.tick() {
            if let Some(address) = self.parties[usize::from(*party)] {
                self.send(packet, address);
            }
        }
    }

    /// Answers what came from an address. Bytes that are no packet are dropped, and so is what the
    /// referee alone sends.
    fn hear(&mut self, bytes: &[u8], from: SocketAddr) -> Result<(), HostFault> {
        let Ok(packet) = decode(bytes) else {
            return Ok(());
        };
        let sender = match &packet {
            Packet::Want { sender, .. } | Packet::Claim { sender, .. } => *sender,
            Packet::Entries { .. } => return Ok(()),
        };
        let word = self.word()?;
        match self.core.take(&packet, word) {
            TakeOutcome::OtherMatch => return Ok(()),
            TakeOutcome::Memory => return Err(HostFault::Memory),
            TakeOutcome::Answer(_, answer) => self.send(&answer, from),
            // An accepted claim is saved in this turn, and only then told.
            _ => {}
        }
        self.parties[usize::from(sender)] = Some(from);
        Ok(())
    }

    /// Writes the next save.
    fn save(&mut self) -> Result<(), HostFault> {
        let (slot, save, text) = self.core.to_save()?;
        self.files.write(slot, &text)?;
        self.core.mark_saved(save);
        Ok(())
    }

    /// Sends a packet. One that is lost is asked for again.
    fn send(&self, packet: &Packet, to: SocketAddr)
        requires { IsPacket packet.now }
    {
        let _ = self.socket.send_to(encode(packet).as_slice(), to);
    }

    /// Returns a random word, which nobody can guess, and which is handed in once.
    fn word(&self) -> io::Result<u32> {
        let mut bytes = [0; 4];
        self.rt.fill_bytes(&mut bytes)?;
        Ok(u32::from_be_bytes(bytes))
    }
}

/// Returns whether nothing has come for as long as a turn waits.
fn has_waited(error: &io::Error) -> bool {
    matches!(
        error.kind(),
        ErrorKind::WouldBlock | ErrorKind::TimedOut | ErrorKind::Interrupted
    )
}
