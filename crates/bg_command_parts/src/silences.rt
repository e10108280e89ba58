//! The reasons why nothing is heard from a referee, as far as the machine shows, and what to do.

use bg_processes::MatchFile;
use std::fmt::{Display, Formatter, Write};
use std::{fmt, fs};

/// The file of the system that lists the UDP sockets of the machine, one per line after a line of
/// headings.
const SOCKETS: &str = "/proc/net/udp";

/// The reason why nothing may be heard from a referee.
#[derive(Clone, Copy, PartialEq, Eq)]
pub enum Silence {
    /// No process has its port, which is this one.
    NoProcess(u16),
    /// A process has its port, which is this one, and doesn't answer the parties of the match with
    /// this number.
    NoAnswer(u16, u64),
    /// The system doesn't show which ports are taken.
    Unknown,
}

impl Silence {
    /// Returns why nothing may be heard from the referee of a match.
    pub fn of(rt: &HostRuntime, table: &MatchFile) -> Silence {
        match fs::read_to_string(rt, SOCKETS) {
            Ok(listed) if has_port(listed.as_str(), table.port) => {
                Silence::NoAnswer(table.port, table.id)
            }
            Ok(_) => Silence::NoProcess(table.port),
            Err(_) => Silence::Unknown,
        }
    }
}

/// Returns whether one of the sockets that the system lists has this port.
fn has_port(listed: &str, port: u16) -> bool {
    listed.lines().any(|line| port_in(line) == Some(port))
}

/// Reads the port of a socket from its line, whose second word is its address and its port, in
/// hexadecimal digits.
fn port_in(line: &str) -> Option<u16> {
    let (_, port) = line.split_ascii_whitespace().nth(1)?.rsplit_once(':')?;
    u16::from_str_radix(port, 16).ok()
}

impl Display for Silence {
    fn fmt<W: Write>(&self, f: &mut Formatter<W>) -> fmt::Result {
        match *self {
            Silence::NoProcess(port) => {
                write!(
                    f,
                    "no process has its port {port}, so it is not running: start it"
                )
            }
            Silence::NoAnswer(port, id) => write!(
                f,
                "the process at its port {port} doesn't answer: is it the referee of match {id}? If not, end it"
            ),
            Silence::Unknown => f.write_str("is it running? If not, start it"),
        }
    }
}
