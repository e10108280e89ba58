//! The members of an etcd cluster, one of which is asked at a time.

use crate::lines::{Answer, Line};
use bg_etcd::{Fault, revision_in};
use std::alloc::{AllocError, Global};
use std::io::ErrorKind;

/// The members of a cluster.
#[derive(Drop)]
pub struct Members<'a> {
    rt: &'a HostRuntime,
    /// The addresses of the members, each a host and a port.
    hosts: Vec<String>,
    /// The index of the member that is asked.
    at: usize,
    line: Option<Box<Line>>,
    /// How many members have failed since the last answer.
    failed: usize,
    /// Whether the cluster answers: `false` once all members have failed in a row.
    pub is_answering: bool,
}

impl<'a> Members<'a> {
    /// Returns the members at these addresses, of which there must be at least one.
    pub fn new(rt: &'a HostRuntime, hosts: Vec<String>) -> Members<'a> {
        Members {
            rt,
            hosts,
            at: 0,
            line: None,
            failed: 0,
            is_answering: true,
        }
    }

    /// Returns the address of the member at a place. Places beyond the last member wrap around.
    pub fn host_at(&self, place: usize) -> &str {
        host_at(&self.hosts, place)
    }

    /// Returns how many full rounds of all members come before a place.
    pub fn round_of(&self, place: usize) -> usize {
        place.checked_div(self.hosts.len()).unwrap_or(0)
    }

    /// Switches to the next member, because this one has failed. Returns whether all have failed.
    fn turn(&mut self) -> bool {
        self.line = None;
        self.at = self.at.saturating_add(1);
        if self.at >= self.hosts.len() {
            self.at = 0;
        }
        self.failed = self.failed.saturating_add(1);
        let have_all = self.failed >= self.hosts.len();
        if have_all {
            self.failed = 0;
            self.is_answering = false;
        }
        have_all
    }

    /// Asks a member, and returns its answer. If it doesn't answer, or can't carry out the request
    /// now, asks the others in turn.
    ///
    /// # Errors
    /// The reason why the last member failed. The cluster may carry out the request nevertheless,
    /// even later.
    pub fn ask(&mut self, path: &str, text: &str) -> Result<Answer, Fault> {
        for _ in 0..u64::MAX {
            if let Some(answer) = self.ask_awhile(path, text)? {
                return Ok(answer);
            }
        }
        Err(Fault::Away(ErrorKind::TimedOut))
    }

    /// Asks as [`Members::ask`] does, but waits for only one member, and only for a while. Returns
    /// `None` if no answer has come by then. To continue waiting, ask the same again.
    ///
    /// # Errors
    /// The reason why the last member failed, if all members have failed.
    pub fn ask_awhile(&mut self, path: &str, text: &str) -> Result<Option<Answer>, Fault> {
        for _ in 0..self.hosts.len() {
            let fault = match self.ask_one(path, text) {
                Ok(None) => return Ok(None),
                Ok(answer) => {
                    self.failed = 0;
                    self.is_answering = true;
                    return Ok(answer);
                }
                Err(fault) => fault,
            };
            if self.turn() {
                return Err(fault);
            }
            if matches!(
                fault,
                Fault::Away(ErrorKind::WouldBlock | ErrorKind::TimedOut)
            ) {
                break;
            }
        }
        Ok(None)
    }

    /// Asks the member whose turn it is, unless it was asked the same already. An answer with a
    /// status of 500 or more is a fault: the request can't be carried out now.
    fn ask_one(&mut self, path: &str, text: &str) -> Result<Option<Answer>, Fault> {
        let alloc = self.rt.alloc();
        self.connect(text)?;
        let Some(line) = &mut self.line else {
            return Err(Fault::Away(ErrorKind::NotConnected));
        };
        let host = host_at(&self.hosts, self.at);
        let Some((status, body)) = line.ask(alloc, host, path, text)? else {
            return Ok(None);
        };
        if !line.is_idle() {
            self.line = None;
        }
        if status >= 500 {
            revision_in(alloc, status, &body)?;
        }
        Ok(Some((status, body)))
    }

    /// Connects to the member whose turn it is, unless there is a connection that doesn't wait for
    /// the answer to another request.
    fn connect(&mut self, text: &str) -> Result<(), Fault> {
        let is_free = match &self.line {
            Some(line) => !line.is_asked_else(text),
            None => false,
        };
        if !is_free {
            self.line = None;
            self.line = Some(Line::open(self.rt, self.host_at(self.at))?);
        }
        Ok(())
    }
}

/// Returns the host at a place. Places beyond the last host wrap around.
fn host_at(hosts: &[String], place: usize) -> &str {
    let at = match place.checked_rem(hosts.len()) {
        Some(at) => at,
        None => 0,
    };
    match hosts.get(at) {
        Some(host) => host.as_str(),
        None => "",
    }
}

/// Returns the addresses in an option, each `HOST:PORT`, separated by commas; `None` if any of them
/// is something else.
///
/// # Errors
/// `AllocError` if memory runs out.
pub fn hosts_in(alloc: Global, words: &str) -> Result<Option<Vec<String>>, AllocError> {
    let mut hosts = Vec::new(alloc);
    for host in words.split(',') {
        if !is_host(host) {
            return Ok(None);
        }
        hosts.push(String::from_str(alloc, host)?)?;
    }
    Ok(Some(hosts))
}

/// Returns whether a text is a host and a port.
fn is_host(text: &str) -> bool {
    match text.rsplit_once(':') {
        Some((host, port)) => {
            !host.is_empty()
                && text.bytes().all(|byte| byte.is_ascii_graphic())
                && port.parse::<u16>().is_ok()
        }
        None => false,
    }
}
