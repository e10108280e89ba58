//! Tests of what parties run on, by what is public of its crates: sockets, files, sealed datagrams,
//! what is exchanged with an etcd cluster, the devices of parties, and matches between processes.
#![tactic(auto)]

#[cfg(test)]
mod checks;
#[cfg(test)]
mod failing_calls;
#[cfg(test)]
mod file_keepers;
#[cfg(test)]
mod growths;
#[cfg(test)]
mod helpers;
#[cfg(test)]
mod killed_processes;
#[cfg(test)]
mod loops;
#[cfg(test)]
mod opponents;
#[cfg(test)]
mod party_sockets;
#[cfg(test)]
mod presences;
#[cfg(test)]
mod rules;
#[cfg(test)]
mod seat_saves;
#[cfg(test)]
mod slot_files;
#[cfg(test)]
mod system;
#[cfg(test)]
mod udp;
#[cfg(test)]
mod udp_links;
