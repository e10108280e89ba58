//! Tests of sockets, files and what is noted of them, of sealed datagrams, and of what is exchanged
//! with an etcd cluster, by what is public of their crates.

mod etcd;
mod failures;
mod folder_locks;
mod key_files;
mod key_texts;
mod keyrings;
mod match_files;
mod named_files;
mod names;
mod notices;
mod own_sockets;
mod party_files;
mod printable;
mod seals;
mod slots;
mod uses;
mod words;
