//! The lines of use that the documentation of these crates shows.
use crate::helpers::folders::{new_folder, remove_folder};
use bg_seals::{Direction, KEY_BYTES, MasterSecret};
use bg_system::{FailedCall, Failures, FirstFailures, OwnSocket, publish, read_saved};
use std::test::Fail;

#[test]
fn the_system(rt: HostRuntime) -> Result<(), Fail> {
    let alloc = rt.alloc();
    let folder = new_folder(&rt, "system-uses");
    // bg_system
    // A socket that hears itself alone, as a party's in a match of one process.
    let socket = OwnSocket::open(&rt)?;
    socket.send(b"datagram")?;
    let heard = socket.receive()?.expect(&rt, "what it sent");
    assert!(rt; heard.as_slice() == b"datagram".as_slice());
    // A file that others read at any moment: whole as it was, or as it is now.
    let path = format!(in alloc; "{folder}/board")?;
    publish(&rt, path.as_str(), b"board")?;
    // Why a call failed is noted, and of failures that follow each other the first alone.
    let failures = Failures::new();
    let mut reads = FirstFailures::new(&failures);
    for _ in 0..2 {
        let answer = reads.after(FailedCall::Sync, read_saved(&rt, folder));
        assert!(rt; answer.is_err());
    }
    assert!(rt; failures.drain().count() == 1);
    // end
    remove_folder(&rt, folder);
    Ok(())
}

#[test]
fn seals(rt: HostRuntime) {
    // bg_seals
    // The referee has the secret of its matches, and each party a key of it.
    let secret = MasterSecret::new(&[7; KEY_BYTES]);
    let key = secret.key_of(4711, 1);
    let datagram = key.seal(Direction::ToReferee, 1, b"packet");
    assert!(rt; datagram.len() == 22);
    let opened = key.open(Direction::ToReferee, 1, datagram.as_slice());
    assert!(rt; opened.is_some_and(|packet| packet == b"packet".as_slice()));
    // Under the key of another party it is nothing.
    let other = secret.key_of(4711, 2);
    let opened = other.open(Direction::ToReferee, 1, datagram.as_slice());
    assert!(rt; opened.is_none());
    // end
}
