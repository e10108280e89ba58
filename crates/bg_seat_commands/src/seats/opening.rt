//! Opening a seat: its folder, its socket and its process.

use crate::seats::{Process, Seat, saves_of};
use bg_board::Player;
use bg_command_parts::{
    Audience, FailureReporter, SilenceReporter, begun, check_seat_folder, socket_of,
};
use bg_console::{allocated, check_writable, own_folder, seat_key_file_of, waiting_for};
use bg_options::SeatOptions;
use bg_processes::{
    Failures, FileKeeper, FolderLock, KeyFile, Keyring, Liveness, MatchFile, PartySocket,
    SeatProcess,
};
use bg_reports::Ending;
use bg_wire::party_of;
use std::fs;

impl<'a> Seat<'a> {
    /// Opens the seat that the options name, over a folder of its own. Its devices note their
    /// failures in `failures`. It waits for standard input too if `with_input` is set. `audience`
    /// is that of the standard error.
    pub(crate) fn open(
        rt: &'a HostRuntime,
        failures: &'a Failures,
        options: SeatOptions<'a>,
        with_input: bool,
        audience: Audience,
    ) -> Result<Seat<'a>, Ending> {
        let SeatOptions {
            player,
            match_path,
            folder,
        } = options;
        let (player, key_file) = seat_key_file_of(rt, match_path, player)?;
        let KeyFile {
            table,
            names,
            party,
            key,
        } = key_file;
        // First, as the folder may be locked because it is another party's.
        check_seat_folder(rt, folder, player)?;
        let keys = Keyring::OfParty(key);
        let (lock, link) = folder_and_link(rt, folder, table.port, party, keys, failures)?;
        let process = begun_process(rt, failures, folder, player, &table, link)?;
        let (waiting, ticking) = waiting_for(rt, process.link().descriptor(), with_input)?;
        let mut seat = Seat {
            rt,
            table,
            player,
            known: 0,
            has_foreign: false,
            process,
            names,
            waiting,
            folder,
            reporter: FailureReporter::new(rt, failures, folder),
            silence: SilenceReporter::new(rt, table, audience),
            ticking,
            liveness: Liveness::new(),
            is_at_table: with_input,
            _lock: lock,
        };
        seat.known = seat.held();
        Ok(seat)
    }
}

/// Locks the folder of a party, which it makes if there is none, and opens the party's socket. Where
/// there is no socket, a folder that it made is removed again.
fn folder_and_link<'a>(
    rt: &'a HostRuntime,
    folder: &str,
    port: u16,
    party: u8,
    keys: Keyring,
    failures: &'a Failures,
) -> Result<(FolderLock, PartySocket<'a, HostRuntime>), Ending> {
    let is_new = fs::metadata(rt, folder).is_err();
    let lock = own_folder(rt, folder)?;
    check_writable(rt, folder)?;
    let link = socket_of(rt, port, party, keys, failures);
    if is_new && link.is_err() {
        let _ = fs::remove_dir(rt, folder);
    }
    Ok((lock, link?))
}

/// Begins the process of a seat over its folder and its socket.
fn begun_process<'a>(
    rt: &'a HostRuntime,
    failures: &'a Failures,
    folder: &str,
    player: Player,
    table: &MatchFile,
    link: PartySocket<'a, HostRuntime>,
) -> Result<Process<'a>, Ending> {
    let keeper = allocated(rt, FileKeeper::new(rt, folder, party_of(player), failures))?;
    let attempt = SeatProcess::begin(rt.alloc(), player, table.id, table.terms, link, keeper);
    begun(rt, failures, saves_of(folder, player, table), attempt)
}
