//! The command that rebuilds a referee's folder from what others hold.

use crate::attempts::done_at;
use crate::held_records::{Held, seat_of};
use crate::new_folders::{
    begin_folder, derived_keys, end_folder, make_secret_of_dice, make_secret_of_keys,
    remove_secret_of_keys, tell_dice, tell_kept_keys, tell_key_files, told_of,
};
use bg_board::Player;
use bg_console::{
    allocated, check_folder, check_folder_name, key_files_in, lock_of, no_memory, say, say_of,
    table_of, wrong_at,
};
use bg_match::{Number, Record};
use bg_options::RecoverOptions;
use bg_reports::Ending;
use bg_system::{Failures, FolderLock, KeyFiles, MatchFile, NamedMatch, PartyFiles, Printable};
use bg_wire::{REFEREE, Slot, next_save};

/// Makes the folder that the options name.
pub fn run(rt: &HostRuntime, options: RecoverOptions<'_, '_>) -> Result<Ending, Ending> {
    check_folder_name(rt, options.x)?;
    if options.x == options.o {
        return Err(wrong_at(
            rt,
            options.x,
            " is named for both seats: each has a folder of its own",
        ));
    }
    let file = table_of(rt, options.match_path)?;
    match options.keys {
        Some(folder) => {
            let kept = key_files_in(rt, folder, &file.table)?.named(&file.names);
            rebuild(rt, &options, &file, Some(&kept))
        }
        None => rebuild(rt, &options, &file, None),
    }
}

/// Makes the folder with the keys that are kept, if there are some.
fn rebuild(
    rt: &HostRuntime,
    options: &RecoverOptions<'_, '_>,
    file: &NamedMatch,
    kept: Option<&KeyFiles>,
) -> Result<Ending, Ending> {
    // The seats stay locked until the folder is made.
    let mut locks = Vec::new(rt.alloc());
    let longest = longest_of(rt, file.table, options, &mut locks)?;
    make(rt, file, options.folder, kept, &longest)?;
    Ok(Ending::Served)
}

/// Returns the record of the source that holds most. Locks the folders of the seats.
fn longest_of<'a>(
    rt: &HostRuntime,
    table: MatchFile,
    options: &RecoverOptions<'_, 'a>,
    locks: &mut Vec<FolderLock>,
) -> Result<Held<'a>, Ending> {
    let mut longest = Held::nothing(rt, table, options.match_path)?;
    take_all(rt, table, options, locks, &mut longest)?;
    Ok(longest)
}

/// Takes what the seats and the transcripts hold where that is more.
fn take_all<'a>(
    rt: &HostRuntime,
    table: MatchFile,
    options: &RecoverOptions<'_, 'a>,
    locks: &mut Vec<FolderLock>,
    longest: &mut Held<'a>,
) -> Result<(), Ending> {
    take_seat(rt, table, Player::X, options.x, locks, longest)?;
    take_seat(rt, table, Player::O, options.o, locks, longest)?;
    for name in options.transcripts.iter().copied() {
        longest.take(rt, Held::of_transcript(rt, table, name)?)?;
    }
    Ok(())
}

/// Locks the folder of a seat, and takes what it holds where that is more.
fn take_seat<'a>(
    rt: &HostRuntime,
    table: MatchFile,
    player: Player,
    folder: &'a str,
    locks: &mut Vec<FolderLock>,
    longest: &mut Held<'a>,
) -> Result<(), Ending> {
    check_folder(
        rt,
        folder,
        " is no folder: name that of the seat, or an empty one",
    )?;
    if locks.push(lock_of(rt, folder)?).is_err() {
        return Err(no_memory(rt));
    }
    if let Some(saved) = seat_of(rt, table, folder, player)? {
        let name = folder;
        longest.take(rt, Held { name, saved })?;
    }
    Ok(())
}

/// Makes the folder with the keys that are kept, or else with new ones and their secret.
fn make(
    rt: &HostRuntime,
    file: &NamedMatch,
    folder: &str,
    kept: Option<&KeyFiles>,
    longest: &Held<'_>,
) -> Result<(), Ending> {
    let _lock = begin_folder(rt, folder)?;
    let digest = make_secret_of_dice(rt, folder)?;
    let told = match kept {
        Some(keys) => {
            remove_secret_of_keys(rt, folder)?;
            fill(rt, file, folder, keys, longest)?;
            tell_kept_keys(rt)
        }
        None => {
            make_secret_of_keys(rt, folder)?;
            fill(rt, file, folder, &derived_keys(rt, folder, file)?, longest)?;
            tell_key_files(rt, folder)
        }
    };
    told_of(rt, folder, told)?;
    told_of(rt, folder, tell_dice(rt, &digest))
}

/// Writes the first save with this record, and the keys. The match file comes last, so that where
/// there is one the match is complete.
fn fill(
    rt: &HostRuntime,
    file: &NamedMatch,
    folder: &str,
    keys: &KeyFiles,
    longest: &Held<'_>,
) -> Result<(), Ending> {
    save_first(rt, folder, &longest.saved.log)?;
    end_folder(rt, folder, file, keys)?;
    tell_made(rt, folder, longest.name, longest.saved.log.len());
    Ok(())
}

/// Writes the referee's first save, with this record, to the folder.
fn save_first(rt: &HostRuntime, folder: &str, log: &Record) -> Result<(), Ending> {
    match next_save(rt.alloc(), 0, REFEREE, &None, log) {
        Ok((slot, _, text)) => write_slot(rt, folder, slot, &text),
        Err(_) => Err(no_memory(rt)),
    }
}

/// Writes a file of the referee to the folder.
fn write_slot(rt: &HostRuntime, folder: &str, slot: Slot, text: &[u8]) -> Result<(), Ending> {
    let failures = Failures::new();
    let mut files = allocated(rt, PartyFiles::new(rt, folder, REFEREE, &failures))?;
    let written = files.write(slot, text);
    done_at(rt, folder, "/party-0.1 could not be written", written)
}

/// Reports the entries that a new folder begins with.
fn tell_made(rt: &HostRuntime, folder: &str, name: &str, entries: Number) {
    if entries == 0 {
        return say_of(rt, folder, " begins with no entry: none was found");
    }
    let (shown, name) = (Printable(folder), Printable(name));
    say(
        rt,
        format_args!("{shown} begins with the {entries} entries of {name}"),
    );
}
