//! Making a match in a folder of its own.

use crate::durable::sync;
use crate::folders::FolderStore;
use crate::seat_files::{random_digits, write_seats};
use crate::served_keepers::ServedKeeper;
use bg_console::{path_in, say};
use bg_dice::{digest_of, write_digest};
use bg_match::Terms;
use bg_processes::{MatchFile, NamedMatch, Names, Printable, make_secret, read_secret};
use bg_site::{Found, Made, Seats};
use std::fs::DirBuilder;
use std::os::unix::fs::DirBuilderExt;
use std::random::RandomSource;
use std::{fs, io};

/// The port in match files, which must name one. The server's matches have no sockets of their own.
const PORT: u16 = 1024;

/// The mode of a folder that only its owner can read, write and enter.
const OWNER_ALONE: u32 = 0o700;

impl<'a> FolderStore<'a> {
    /// Makes a match, with random secrets for its seats.
    ///
    /// # Errors
    /// The reason why the match can't be made.
    pub(crate) fn try_make(
        &self,
        terms: Terms,
        names: Names,
    ) -> io::Result<Made<ServedKeeper<'a>>> {
        let (x, o) = (random_digits(self.rt, 16)?, random_digits(self.rt, 16)?);
        let found = self.make_found(x.as_str(), o.as_str(), terms, names)?;
        Ok(Made { found, x, o })
    }

    /// Logs why a match could not be made, unless the last one could not be made either.
    pub(crate) fn tell_making(&mut self, fault: Option<&io::Error>) {
        let was_unmade = self.is_unmade;
        self.is_unmade = fault.is_some();
        if let (Some(error), false) = (fault, was_unmade) {
            let shown = Printable(self.folder);
            say(
                self.rt,
                format_args!(
                    "no match can be made in {shown}: {error}; make room there, or let it write there: it need not be started again"
                ),
            );
        }
    }

    /// Makes a match whose seats have the secrets `x` and `o`.
    fn make_found(
        &self,
        x: &str,
        o: &str,
        terms: Terms,
        names: Names,
    ) -> io::Result<Found<ServedKeeper<'a>>> {
        let id = self.random_id()?;
        let table = MatchFile {
            id,
            terms,
            port: PORT,
        };
        let file = NamedMatch { table, names };
        let name = random_digits(self.rt, 6)?;
        let path = path_in(self.rt.alloc(), self.folder, name.as_str())?;
        let seats = self.make_folder(path.as_str(), x, o, &file)?;
        let opened = self.opened(name.as_str(), path.as_str(), file, seats);
        if opened.is_err() {
            let _ = fs::remove_dir_all(self.rt, path.as_str());
            let _ = self.note_gone(name.as_str());
        }
        opened
    }

    /// Notes that the files of a match are new, and returns the match.
    fn opened(
        &self,
        name: &str,
        path: &str,
        file: NamedMatch,
        seats: Seats,
    ) -> io::Result<Found<ServedKeeper<'a>>> {
        self.note_changed(name)?;
        match self.found(name, path, file, Some(seats)) {
            Ok(found) => Ok(found),
            Err(why) => Err(why.into_error()),
        }
    }

    /// Makes the folder of a match, with its files. It has its name once all of them are there: a
    /// folder of that name in which one is missing would stay behind a server that was killed. If one
    /// of them can't be written, the folder is removed.
    fn make_folder(&self, path: &str, x: &str, o: &str, file: &NamedMatch) -> io::Result<Seats> {
        let unnamed = format!(in self.rt.alloc(); "{path}.new")?;
        DirBuilder::new()
            .mode(OWNER_ALONE)
            .create(self.rt, unnamed.as_str())?;
        let made = self.fill_folder(unnamed.as_str(), path, x, o, file);
        if made.is_err() {
            let _ = fs::remove_dir_all(self.rt, unnamed.as_str());
        }
        made
    }

    /// Writes the secret of the dice of a match into its new folder, the SHA-256 of that secret, the
    /// digests of the seats, and the match file. Moves the folder to `path` then.
    fn fill_folder(
        &self,
        unnamed: &str,
        path: &str,
        x: &str,
        o: &str,
        file: &NamedMatch,
    ) -> io::Result<Seats> {
        make_secret(self.rt, unnamed)?;
        write_digest(
            self.rt,
            unnamed,
            &digest_of(&read_secret(self.rt, unnamed)?),
        )?;
        let seats = write_seats(self.rt, unnamed, x, o)?;
        file.write(self.rt, unnamed)?;
        self.move_folder(unnamed, path)?;
        Ok(seats)
    }

    /// Gives the folder of a match its name, and makes that durable. If it can't be made durable, the
    /// folder has its old name again.
    fn move_folder(&self, unnamed: &str, path: &str) -> io::Result<()> {
        fs::rename(self.rt, unnamed, path)?;
        let synced = sync(self.rt, self.folder);
        if synced.is_err() {
            let _ = fs::rename(self.rt, path, unnamed);
        }
        synced
    }

    /// Returns a random id for a match.
    fn random_id(&self) -> io::Result<u64> {
        let mut id = [0; 8];
        self.rt.fill_bytes(&mut id)?;
        Ok(u64::from_be_bytes(id))
    }
}
