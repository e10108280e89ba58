//! The journal.

use crate::changes::{Change, FileText};
use sqlite::types::ValueRef;
use sqlite::{Connection, Error, File, FileStore, Row, params};
use std::alloc::Global;

/// The table of the journal. A file's name is its path below the folder that all files are in.
const TABLE: &str =
    "CREATE TABLE IF NOT EXISTS file (name TEXT PRIMARY KEY, text BLOB NOT NULL) STRICT";

/// Inserts the text of a file, or replaces its older one.
const PUT: &str = "INSERT INTO file (name, text) VALUES (?1, ?2) \
                   ON CONFLICT (name) DO UPDATE SET text = excluded.text";

/// Removes the files in a folder: `0` is the character after `/`.
const REMOVE: &str = "DELETE FROM file WHERE name >= ?1 || '/' AND name < ?1 || '0'";

/// Replaces the text of a file, if it has the text that is given as the second parameter.
const SWAP: &str = "UPDATE file SET text = ?3 WHERE name = ?1 AND text = ?2";

const READ: &str = "SELECT name, text FROM file ORDER BY name";

const FIND: &str = "SELECT text FROM file WHERE name = ?1";

const CLEAR: &str = "DELETE FROM file";

/// The condition of a write: a file, the text that it must have before the write, and the text that
/// it has after it.
#[derive(Clone, Copy)]
pub struct Swap<'a> {
    pub name: &'a str,
    pub before: &'a [u8],
    pub after: &'a [u8],
}

/// The connection of a journal to its database.
struct Database {
    connection: Connection<FileStore<File>>,
}

// It is written out, so that a crate that drops a journal need not prove again how a connection is
// dropped.
impl Drop for Database {
    fn drop(self) {
        let Database { connection: _ } = self;
    }
}

impl Database {
    /// Opens the database in a file.
    fn open(rt: &HostRuntime, path: &str) -> Result<Database, Error> {
        let connection = Connection::open(rt, path)?;
        Ok(Database { connection })
    }

    /// Runs a statement that returns no rows, and returns how many rows it changed.
    fn run(&mut self, text: &str, values: &[ValueRef<'_>]) -> Result<usize, Error> {
        self.connection.execute(text, values)
    }

    /// Runs a query, and returns its rows.
    fn rows(&mut self, text: &str, values: &[ValueRef<'_>]) -> Result<Vec<Row>, Error> {
        self.connection.query_all(text, values)
    }
}

/// An open journal. Only one process can have it open at a time.
#[derive(Drop)]
pub struct Journal {
    alloc: Global,
    /// In a box, since it is large.
    database: Box<Database>,
}

impl Journal {
    /// Opens the journal in the file at a path, and creates the file if it is missing.
    ///
    /// # Errors
    /// The error of the database: `DatabaseBusy` if another process has it open.
    pub fn open(rt: &HostRuntime, path: &str) -> Result<Journal, Error> {
        let mut database = Box::new(rt.alloc(), Database::open(rt, path)?)?;
        let _ = database.run(TABLE, &[])?;
        Ok(Journal {
            alloc: rt.alloc(),
            database,
        })
    }

    /// Makes changes durable, all of them or none, in their order. After an error, open the journal
    /// anew: it may still have the transaction open.
    ///
    /// # Errors
    /// The error of the database. The changes may be durable all the same, if the commit failed.
    pub fn write(&mut self, changes: &[Change]) -> Result<(), Error> {
        self.run("BEGIN", &[])?;
        self.make(changes)?;
        self.run("COMMIT", &[])
    }

    /// Makes changes durable as [`write`](Journal::write) does, if the file of `swap` has the text
    /// `before`. The same transaction gives it the text `after`. Returns false, and changes
    /// nothing, if it has another text or is missing: then somebody else has written to the
    /// journal.
    ///
    /// # Errors
    /// The error of the database. The changes may be durable all the same: then the file of `swap`
    /// has the text `after`.
    pub fn write_after(&mut self, swap: Swap<'_>, changes: &[Change]) -> Result<bool, Error> {
        self.run("BEGIN", &[])?;
        if !self.swap(swap)? {
            self.run("ROLLBACK", &[])?;
            return Ok(false);
        }
        self.make(changes)?;
        self.run("COMMIT", &[])?;
        Ok(true)
    }

    /// Returns the text of a file, if the journal has one.
    ///
    /// # Errors
    /// The error of the database.
    pub fn find(&mut self, name: &str) -> Result<Option<Vec<u8>>, Error> {
        match self.database.rows(FIND, params![name])?.first() {
            Some(row) => Ok(Some(row.get(0)?)),
            None => Ok(None),
        }
    }

    /// Returns all files, in the order of their names.
    ///
    /// # Errors
    /// The error of the database.
    pub fn files(&mut self) -> Result<Vec<FileText>, Error> {
        let mut files = Vec::new(self.alloc);
        for row in self.database.rows(READ, &[])?.iter() {
            files.push(file_of(row)?)?;
        }
        Ok(files)
    }

    /// Removes all files durably.
    ///
    /// # Errors
    /// The error of the database.
    pub fn clear(&mut self) -> Result<(), Error> {
        self.run(CLEAR, &[])
    }

    /// Makes changes, in their order.
    fn make(&mut self, changes: &[Change]) -> Result<(), Error> {
        for change in changes.iter() {
            match change {
                Change::Put(file) => self.run(PUT, params![file.name.as_str(), &file.text])?,
                Change::Remove(folder) => self.run(REMOVE, params![folder.as_str()])?,
            }
        }
        Ok(())
    }

    /// Gives a file the text `after`, and returns whether it had the text `before`.
    fn swap(&mut self, swap: Swap<'_>) -> Result<bool, Error> {
        let values = params![swap.name, swap.before, swap.after];
        Ok(self.database.run(SWAP, values)? == 1)
    }

    /// Runs a statement that returns no rows.
    fn run(&mut self, text: &str, values: &[ValueRef<'_>]) -> Result<(), Error> {
        let _ = self.database.run(text, values)?;
        Ok(())
    }
}

/// Returns the file of a row.
fn file_of(row: &Row) -> Result<FileText, Error> {
    Ok(FileText {
        name: row.get(0)?,
        text: row.get(1)?,
    })
}
