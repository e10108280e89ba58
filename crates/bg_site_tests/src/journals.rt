//! Journals of files, over files of their own in the folder of the test.

use crate::checks::{check_answer, check_row};
use bg_journal::{Change, Error, FileText, Journal, Newest, Swap, newest_of};
use std::alloc::{AllocError, Global};
use std::process::Abort;
use std::{fs, io};

/// The change that a word stands for: `NAME=TEXT` gives a file a text, and the name of a folder
/// alone removes its files.
fn change(alloc: Global, word: &str) -> Result<Change, AllocError> {
    let (name, text) = word.split_once('=').unwrap_or((word, ""));
    let is_text = name.len() < word.len();
    let name = String::from_str(alloc, name)?;
    if !is_text {
        return Ok(Change::Remove(name));
    }
    let text = text.as_bytes().to_vec(alloc)?;
    Ok(Change::Put(FileText { name, text }))
}

/// The changes that words stand for, with commas between them. They last as long as the process.
fn changes<'a>(rt: &(impl AllocGlobal + Abort), words: &str) -> &'a [Change] {
    let mut changes = Vec::new(rt.alloc());
    for word in words.split(',') {
        let change = change(rt.alloc(), word).expect(rt, "memory");
        changes.push(change).expect(rt, "memory");
    }
    changes.leak()
}

/// Removes a journal, if there is one.
fn remove_files(host: &HostRuntime, path: &str) -> io::Result<()> {
    let log = format!(in host.alloc(); "{path}-wal")?;
    let _ = fs::remove_file(host, path);
    let _ = fs::remove_file(host, log.as_str());
    Ok(())
}

/// Makes the changes that words stand for. Where two texts of the file `.turn` and a colon stand
/// before them, they are made behind the first text, and give that file the second one. Returns
/// whether they are made.
fn write(
    rt: &(impl AllocGlobal + Abort),
    journal: &mut Journal,
    words: &str,
) -> Result<bool, Error> {
    let Some((texts, words)) = words.split_once(": ") else {
        journal.write(changes(rt, words))?;
        return Ok(true);
    };
    let (before, after) = texts.split_once('|').expect(rt, "two texts");
    let swap = Swap {
        name: ".turn",
        before: before.as_bytes(),
        after: after.as_bytes(),
    };
    journal.write_after(swap, changes(rt, words))
}

/// The files of a journal, as `NAME=TEXT;NAME=TEXT;`.
fn files_of(alloc: Global, journal: &mut Journal) -> Result<String, Error> {
    let mut out = String::new(alloc);
    for file in journal.files()?.iter() {
        let text = str::from_utf8(&file.text).unwrap_or("?");
        write!(out, "{}={text};", file.name)?;
    }
    Ok(out)
}

/// Opens a journal, makes the changes that words stand for, and returns whether they are made, and
/// which files there are.
fn outcome_of(
    rt: &(impl AllocGlobal + Abort),
    host: &HostRuntime,
    path: &str,
    words: &str,
) -> Result<(bool, String), Error> {
    let mut journal = Journal::open(host, path)?;
    let is_made = write(rt, &mut journal, words)?;
    Ok((is_made, files_of(rt.alloc(), &mut journal)?))
}

/// In a new journal, which is opened for each row, the changes of the row leave these files;
/// "still " stands before these where nothing is changed.
fn check_changes(rt: &(impl AllocGlobal + Abort), host: &HostRuntime, path: &str, rows: &str) {
    remove_files(host, path).expect(rt, "memory");
    for row in rows.lines() {
        let (words, wanted) = row.split_once(" > ").expect(rt, "an arrow");
        let files = wanted.strip_prefix("still ").unwrap_or(wanted);
        let (is_made, found) = outcome_of(rt, host, path, words).expect(rt, words);
        let is_so = found.as_str() == files && is_made == (files.len() == wanted.len());
        check_answer(rt, row, found.as_str(), is_so);
    }
}

const WRITTEN: &str = "\
b/1=one,a/1=two > a/1=two;b/1=one;
b/1=three > a/1=two;b/1=three;";

#[test]
fn a_journal_has_the_newest_texts_also_when_opened_anew(rt: HostRuntime) {
    check_changes(&rt, &rt, "newest.db", WRITTEN);
}

const REMOVED: &str = "a/1=gone,a0/1=stays,aa/1=stays,a=stays,a,a/2=new > \
                       a=stays;a/2=new;a0/1=stays;aa/1=stays;";

#[test]
fn the_files_of_one_folder_are_removed(rt: HostRuntime) {
    check_changes(&rt, &rt, "removed.db", REMOVED);
}

const FOLLOWING: &str = "\
.turn=mine 0 > .turn=mine 0;
mine 0|mine 1: a/1=one > .turn=mine 1;a/1=one;
mine 0|mine 1: a/1=late > still .turn=mine 1;a/1=one;
mine 2|mine 3: a/1=early > still .turn=mine 1;a/1=one;
other 1|other 2: a/1=else > still .turn=mine 1;a/1=one;
mine 1|mine 2: a/1=two > .turn=mine 2;a/1=two;";

#[test]
fn a_write_follows_the_newest_or_changes_nothing(rt: HostRuntime) {
    check_changes(&rt, &rt, "followed.db", FOLLOWING);
}

const MANY: &str = "a/1=one,a/2=two,a/1=three,b,b/1=four,c/1=five,c";

/// Changes, a file, and what they make of it.
const NEWEST: [(&str, &str, Newest<'_>); 9] = [
    (MANY, "a/1", Newest::Text(b"three")),
    (MANY, "a/2", Newest::Text(b"two")),
    (MANY, "b/1", Newest::Text(b"four")),
    (MANY, "b/2", Newest::Gone),
    (MANY, "c/1", Newest::Gone),
    (MANY, "cc/1", Newest::Unchanged),
    (MANY, "a", Newest::Unchanged),
    (MANY, "c", Newest::Unchanged),
    ("d/1=one", "d/1", Newest::Text(b"one")),
];

#[test]
fn the_last_change_of_a_file_decides(rt: HostRuntime) {
    check_newest(&rt);
}

fn check_newest(rt: &(impl AllocGlobal + Abort)) {
    for (words, name, wanted) in &NEWEST {
        let newest = newest_of(changes(rt, words), name);
        check_row(rt, name, newest == *wanted);
    }
}
