//! The texts of requests, and of answers.

use crate::checks::check;
use bg_etcd::{
    Batches, Changes, Event, Fault, File, MOST_BYTES, News, news_in, page_in, page_text,
    removal_text, taken_in, transaction_text,
};
use std::alloc::{AllocError, Global};
use std::process::Abort;

/// Whether a text is this one.
fn is_text(text: Result<String, AllocError>, wanted: &str) -> bool {
    match text {
        Ok(text) => text.as_str() == wanted,
        Err(_) => false,
    }
}

fn file(alloc: Global, name: &str, text: &[u8], revision: u64) -> Result<File, AllocError> {
    Ok(File {
        name: String::from_str(alloc, name)?,
        text: text.to_vec(alloc)?,
        revision,
    })
}

/// Returns changes of a folder, which is known up to a revision, by which one file has a text.
fn changes_of(
    alloc: Global,
    folder: &str,
    known: u64,
    name: &str,
    text: &[u8],
) -> Result<Changes, AllocError> {
    let mut changes = Changes::new(alloc, folder, known)?;
    changes.put(file(alloc, name, text, 0)?)?;
    Ok(changes)
}

/// A transaction of changes of two folders. `YmdfcmVsYXkvYS8=` is `bg_relay/a/`, and so on.
const TRANSACTION: &str = "{\"compare\":[\
    {\"key\":\"YmdfcmVsYXkvYS8=\",\"range_end\":\"YmdfcmVsYXkvYTA=\",\"target\":\"MOD\",\
    \"result\":\"LESS\",\"mod_revision\":\"5\"},\
    {\"key\":\"YmdfcmVsYXkvYS9tYXRjaA==\",\"target\":\"CREATE\",\"result\":\"GREATER\",\
    \"create_revision\":\"0\"},\
    {\"key\":\"YmdfcmVsYXkvYi8=\",\"range_end\":\"YmdfcmVsYXkvYjA=\",\"target\":\"MOD\",\
    \"result\":\"LESS\",\"mod_revision\":\"1\"}],\"success\":[\
    {\"request_put\":{\"key\":\"YmdfcmVsYXkvYS94\",\"value\":\"b2xk\"}},\
    {\"request_put\":{\"key\":\"YmdfcmVsYXkvYi94\",\"value\":\"bmV3\"}}],\"failure\":[]}";

fn transaction(alloc: Global) -> Result<String, AllocError> {
    let old = changes_of(alloc, "a", 4, "a/x", b"old")?;
    let new = changes_of(alloc, "b", 0, "b/x", b"new")?;
    transaction_text(alloc, &[old, new])
}

#[test]
fn a_transaction_compares_each_folder(rt: HostRuntime) {
    let is_so = is_text(transaction(rt.alloc()), TRANSACTION);
    check(&rt, is_so, "each is compared");
}

/// A page from behind `bg_relay/a/x` and a zero, which is `YmdfcmVsYXkvYS94AA==`.
const PAGE: &str = "{\"key\":\"YmdfcmVsYXkvYS94AA==\",\"range_end\":\"YmdfcmVsYXkw\",\
                    \"limit\":\"100\",\"revision\":\"7\"}";

#[test]
fn a_page_begins_behind_a_name(rt: HostRuntime) {
    let is_so = is_text(page_text(rt.alloc(), "a/x", 7), PAGE);
    check(&rt, is_so, "behind a name");
}

const REMOVAL: &str = "{\"compare\":[{\"key\":\"YmdfcmVsYXkvYS8=\",\
    \"range_end\":\"YmdfcmVsYXkvYTA=\",\"target\":\"MOD\",\"result\":\"LESS\",\
    \"mod_revision\":\"5\"}],\"success\":[{\"request_delete_range\":{\"key\":\
    \"YmdfcmVsYXkvYS8=\",\"range_end\":\"YmdfcmVsYXkvYTA=\"}}],\"failure\":[{\
    \"request_range\":{\"key\":\"YmdfcmVsYXkvYS8=\",\"range_end\":\"YmdfcmVsYXkvYTA=\"}}]}";

#[test]
fn a_removal_compares_its_folder(rt: HostRuntime) {
    let is_so = is_text(removal_text(rt.alloc(), "a", 4), REMOVAL);
    check(&rt, is_so, "its folder");
}

const TAKEN: &str = "{\"header\":{\"cluster_id\":\"324952591200643719\",\
    \"member_id\":\"3319814642761637952\",\"revision\":\"12\",\"raft_term\":\"2\"},\
    \"succeeded\":true,\"responses\":[{\"response_put\":{}}]}";

const NOT_TAKEN: &str = "{\"header\":{\"cluster_id\":\"324952591200643719\",\
    \"member_id\":\"3319814642761637952\",\"revision\":\"12\",\"raft_term\":\"2\"},\
    \"responses\":[{\"response_range\":{\"header\":{\"revision\":\"12\"},\"kvs\":[{\"key\":\
    \"YmdfcmVsYXkvYS94\",\"create_revision\":\"2\",\"mod_revision\":\"9\",\"version\":\"1\",\
    \"value\":\"b2xk\"}],\"count\":\"1\"}}]}";

/// The files of an answer to a transaction, if it says at revision 12 whether this was taken.
fn files_in(alloc: Global, answer: &str, is_taken: bool) -> Option<&'static mut [File]> {
    let taken = taken_in(alloc, 200, answer.as_bytes()).ok()?;
    if taken.is_taken != is_taken || taken.revision != 12 {
        return None;
    }
    Some(taken.files.leak())
}

/// Whether the file that has this text by changes is among these, and nothing else is newer.
fn are_in(alloc: Global, text: &[u8], files: &[File]) -> Option<bool> {
    let changes = changes_of(alloc, "a", 4, "a/x", text).ok()?;
    Some(changes.are_all_in(files))
}

#[test]
fn a_transaction_is_taken_only_where_that_is_said(rt: HostRuntime) {
    check_taken(&rt, rt.alloc());
}

/// One that is taken, and one that is not, though the text is there.
fn check_taken(rt: &impl Abort, alloc: Global) {
    let taken = files_in(alloc, TAKEN, true);
    check(rt, taken.is_some_and(|files| files.is_empty()), "taken");
    let files = files_in(alloc, NOT_TAKEN, false).expect(rt, "refused");
    let is_there = are_in(alloc, b"old", files) == Some(true);
    check(rt, is_there, "the text is there all the same");
    let is_other = are_in(alloc, b"other", files) == Some(false);
    check(rt, is_other, "another text is there");
}

/// Whether changes are in what has their file, and another one of this revision.
fn are_in_with(alloc: Global, revision: u64) -> Option<bool> {
    let own = file(alloc, "a/x", b"old", 9).ok()?;
    let other = file(alloc, "a/y", b"old", revision).ok()?;
    are_in(alloc, b"old", &[own, other])
}

#[test]
fn changes_are_not_in_where_something_else_is_newer(rt: HostRuntime) {
    check_newer(&rt, rt.alloc());
}

/// The other file is known, or newer.
fn check_newer(rt: &impl Abort, alloc: Global) {
    let is_in = are_in_with(alloc, 4) == Some(true);
    check(rt, is_in, "the other file is known");
    let is_behind = are_in_with(alloc, 5) == Some(false);
    check(rt, is_behind, "the other file is newer");
}

#[test]
fn a_refusal_has_its_reason(rt: HostRuntime) {
    check(&rt, is_refused(rt.alloc()), "its reason");
    let is_unreadable = is_unreadable(rt.alloc());
    check(&rt, is_unreadable, "no head");
}

fn is_refused(alloc: Global) -> bool {
    let text = "{\"error\":\"etcdserver: request is too large\",\"code\":3}";
    match page_in(alloc, 400, text.as_bytes()) {
        Err(Fault::Refused(400, reason)) => reason.as_str() == "etcdserver: request is too large",
        _ => false,
    }
}

fn is_unreadable(alloc: Global) -> bool {
    matches!(page_in(alloc, 200, b"{}"), Err(Fault::Unreadable))
}

/// A page with a file of another program.
const OTHERS: &str = "{\"header\":{\"cluster_id\":\"324952591200643719\",\
    \"member_id\":\"3319814642761637952\",\"revision\":\"12\",\"raft_term\":\"2\"},\
    \"kvs\":[{\"key\":\"YmdfcmVsYXkvYS94\"},{\"key\":\"b3RoZXI=\",\"value\":\"b2xk\"}],\
    \"more\":true,\"count\":\"9\"}";

/// Whether a page has one file, of this name, and there are more.
fn has_more_than(alloc: Global, page: &str, name: &str) -> bool {
    match page_in(alloc, 200, page.as_bytes()) {
        Ok(page) => {
            let is_named = page.files.iter().all(|file| file.name.as_str() == name);
            page.has_more && page.files.len() == 1 && is_named
        }
        Err(_) => false,
    }
}

#[test]
fn a_page_says_whether_there_are_more(rt: HostRuntime) {
    let is_so = has_more_than(rt.alloc(), OTHERS, "a/x");
    check(&rt, is_so, "the keys of others are passed over");
}

const EVENTS: &str = "{\"result\":{\"header\":{\"revision\":\"3\"},\"events\":[\
    {\"kv\":{\"key\":\"YmdfcmVsYXkvYS94\",\"mod_revision\":\"2\",\"value\":\"aGVsbG8=\"}},\
    {\"type\":\"DELETE\",\"kv\":{\"key\":\"YmdfcmVsYXkvYS94\",\"mod_revision\":\"3\"}}]}}";

const ENDED: &str = "{\"result\":{\"canceled\":true,\"compact_revision\":\"5\"}}";

/// The events of a line of a watch; none of another line.
fn events_in(alloc: Global, line: &str) -> Option<&'static mut [Event]> {
    match news_in(alloc, line.as_bytes()) {
        Ok(News::Events(events)) => Some(events.leak()),
        _ => None,
    }
}

#[test]
fn a_watch_tells_puts_and_removals(rt: HostRuntime) {
    check_news(&rt, rt.alloc());
}

/// A put, a removal and the end of a watch.
fn check_news(rt: &impl Abort, alloc: Global) {
    let events = events_in(alloc, EVENTS).expect(rt, "events");
    let put = events.first().and_then(|event| event.text.as_ref());
    let is_put = put.is_some_and(|text| text.as_slice() == b"hello".as_slice());
    check(rt, is_put, "a put");
    let last = events.last();
    let is_removal = last.is_some_and(|event| event.text.is_none() && event.revision == 3);
    check(rt, is_removal, "a removal");
    let is_end = matches!(news_in(alloc, ENDED.as_bytes()), Ok(News::Ended));
    check(rt, is_end, "what it was to tell is forgotten");
}

/// How many changes a transaction takes, of which the first one has a text of so many bytes, and
/// the others have one of a byte each.
fn taken_behind(alloc: Global, bytes: usize) -> Option<u32> {
    let mut text = Vec::new(alloc);
    text.resize(bytes, 0u8).ok()?;
    let first = changes_of(alloc, "a", 1, "a/x", &text).ok()?;
    let other = changes_of(alloc, "a", 1, "a/x", b"1").ok()?;
    Some(count(&first, &other))
}

fn count(first: &Changes, other: &Changes) -> u32 {
    let mut batch = Batches::new();
    if !batch.take(first) {
        return 0;
    }
    for taken in 1..100 {
        if !batch.take(other) {
            return taken;
        }
    }
    100
}

#[test]
fn a_transaction_has_a_bound(rt: HostRuntime) {
    check_bound(&rt, rt.alloc());
}

/// Of texts, and of bytes.
fn check_bound(rt: &impl Abort, alloc: Global) {
    let are_texts = taken_behind(alloc, 1) == Some(20);
    check(rt, are_texts, "twenty texts, and no more");
    let are_bytes = taken_behind(alloc, MOST_BYTES) == Some(1);
    check(rt, are_bytes, "too many bytes");
}
