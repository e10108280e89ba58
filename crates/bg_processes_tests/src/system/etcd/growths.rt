//! Want of memory: no run of the tests refuses a growth, but `tools/checks/refuse_growths` refuses
//! each in turn.

use crate::checks::{check, check_no_growth_is_left};
use bg_etcd::{Fault, news_in, page_in};
use std::alloc::Global;
use std::process::Abort;

/// An answer with a file, whose name and text are `a/b` and `one`.
const PAGE: &[u8] = b"{\"header\":{\"revision\":\"12\"},\"kvs\":[\
                      {\"key\":\"YmdfcmVsYXkvYS9i\",\"value\":\"b25l\",\"mod_revision\":\"12\"}]}";

/// A line of a watch that reports the same file.
const LINE: &[u8] = b"{\"result\":{\"events\":[\
                      {\"kv\":{\"key\":\"YmdfcmVsYXkvYS9i\",\"value\":\"b25l\",\"mod_revision\":\"12\"}}]}}";

const REFUSAL: &[u8] = b"{\"error\":\"etcdserver: no leader\"}";

/// What lacks memory is said to lack it, and is no other fault.
#[test]
fn refused_growths_of_answers(rt: HostRuntime) {
    check_answers(&rt);
}

fn check_answers(rt: &(impl Abort + AllocGlobal)) {
    let alloc = rt.alloc();
    check(rt, is_page(alloc), "a page");
    check(rt, is_news(alloc), "a line of a watch");
    check(rt, is_refused(alloc), "an answer that is an error");
    check_no_growth_is_left(rt);
}

fn is_page(alloc: Global) -> bool {
    matches!(page_in(alloc, 200, PAGE), Ok(_) | Err(Fault::Memory))
}

fn is_news(alloc: Global) -> bool {
    matches!(news_in(alloc, LINE), Ok(_) | Err(Fault::Memory))
}

fn is_refused(alloc: Global) -> bool {
    match page_in(alloc, 503, REFUSAL) {
        Err(Fault::Refused(503, reason)) => reason.as_str() == "etcdserver: no leader",
        Err(Fault::Memory) => true,
        _ => false,
    }
}
