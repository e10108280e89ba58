//! Match files told apart from other files.
use super::records::{ONE_POINT, THREE_POINTS};
use crate::checks::check_row;
use bg_mat::is_match_file;

/// Texts, and whether they are match files.
static TEXTS: [(&str, bool); 15] = [
    (ONE_POINT, true),
    (THREE_POINTS, true),
    ("7 point match", true),
    (" 0 point match\n", true),
    ("; a comment\r\n\r\n\t  17   point match\r\nGame 1\n", true),
    (" 9999 point match\nnothing of a game\n", true),
    ("", false),
    ("\n \t\r\n; 7 point match\n", false),
    (" Game 1\n 7 point match\n", false),
    ("bg match 1 length 7 rules 1\n", false),
    (" 10000 point match\n", false),
    (" point match\n", false),
    (" 7 point matches\n", false),
    (" 7 point match and more\n", false),
    (" -7 point match\n", false),
];

#[test]
fn files_told_apart(rt: HostRuntime) {
    for &(text, wanted) in &TEXTS {
        check_row(&rt, text, is_match_file(text.as_bytes()) == wanted);
    }
}
