//! Texts of tests in sections, each of which begins with its name, and an empty line stands between
//! each two.
use arrayvec::ArrayVec;
use std::process::Abort;

/// The lines of a section, which take no memory.
pub(crate) type Lines<'a> = ArrayVec<&'a str, 96>;

/// The section of this name, without that.
fn section<'a>(text: &'a str, name: &str) -> Option<&'a str> {
    for section in text.split("\n\n") {
        let (title, lines) = section.split_once('\n')?;
        if title == name {
            return Some(lines);
        }
    }
    None
}

fn add(rt: &impl Abort, lines: &mut Lines<'static>, text: &'static str) {
    for line in text.lines() {
        assert!(rt; lines.try_push(line).is_ok(), "too many lines: {line}");
    }
}

/// The lines of the section of this name, where a line "as NAME" stands for those of the shared
/// section of that name.
pub(crate) fn lines_of(
    rt: &impl Abort,
    text: &'static str,
    shared: &'static str,
    name: &str,
) -> Lines<'static> {
    let lines = section(text, name).expect(rt, "a section");
    let mut found = Lines::new();
    add_section(rt, &mut found, shared, lines);
    found
}

/// Adds the lines of a section.
fn add_section(
    rt: &impl Abort,
    found: &mut Lines<'static>,
    shared: &'static str,
    lines: &'static str,
) {
    for line in lines.lines() {
        match line.strip_prefix("as ") {
            None => add(rt, found, line),
            Some(name) => add(
                rt,
                found,
                section(shared, name).expect(rt, "a shared section"),
            ),
        }
    }
}

/// The names of the sections.
pub(crate) fn names_of(rt: &impl Abort, text: &'static str) -> Lines<'static> {
    let mut names = Lines::new();
    add_names(rt, &mut names, text);
    names
}

fn add_names(rt: &impl Abort, names: &mut Lines<'static>, text: &'static str) {
    for section in text.split("\n\n") {
        if let Some((name, _)) = section.split_once('\n') {
            add(rt, names, name);
        }
    }
}
