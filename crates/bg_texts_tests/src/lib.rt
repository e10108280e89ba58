//! Tests of texts, by what is public of their crates: lines and the judge, pictures and pages, what
//! a player sees, match files of other programs, turns as people type them, and what is reported of
//! files.
#![tactic(auto)]

#[cfg(test)]
mod boards;
#[cfg(test)]
mod checks;
#[cfg(test)]
mod match_files;
#[cfg(test)]
mod pictures;
#[cfg(test)]
mod records;
#[cfg(test)]
mod reports;
#[cfg(test)]
mod tables;
#[cfg(test)]
mod texts;
#[cfg(test)]
mod typed;
