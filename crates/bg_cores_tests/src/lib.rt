//! Tests of the rules and of the cores, by what is public of their crates: boards, turns, matches,
//! identifiers of positions and matches, bytes in and out, packets, saved texts, and the referees,
//! followers and parties that take them.
#![tactic(auto)]

#[cfg(test)]
mod boards;
#[cfg(test)]
mod bytes;
#[cfg(test)]
mod checks;
#[cfg(test)]
mod followers;
#[cfg(test)]
mod ids;
#[cfg(test)]
mod lasting;
#[cfg(test)]
mod matches;
#[cfg(test)]
mod parties;
#[cfg(test)]
mod referees;
#[cfg(test)]
mod streams;
#[cfg(test)]
mod turns;
#[cfg(test)]
mod words;
