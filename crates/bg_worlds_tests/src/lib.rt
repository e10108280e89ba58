//! Tests of worlds, of their parties by themselves and in several processes, of automatic players
//! and their matches, and of what crosses crates, by what is public of them.
#![tactic(auto)]

#[cfg(test)]
mod across;
#[cfg(test)]
mod checks;
#[cfg(test)]
mod devices;
#[cfg(test)]
mod fronts;
#[cfg(test)]
mod players;
#[cfg(test)]
mod sections;
#[cfg(test)]
mod uses;
#[cfg(test)]
mod worlds;
