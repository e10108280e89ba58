//! Tests of a match server, by what is public of its crates.
#![tactic(auto)]

#[cfg(test)]
mod checks;
#[cfg(test)]
mod frames;
#[cfg(test)]
mod growths;
#[cfg(test)]
mod journals;
#[cfg(test)]
mod keepers;
#[cfg(test)]
mod lasting;
#[cfg(test)]
mod matches;
#[cfg(test)]
mod operators;
#[cfg(test)]
mod plays;
#[cfg(test)]
mod queues;
#[cfg(test)]
mod requests;
#[cfg(test)]
mod stores;
#[cfg(test)]
mod uses;
