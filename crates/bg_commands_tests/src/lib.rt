//! Tests of the commands: the words that name them, what they say of devices and parties, and the
//! lines of use of their libraries.
#![tactic(auto)]

#[cfg(test)]
mod arguments;
#[cfg(test)]
mod checks;
#[cfg(test)]
mod colours;
#[cfg(test)]
mod command_lines;
#[cfg(test)]
mod folders;
#[cfg(test)]
mod kept_output;
#[cfg(test)]
mod lasting;
#[cfg(test)]
mod loops;
#[cfg(test)]
mod observers;
#[cfg(test)]
mod operators;
#[cfg(test)]
mod pairings;
#[cfg(test)]
mod sim;
#[cfg(test)]
mod uses;
