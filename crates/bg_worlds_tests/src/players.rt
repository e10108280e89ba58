//! Automatic players and their matches, in memory and in rounds.

mod actions;
mod auto_actions;
mod round_calls;
mod round_setups;
mod rounds;
mod rules;
mod simulations;
mod words;
