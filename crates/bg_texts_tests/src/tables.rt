//! What a player sees of a match. The expected texts are worked out by hand, from where things
//! stand on a board.
mod drawings;
mod growths;
mod pips;
mod prompts;
mod refusals;
mod results;
mod turn_lists;
mod uses;
mod views;
