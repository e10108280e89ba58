//! Lines, boards, transcripts and judgements. The expected texts are those of the rules and
//! formats, worked out by hand.
mod actions;
mod boards;
mod devices;
mod growths;
mod helpers;
mod inputs;
mod judging;
mod lines;
mod passes;
mod pictures;
mod reasons;
mod records;
mod rules;
mod transcripts;
