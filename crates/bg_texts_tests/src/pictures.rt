//! Pictures and pages. The expected texts are worked out by hand, from where things stand on a
//! board.
mod games;
mod growths;
mod pages;
mod pictures;
mod results;
mod standings;
mod uses;
