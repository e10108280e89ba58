//! The limits of a match (docs/RULES.md, "Limits").

/// The number of an entry in its match, from 1, or a count of entries, from 0.
pub type Number = u32;

/// The rules that a match is played by (docs/RULES.md, "A turn without steps").
#[derive(Clone, Copy, Debug, PartialEq, Eq)]
pub enum Rules {
    /// A player who can play no step plays a turn without steps.
    One,
    /// The referee passes the turn of a player who can play no step.
    Two,
}

/// The terms on which the players agree before a match.
#[derive(Clone, Copy, Debug, PartialEq, Eq)]
pub struct Terms {
    /// The length of the match, in points, from 1 to 99.
    pub length: u8,
    /// The rules of the match.
    pub rules: Rules,
}

/// The greatest number of entries of a match.
pub const MOST_ENTRIES: Number = 1_000_000;

/// The length of the shortest match, in points.
pub const SHORTEST_MATCH: u8 = 1;

/// The length of the longest match, in points.
pub const LONGEST_MATCH: u8 = 99;

/// The greatest number that the cube shows.
pub const GREATEST_CUBE: u8 = 128;

/// The greatest score: one point short of the longest match, and then a backgammon with the
/// greatest cube.
pub const GREATEST_SCORE: u16 = 482;
