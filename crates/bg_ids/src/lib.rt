//! Names positions and matches by the identifiers that other programs read: GNU Backgammon's
//! Position ID and Match ID, and the XGID of eXtreme Gammon (docs/FORMATS.md, "IDs of positions and
//! matches").
//!
//! ```
//! let standing = Standing::start(7, Rules::One);
//! let id = PositionId::of(&standing);
//! assert!(rt; id.as_str() == "4HPwATDgc/ABMA");
//! let board = PositionId::board_of(b"4HPwATDgc/ABMA", Player::X)?;
//! assert!(rt; board == Board::start());
//! // Nobody is on roll yet, which an XGID cannot tell.
//! assert!(rt; Xgid::of(&standing).err() == Some(XgidFault::NoGame));
//! ```
#![tactic(auto)]

mod bits;
mod laws;
mod match_ids;
mod position_ids;
mod reading;
mod turns;
mod xgids;

pub use laws::{ids_are_whole, match_ids_differ, position_ids_differ};
pub use match_ids::MatchId;
pub use position_ids::PositionId;
pub use reading::PositionIdFault;
pub use turns::{on_roll, to_act};
pub use xgids::{Xgid, XgidFault};
