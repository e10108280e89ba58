//! The command that names the standing of a match for other programs.

use crate::inputs::read_record;
use crate::outputs::print_made;
use bg_ids::{MatchId, PositionId, Xgid};
use bg_match::Standing;
use bg_reports::Ending;
use std::alloc::{AllocError, Global};

/// Prints the identifiers of the standing at the end of the transcript on the standard input.
pub fn run(rt: &HostRuntime) -> Result<Ending, Ending> {
    let standing = read_record(rt)?.standing();
    print_made(rt, ids_text(rt.alloc(), &standing))
}

/// Returns the lines with the identifiers of a standing.
fn ids_text(alloc: Global, standing: &Standing) -> Result<Vec<u8>, AllocError> {
    let position = PositionId::of(standing);
    let of_match = MatchId::of(standing);
    let (position, of_match) = (position.as_str(), of_match.as_str());
    let text = match Xgid::of(standing) {
        Ok(xgid) => { format!(in alloc; "Position ID: {position}\nMatch ID: {of_match}\n{xgid}\n") }
        Err(why) => {
            format!(in alloc; "Position ID: {position}\nMatch ID: {of_match}\nno XGID: {why}\n")
        }
    };
    Ok(text?.into_bytes())
}
