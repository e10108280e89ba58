//! The calls that draw transcripts.
ghost use Rattle.std.specs.Prelude.{◌≡◌};
ghost use Rattle.bg_c.specs.MatchFiles.{MakesOfTranscript};
ghost use Rattle.bg_c.specs.Pictures.{IsPageOf, IsPictureOf, MakesNumbered, MakesPage, MakesPicture};
ghost use Rattle.bg_c.specs.Pictures.{numbering_numbered};
ghost use Rattle.bg_c.specs.Sets.{Writes};

use crate::rooms::give;
use crate::statuses::Status;
use crate::transcripts::record;
use bg_picture::{Numbering, PageWords, page_text, picture_text};
use std::alloc::Global;

/// Returns the numbering of a number, 0 or 1.
fn numbering_numbered(number: u32) -> Option<Numbering>
    ensures { result ≡ numbering_numbered number }
{
    match number {
        0 => Some(Numbering::Mover),
        1 => Some(Numbering::X),
        _ => None,
    }
}

/// Returns the picture after a transcript.
fn picture(alloc: Global, transcript: &[u8], numbering: Numbering) -> Result<Vec<u8>, Status>
    ensures { MakesOfTranscript (IsPictureOf numbering) transcript.now result }
{
    let log = record(alloc, transcript)?;
    Ok(picture_text(alloc, &log.standing(), numbering)?)
}

/// Returns the picture after a transcript, by the number of the numbering.
fn picture_numbered(alloc: Global, transcript: &[u8], numbering: u32) -> Result<Vec<u8>, Status>
    ensures { MakesPicture transcript.now numbering result }
{
    let Some(numbering) = numbering_numbered(numbering) else {
        return Err(Status::BadArgument);
    };
    picture(alloc, transcript, numbering)
}

/// Writes the picture of the position after a transcript, an SVG file. Its points are numbered for
/// the player who moves (`numbering` 0) or for X (1).
///
/// Returns BG_BAD_ARGUMENT where there is no such numbering; BG_REFUSED where
/// [`bg_judge`](crate::judge::bg_judge) does not find the transcript fine; or BG_MEMORY.
#[unsafe(no_mangle)]
pub extern "C" fn bg_picture(
    alloc: Global,
    transcript: &[u8],
    numbering: u32,
    out: &mut [u8],
    needed: &mut usize,
) -> u32
    ensures { Writes (MakesPicture transcript.now numbering) out.old needed.old result out.new needed.new }
{
    give(picture_numbered(alloc, transcript, numbering), out, needed).code()
}

/// Returns the page of a transcript.
fn page(
    alloc: Global,
    transcript: &[u8],
    title: &str,
    x: &str,
    o: &str,
    numbering: Numbering,
    seconds: u16,
) -> Result<Vec<u8>, Status>
    ensures { MakesOfTranscript (IsPageOf (record { title = title.now; x = x.now; o = o.now }) numbering seconds)
        transcript.now result }
{
    let log = record(alloc, transcript)?;
    let words = PageWords { title, x, o };
    Ok(page_text(alloc, &log, words, numbering, seconds)?)
}

/// Returns the page of a transcript, where its words are texts and there may be so many seconds.
fn page_of_texts(
    alloc: Global,
    transcript: &[u8],
    title: &[u8],
    x: &[u8],
    o: &[u8],
    numbering: Numbering,
    seconds: u32,
) -> Result<Vec<u8>, Status>
    ensures { MakesNumbered transcript.now (record { title = title.now; x = x.now; o = o.now }) numbering seconds
        result }
{
    let Ok(title) = str::from_utf8(title) else {
        return Err(Status::BadArgument);
    };
    let Ok(x) = str::from_utf8(x) else {
        return Err(Status::BadArgument);
    };
    let Ok(o) = str::from_utf8(o) else {
        return Err(Status::BadArgument);
    };
    if seconds > u32::from(u16::MAX) {
        return Err(Status::BadArgument);
    }
    page(alloc, transcript, title, x, o, numbering, seconds as u16)
}

/// Returns the page of a transcript, by the number of the numbering.
fn page_numbered(
    alloc: Global,
    transcript: &[u8],
    title: &[u8],
    x: &[u8],
    o: &[u8],
    numbering: u32,
    seconds: u32,
) -> Result<Vec<u8>, Status>
    ensures { MakesPage transcript.now (record { title = title.now; x = x.now; o = o.now }) numbering seconds result }
{
    let Some(numbering) = numbering_numbered(numbering) else {
        return Err(Status::BadArgument);
    };
    page_of_texts(alloc, transcript, title, x, o, numbering, seconds)
}

/// Writes the page of a transcript, one HTML file, with a title and the names of both players,
/// which may be empty. A browser asks for a newer page after `seconds`, unless that is 0. The
/// numbering is as for [`bg_picture`].
///
/// Returns BG_BAD_ARGUMENT where there is no such numbering, where the title or a name is not
/// UTF-8, or where `seconds` is above 65535; BG_REFUSED where
/// [`bg_judge`](crate::judge::bg_judge) does not find the transcript fine; or BG_MEMORY.
#[unsafe(no_mangle)]
pub extern "C" fn bg_page(
    alloc: Global,
    transcript: &[u8],
    title: &[u8],
    x: &[u8],
    o: &[u8],
    numbering: u32,
    seconds: u32,
    out: &mut [u8],
    needed: &mut usize,
) -> u32
    ensures { Writes (MakesPage transcript.now (record { title = title.now; x = x.now; o = o.now }) numbering seconds)
        out.old needed.old result out.new needed.new }
{
    let made = page_numbered(alloc, transcript, title, x, o, numbering, seconds);
    give(made, out, needed).code()
}
