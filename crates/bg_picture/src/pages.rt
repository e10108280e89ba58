//! The page of a match.
ghost use Rattle.std.specs.Prelude.{◌≡◌, ◌++◌, OnOk, IfOk};
ghost use Rattle.bg_match.specs.State.{start_of as start_of_terms};
ghost use Rattle.bg_picture.specs.Pages.{IsPage, PutsEntries, end_text, inner_picture, page_end, page_start};
ghost use Rattle.bg_picture.specs.Pages.{scripts, summary_text};

use crate::Numbering;
use crate::descriptions::{put_phase_words, put_standing};
use crate::items::{put_entry, put_game_start};
use crate::page_heads::{PageWords, put_body, put_head, put_headings, put_shared_shapes};
use crate::page_ids::put_id_script;
use crate::page_parts::{put_live_script, put_script, put_view};
use crate::pictures::{put_drawing, put_frame, put_titles};
use bg_board::Player;
use bg_match::{Record, Standing};
use bg_text::put_text;
use std::alloc::{AllocError, Global};

/// Returns the page of a match: one HTML file with the start of each game, its entries and its
/// result. Each has the data from which the page's script draws its picture; behind them stands the
/// picture of the record's standing (docs/FORMATS.md, "Pages"). The words may be any text, as they
/// are escaped. Unless `seconds` is 0, a browser asks for a newer page after that many seconds, and
/// shows it from the last item on.
///
/// # Errors
/// AllocError where there is no memory for it.
pub fn page_text(
    alloc: Global,
    log: &Record,
    words: PageWords<'_>,
    numbering: Numbering,
    seconds: u16,
) -> Result<Vec<u8>, AllocError>
    ensures { IfOk result (λ text. IsPage (record { title = words.entry.title.now; x = words.entry.x.now; o = words.entry.o.now })
        numbering seconds log.now.terms log.now.entries text.items) }
{
    let mut out = Vec::new(alloc);
    put_start(&mut out, words, numbering, seconds)?;
    put_game_start(&mut out, 0, &start_of(log))?;
    put_entries(&mut out, log)?;
    put_end(&mut out, numbering, &log.standing())?;
    Ok(out)
}

/// Returns the first standing of a record's match.
fn start_of(log: &Record) -> Standing
    ensures { result ≡ start_of_terms log.now.terms }
{
    Standing::start(log.length(), log.rules())
}

/// Appends the items of all entries.
fn put_entries(out: &mut Vec<u8>, log: &Record) -> Result<(), AllocError>
    ensures { OnOk result (PutsEntries log.now out.old.items out.new.items) }
{
    let mut standing = start_of(log);
    for written in 0..log.len() {
        let entry = log.entry(written + 1).unwrap();
        standing = put_entry(out, written + 1, &standing, entry)?;
    }
    Ok(())
}

/// Appends all that stands before the games.
#[tactic(auto, unfolding(crate::specs::Pages::page_start))]
fn put_start(
    out: &mut Vec<u8>,
    words: PageWords<'_>,
    numbering: Numbering,
    seconds: u16,
) -> Result<(), AllocError>
    ensures { OnOk result (out.new.items ≡ out.old.items
        ++ page_start (record { title = words.entry.title.now; x = words.entry.x.now; o = words.entry.o.now }) numbering seconds) }
{
    put_head(out, words.title, seconds)?;
    put_body(out, numbering, seconds)?;
    put_shared_shapes(out)?;
    put_headings(out, words)?;
    put_view(out)
}

/// Appends the picture of a standing whose shapes the page has.
#[tactic(auto, unfolding(crate::specs::Pages::inner_picture))]
fn put_picture(out: &mut Vec<u8>, standing: &Standing, reader: Player) -> Result<(), AllocError>
    ensures { OnOk result (out.new.items ≡ out.old.items ++ inner_picture standing.now reader) }
{
    put_text(out, "<svg")?;
    put_frame(out)?;
    put_titles(out, standing, reader)?;
    put_drawing(out, standing, reader)?;
    put_text(out, "</svg>\n")
}

/// Appends the standing of the match in words.
#[tactic(auto, unfolding(crate::specs::Pages::summary_text))]
fn put_summary(out: &mut Vec<u8>, standing: &Standing) -> Result<(), AllocError>
    ensures { OnOk result (out.new.items ≡ out.old.items ++ summary_text standing.now) }
{
    put_text(out, "<p>")?;
    put_standing(out, standing)?;
    put_text(out, "; ")?;
    put_phase_words(out, standing)?;
    put_text(out, "</p>\n")
}

/// Appends the standing of the match, behind its games.
#[tactic(auto, unfolding(crate::specs::Pages::end_text))]
fn put_last_standing(
    out: &mut Vec<u8>,
    numbering: Numbering,
    standing: &Standing,
) -> Result<(), AllocError>
    ensures { OnOk result (out.new.items ≡ out.old.items ++ end_text numbering standing.now) }
{
    put_text(out, "</ol>\n</div>\n</main>\n<div id='end'>\n")?;
    put_picture(out, standing, numbering.reader(standing.phase()))?;
    put_summary(out, standing)?;
    put_text(out, "</div>\n")?;
    Ok(())
}

/// Ends the page of a match that has this standing.
#[tactic(auto, unfolding(crate::specs::Pages::page_end))]
fn put_end(out: &mut Vec<u8>, numbering: Numbering, standing: &Standing) -> Result<(), AllocError>
    ensures { OnOk result (out.new.items ≡ out.old.items ++ page_end numbering standing.now) }
{
    put_last_standing(out, numbering, standing)?;
    put_text(out, "<script>\n")?;
    put_scripts(out)?;
    put_text(out, "</script>\n</body>\n</html>\n")?;
    Ok(())
}

/// Appends what the page does where scripts run.
#[tactic(auto, unfolding(crate::specs::Pages::scripts))]
fn put_scripts(out: &mut Vec<u8>) -> Result<(), AllocError>
    ensures { OnOk result (out.new.items ≡ out.old.items ++ scripts) }
{
    put_id_script(out)?;
    put_script(out)?;
    put_live_script(out)
}
