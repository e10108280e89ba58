//! The fields of rows on a legal match.
ghost use Rattle.std.specs.Prelude.{◌≡◌, ◌++◌, IfOk, OnOk};
ghost use Rattle.bg_reports.specs.Rows.{AreMatchFields, id_fields, match_field, open_fields, position_field, points_field, result_fields, rules_number};
ghost use Rattle.bg_reports.specs.Rows.{standing_fields, terms_fields, won_fields, xgid_field};
ghost use Rattle.bg_ids.specs.Xgids.{xgid_fault};

use crate::rows::fields::RowForm;
use bg_board::Player;
use bg_ids::{MatchId, PositionId, Xgid};
use bg_match::{Phase, Record, Rules, Standing};
use std::alloc::{AllocError, Global};

/// Returns what is told of a match. If `is_cut` is set, it is of a match file that ends within a
/// game.
pub(super) fn match_row(
    alloc: Global,
    form: RowForm,
    log: &Record,
    is_cut: bool,
) -> Result<Vec<u8>, AllocError>
    ensures { IfOk result (λ row. AreMatchFields form log.now is_cut row.items) }
{
    let standing = log.standing();
    let mut row = Vec::new(alloc);
    form.put_words(alloc, &mut row, "verdict", "ok")?;
    form.put_unknown(&mut row, "\t\t\t")?;
    put_terms(form, &mut row, log)?;
    put_standing(alloc, form, &mut row, &standing, is_cut)?;
    put_ids(alloc, form, &mut row, &standing)?;
    put_points(form, &mut row, &standing)?;
    Ok(row)
}

/// Appends the number of entries of a match, its length, and its rules.
fn put_terms(form: RowForm, out: &mut Vec<u8>, log: &Record) -> Result<(), AllocError>
    ensures { OnOk result (out.new.items ≡ out.old.items ++ terms_fields form log.now) }
{
    form.put_count(out, "entries", log.len().into())?;
    form.put_count(out, "length", log.length().into())?;
    form.put_count(out, "rules", number_of(log.rules()))
}

/// Returns the number that names rules.
fn number_of(rules: Rules) -> u64
    ensures { result ≡ rules_number rules }
{
    match rules {
        Rules::One => 1,
        Rules::Two => 2,
    }
}

/// Appends the score, the game, the winner and the state of a match.
fn put_standing(
    alloc: Global,
    form: RowForm,
    out: &mut Vec<u8>,
    standing: &Standing,
    is_cut: bool,
) -> Result<(), AllocError>
    ensures { OnOk result (out.new.items ≡ out.old.items ++ standing_fields form standing.now is_cut) }
{
    let (x, o) = standing.score();
    form.put_count(out, "x", x.into())?;
    form.put_count(out, "o", o.into())?;
    form.put_count(out, "game", standing.game().into())?;
    put_result(alloc, form, out, standing.phase(), is_cut)
}

/// Appends the winner of a match, and its state.
fn put_result(
    alloc: Global,
    form: RowForm,
    out: &mut Vec<u8>,
    phase: Phase,
    is_cut: bool,
) -> Result<(), AllocError>
    ensures { OnOk result (out.new.items ≡ out.old.items ++ result_fields form phase is_cut) }
{
    match phase {
        Phase::Over(Player::X) => put_win(alloc, form, out, "X"),
        Phase::Over(Player::O) => put_win(alloc, form, out, "O"),
        _ if is_cut => put_open(alloc, form, out, "cut"),
        _ => put_open(alloc, form, out, "in game"),
    }
}

/// Appends the letter of the winner of a match that is over, and its state.
fn put_win(alloc: Global, form: RowForm, out: &mut Vec<u8>, letter: &str) -> Result<(), AllocError>
    ensures { OnOk result (out.new.items ≡ out.old.items ++ won_fields form letter.now) }
{
    form.put_words(alloc, out, "winner", letter)?;
    form.put_words(alloc, out, "state", "over")
}

/// Appends the state of a match that is not over, which has no winner.
fn put_open(alloc: Global, form: RowForm, out: &mut Vec<u8>, state: &str) -> Result<(), AllocError>
    ensures { OnOk result (out.new.items ≡ out.old.items ++ open_fields form state.now) }
{
    form.put_unknown(out, "\t")?;
    form.put_words(alloc, out, "state", state)
}

/// Appends the identifiers of a standing, as other programs read them.
fn put_ids(
    alloc: Global,
    form: RowForm,
    out: &mut Vec<u8>,
    standing: &Standing,
) -> Result<(), AllocError>
    ensures { OnOk result (out.new.items ≡ out.old.items ++ id_fields form standing.now) }
{
    put_position_id(alloc, form, out, standing)?;
    put_match_id(alloc, form, out, standing)?;
    put_xgid(alloc, form, out, standing)
}

/// Appends the Position ID of a standing.
fn put_position_id(
    alloc: Global,
    form: RowForm,
    out: &mut Vec<u8>,
    standing: &Standing,
) -> Result<(), AllocError>
    ensures { OnOk result (out.new.items ≡ out.old.items ++ position_field form standing.now) }
{
    form.put_words(alloc, out, "position_id", PositionId::of(standing).as_str())
}

/// Appends the Match ID of a standing.
fn put_match_id(
    alloc: Global,
    form: RowForm,
    out: &mut Vec<u8>,
    standing: &Standing,
) -> Result<(), AllocError>
    ensures { OnOk result (out.new.items ≡ out.old.items ++ match_field form standing.now) }
{
    form.put_words(alloc, out, "match_id", MatchId::of(standing).as_str())
}

/// Appends the XGID of a standing, if it has one.
fn put_xgid(
    alloc: Global,
    form: RowForm,
    out: &mut Vec<u8>,
    standing: &Standing,
) -> Result<(), AllocError>
    ensures { OnOk result
        (out.new.items ≡ out.old.items ++ xgid_field form (xgid_fault standing.now.phase) standing.now) }
{
    match Xgid::of(standing) {
        Ok(id) => form.put_words(alloc, out, "xgid", id.as_str()),
        Err(_) => form.put_unknown(out, "\t"),
    }
}

/// Appends by how many points a match was won, if it is over.
fn put_points(form: RowForm, out: &mut Vec<u8>, standing: &Standing) -> Result<(), AllocError>
    ensures { OnOk result
        (out.new.items ≡ out.old.items ++ points_field form standing.now.phase standing.now) }
{
    let (x, o) = standing.score();
    match standing.phase() {
        Phase::Over(Player::X) => form.put_count(out, "points", x.saturating_sub(o).into()),
        Phase::Over(Player::O) => form.put_count(out, "points", o.saturating_sub(x).into()),
        _ => form.put_unknown(out, "\t"),
    }
}
