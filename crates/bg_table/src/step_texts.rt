//! Steps, as they are typed.
ghost use Rattle.std.specs.Prelude.{◌≡◌, ◌++◌, OnOk};
ghost use Rattle.bg_text.specs.Entries.EntryText.{source_text, step_text, target_text};
ghost use Rattle.bg_table.specs.StepTexts.{spaced_step, steps_text};

use bg_board::{BAR, OFF, Step};
use bg_text::{put_number, put_text};
use std::alloc::AllocError;

/// Appends steps, each behind a blank.
pub(crate) fn put_steps(out: &mut Vec<u8>, steps: &[Step]) -> Result<(), AllocError>
    ensures { OnOk result (out.new.items ≡ out.old.items ++ steps_text steps.now) }
{
    for step in steps {
        put_spaced(out, *step)?;
    }
    Ok(())
}

/// Appends a step behind a blank.
#[tactic(auto, unfolding(crate::specs::StepTexts::spaced_step))]
pub(crate) fn put_spaced(out: &mut Vec<u8>, step: Step) -> Result<(), AllocError>
    ensures { OnOk result (out.new.items ≡ out.old.items ++ spaced_step step) }
{
    put_text(out, " ")?;
    put_step(out, step)
}

/// Appends a step.
pub(crate) fn put_step(out: &mut Vec<u8>, step: Step) -> Result<(), AllocError>
    ensures { OnOk result (out.new.items ≡ out.old.items ++ step_text step) }
{
    put_source(out, step.from())?;
    put_text(out, "-")?;
    put_target(out, step.to())
}

/// Appends the point where a step begins.
fn put_source(out: &mut Vec<u8>, point: u8) -> Result<(), AllocError>
    ensures { OnOk result (out.new.items ≡ out.old.items ++ source_text point) }
{
    if point == BAR {
        return put_text(out, "bar");
    }
    put_number(out, point.into())
}

/// Appends the point where a step ends.
fn put_target(out: &mut Vec<u8>, point: u8) -> Result<(), AllocError>
    ensures { OnOk result (out.new.items ≡ out.old.items ++ target_text point) }
{
    if point == OFF {
        return put_text(out, "off");
    }
    put_number(out, point.into())
}
