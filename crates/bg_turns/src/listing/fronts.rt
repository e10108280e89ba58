//! The first steps of a turn, during the search for its lists.
ghost use Rattle.std.specs.Prelude.{◌≡◌, ◌≤◌, ◌<◌, take, slice_set};

use crate::Turn;
use bg_board::Step;

/// Returns the turn of the first `count` of these steps.
pub(crate) fn turn_of(steps: [Step; 4], count: usize) -> Turn
    requires { count ≤ 4 }
    ensures { result ≡ take count steps }
{
    Turn::of(steps, count as u8)
}

/// Returns the steps with another one at a place. Each place is written out, so that the four steps
/// stay in one register.
pub(crate) fn with_step(steps: [Step; 4], place: usize, step: Step) -> [Step; 4]
    requires { place < 4 }
    ensures { result ≡ slice_set steps place step }
{
    let [first, second, third, fourth] = steps;
    match place {
        0 => [step, second, third, fourth],
        1 => [first, step, third, fourth],
        2 => [first, second, step, fourth],
        _ => [first, second, third, step],
    }
}
