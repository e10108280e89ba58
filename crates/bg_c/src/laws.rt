//! Laws of the calls: the contract of a function that does nothing.
ghost use Rattle.bg_c.specs.Idle.{IdleStays};

/// States that a referee whose tick sends nothing is as it was before, and sends nothing in any
/// tick. So it needs none until another call changes it.
pub fn idle_referees_send_nothing()
    ensures { IdleStays }
{}
