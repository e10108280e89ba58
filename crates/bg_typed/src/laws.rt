//! Laws of typed turns.
ghost use Rattle.bg_typed.specs.Laws.{PrintedTurnsMeanThemselves, TypedFaultsDiffer, TypedTurnsAreLegal};
ghost use Rattle.bg_typed.specs.Laws.{TypedTurnsMeanOne};

/// States that a legal turn as it is printed, behind the player's letter, means itself.
pub fn printed_turns_mean_themselves()
    ensures { PrintedTurnsMeanThemselves }
{}

/// States that the turn that a typed text means is legal.
pub fn typed_turns_are_legal()
    ensures { TypedTurnsAreLegal }
{}

/// States that a typed text means at most one turn, and where it means one no refusal holds but for
/// want of memory.
pub fn typed_turns_mean_one()
    ensures { TypedTurnsMeanOne }
{}

/// States that a typed text is refused for at most one reason, but for want of memory. The two
/// turns that an ambiguous text names are unique too.
pub fn typed_faults_differ()
    ensures { TypedFaultsDiffer }
{}
