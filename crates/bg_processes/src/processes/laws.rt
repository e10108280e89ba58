//! Laws of processes. Each is the contract of a function that does nothing.
ghost use Rattle.std.specs.Prelude.{ℕ, ⊤};
ghost use Rattle.bg_board.specs.declared.players.Player.{Player as APlayer};
ghost use Rattle.bg_protocol.specs.declared.roles.Role.TheVariants as roles;
ghost use Rattle.bg_processes.specs.Liveness.{CountsSilence};
ghost use Rattle.bg_processes.specs.Instances.{IsInstance, RunsReferee, RunsSeat, RunsWatcher};
ghost use Rattle.bg_processes.specs.RefereeRounds.{RefereeHappens};
ghost use Rattle.bg_processes.specs.SeatRounds.{SeatHappens};
ghost use Rattle.bg_processes.specs.WatcherRounds.{WatcherHappens};

/// States that whatever happens at the process of a party, over an honest network and honest
/// keepers, is calls of processes in the sense of [`processes_agree`](bg_world::processes_agree).
/// They belong to a world of 256 parties whose party the process runs; the other parties stay as
/// they are (docs/PROTOCOL.md, "Parties in processes of their own"). The contracts of the
/// processes' calls say what happens in a round, and when a player chooses.
pub fn processes_are_instances()
    ensures referee { IsInstance (RefereeHappens ⊤ ⊤) RunsReferee roles.Referee }
    ensures seat { (player : APlayer) → IsInstance (SeatHappens ⊤ ⊤) (RunsSeat player) (roles.Seat player) }
    ensures watcher { (index : ℕ) → IsInstance (WatcherHappens ⊤) (RunsWatcher index) (roles.Watcher index) }
{}

/// States when a referee counts as silent: exactly where 31 ticks were due in the rounds since
/// something of it came, or since the process began. A tick comes a tenth of a second after the one
/// before, or later, so these are three seconds at least.
pub fn silence_is_counted()
    ensures { CountsSilence }
{}
