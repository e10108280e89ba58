//! A match between automatic players, round by round, over any link and any keepers.
ghost use Rattle.std.specs.Prelude.{◌≡◌, false, true, IfErr, IfOk, MatchResult, OnErr, OnOk};
ghost use Rattle.bg_auto.specs.RoundResults.{IsGood, IsRoundsResult, WritesEnd, moment_of, setup_of};
ghost use Rattle.bg_auto.specs.RoundResults.{IsWriteFault, start_moment};
ghost use Rattle.bg_auto.specs.Rounds.{Happens, IsChosen, IsEventOf, MayLackMemory, PlaysPart, PlaysParts, StopsAt};
ghost use Rattle.bg_auto.specs.Rounds.{StopsIn, ends, match_parts, next_word};
ghost use Rattle.bg_protocol.specs.Worlds.Starts.{IsWorldFault};
ghost use Rattle.bg_protocol.specs.Worlds.Views.{keeper_view, link_view};
ghost use Rattle.bg_protocol.specs.declared.events.Outcome.{Outcome as AnOutcome};

use crate::auto_actions::auto_action;
use crate::dice_attempts::{DiceAttempts, entries_of};
use crate::loop_faults::{LoopFault, ends_match};
use crate::observers::{NoObserver, Observer, party_at};
use crate::round_schedule::{FIRST, Part, ROUND, WATCHERS, follow_up};
use bg_board::Player;
use bg_match::Rules;
use bg_streams::{Sink, write_text};
use bg_wire::{REFEREE, party_of};
use bg_world::{Event, Keeper, Keepers, Link, Outcome, Setup, World, WorldFault, final_text};
use std::alloc::{AllocError, Global};

/// The number of parties in a match in rounds: the referee, two seats and one watcher, with the
/// numbers from 0 to 3.
pub const PARTIES: u8 = 3 + WATCHERS;

/// The pick in each take. The link hands over what it has, whatever a pick would name.
const NO_PICK: u32 = 0;

/// Plays a match of automatic players with one watcher, whose number is the seed. The referee and
/// the seats restart from their slots, then `rounds` rounds follow (docs/PROTOCOL.md, "Rounds").
/// The output gets the final text (docs/FORMATS.md, "Final text"). The length is from 1 to 99. The
/// words come from the seed (docs/FORMATS.md, "Random words").
///
/// A save that fails is followed by a restart of that party. Any other outcome is followed by the
/// next event, but for those that `Stopped` names.
///
/// # Errors
/// The first that is met:
/// - `World` where there is no such match;
/// - `Stopped` where slots can't be restored, or there is no memory for an event;
/// - `Memory` where there is none for a choice or the final text;
/// - `Write` exactly where the output fails.
///
/// But for `Write` the output is as it was.
pub fn run_rounds<L: Link + Drop, K: Keeper + Drop, W: Sink>(
    alloc: Global,
    seed: u64,
    length: u8,
    rules: Rules,
    rounds: u32,
    link: L,
    keepers: Keepers<K>,
    output: &mut W,
) -> Result<(), LoopFault>
    ensures { IsRoundsResult W.Sink L.is_honest K.is_honest (setup_of seed length rules)
        (start_moment (setup_of seed length rules) (link_view L.Link link) (keeper_view K.Keeper keepers.referee)
        (keeper_view K.Keeper keepers.x) (keeper_view K.Keeper keepers.o)) rounds result output.old output.new }
{
    play_rounds(
        alloc,
        seed,
        length,
        rules,
        rounds,
        link,
        keepers,
        output,
        &mut NoObserver,
    )
}

/// Plays the same match as [`run_rounds`], with an observer.
///
/// # Errors
/// The same as those of [`run_rounds`].
pub fn play_rounds<L: Link + Drop, K: Keeper + Drop, W: Sink, O: Observer>(
    alloc: Global,
    seed: u64,
    length: u8,
    rules: Rules,
    rounds: u32,
    link: L,
    keepers: Keepers<K>,
    output: &mut W,
    observer: &mut O,
) -> Result<(), LoopFault>
    ensures { IsRoundsResult W.Sink L.is_honest K.is_honest (setup_of seed length rules)
        (start_moment (setup_of seed length rules) (link_view L.Link link) (keeper_view K.Keeper keepers.referee)
        (keeper_view K.Keeper keepers.x) (keeper_view K.Keeper keepers.o)) rounds result output.old output.new }
{
    let mut played = Rounds::new(alloc, seed, length, rules, link, keepers)?;
    played.run(rounds, observer)?;
    played.finish(output)
}

/// A match that is played round by round.
#[derive(Drop)]
pub(crate) struct Rounds<L, K> {
    alloc: Global,
    seed: u64,
    world: World<L, K>,
    attempts: DiceAttempts,
}

impl<L: Link + Drop, K: Keeper + Drop> Rounds<L, K> {
    /// Returns a match where nothing has happened yet.
    fn new(
        alloc: Global,
        seed: u64,
        length: u8,
        rules: Rules,
        link: L,
        keepers: Keepers<K>,
    ) -> Result<Rounds<L, K>, WorldFault>
        ensures start { IfOk result (λ played. moment_of L.Link K.Keeper played
            ≡ start_moment (setup_of seed length rules) (link_view L.Link link)
            (keeper_view K.Keeper keepers.referee) (keeper_view K.Keeper keepers.x)
            (keeper_view K.Keeper keepers.o)) }
        ensures refusal { MatchResult result (λ _. IsGood (setup_of seed length rules))
            (λ fault. IsWorldFault fault (setup_of seed length rules)) }
    {
        let setup = Setup {
            id: seed,
            length,
            rules,
            watchers: WATCHERS,
        };
        Ok(Rounds {
            alloc,
            seed,
            world: World::new(alloc, setup, link, keepers)?,
            attempts: DiceAttempts::first(Some(0)),
        })
    }

    /// Plays `rounds` rounds, from the start.
    fn run<O: Observer>(&mut self, rounds: u32, observer: &mut O) -> Result<(), LoopFault>
        ensures played { OnOk result (PlaysParts L.is_honest K.is_honest (moment_of L.Link K.Keeper self.old)
            (match_parts rounds) (moment_of L.Link K.Keeper self.new)) }
        ensures stopped { IfErr result (StopsIn L.is_honest K.is_honest (moment_of L.Link K.Keeper self.old)
            (match_parts rounds)) }
    {
        self.play_all(&FIRST, observer)?;
        for done in 0..rounds {
            self.play_all(&ROUND, observer)?;
            observer.played(done + 1);
        }
        Ok(())
    }

    /// Plays these parts, in order.
    fn play_all<O: Observer>(&mut self, parts: &[Part], observer: &mut O) -> Result<(), LoopFault>
        ensures played { OnOk result (PlaysParts L.is_honest K.is_honest (moment_of L.Link K.Keeper self.old)
            parts.now (moment_of L.Link K.Keeper self.new)) }
        ensures stopped { IfErr result (StopsIn L.is_honest K.is_honest (moment_of L.Link K.Keeper self.old)
            parts.now) }
    {
        for part in parts {
            self.play(*part, observer)?;
        }
        Ok(())
    }

    /// Plays a part.
    fn play<O: Observer>(&mut self, part: Part, observer: &mut O) -> Result<(), LoopFault>
        ensures played { OnOk result (PlaysPart L.is_honest K.is_honest (moment_of L.Link K.Keeper self.old) part
            (moment_of L.Link K.Keeper self.new)) }
        ensures stopped { IfErr result (StopsAt L.is_honest K.is_honest (moment_of L.Link K.Keeper self.old) part) }
    {
        let Some(event) = self.event(part)? else {
            return Ok(());
        };
        let outcome = self.happen(event, observer)?;
        if let Some(next) = follow_up(part, &outcome) {
            self.happen(next, observer)?;
        }
        Ok(())
    }

    /// Returns the event of a part, or `None` where it is a choice of a player who does not act.
    fn event(&self, part: Part) -> Result<Option<Event>, AllocError>
        ensures event { IfOk result (IsEventOf (moment_of L.Link K.Keeper self.now) part) }
        ensures memory { OnErr result (MayLackMemory (moment_of L.Link K.Keeper self.now) part) }
    {
        let event = match part {
            Part::Due => Event::Due { word: self.word() },
            Part::Take(party) => Event::Take {
                party,
                pick: NO_PICK,
                word: if party == REFEREE { self.word() } else { 0 },
            },
            Part::Choose(player) => return self.choice(player),
            Part::Save(party) => Event::Save { party },
            Part::Tick(party) => Event::Tick { party },
            Part::Restart(party) => Event::Restart { party },
        };
        Ok(Some(event))
    }

    /// Returns the choice of an automatic player, if it acts by its own record.
    fn choice(&self, player: Player) -> Result<Option<Event>, AllocError>
        ensures chosen { IfOk result (IsChosen (moment_of L.Link K.Keeper self.now) player) }
        ensures memory { OnErr result (MayLackMemory (moment_of L.Link K.Keeper self.now) (Part.Choose player)) }
    {
        let Some(record) = self.world.held(party_of(player)) else {
            return Ok(None);
        };
        let Some(action) = auto_action(self.alloc, record, player)? else {
            return Ok(None);
        };
        Ok(Some(Event::Choose {
            seat: player,
            action,
        }))
    }

    /// Returns the word for the referee's next entry.
    fn word(&self) -> u32
        ensures { result ≡ next_word (moment_of L.Link K.Keeper self.now) }
    {
        self.attempts.word(self.seed)
    }

    /// Runs an event.
    ///
    /// # Errors
    /// `Stopped` where its outcome ends the match.
    fn happen<O: Observer>(&mut self, event: Event, observer: &mut O) -> Result<Outcome, LoopFault>
        ensures happens { IfOk result (λ outcome. Happens L.is_honest K.is_honest (moment_of L.Link K.Keeper self.old)
            event outcome (moment_of L.Link K.Keeper self.new) × (ends outcome ≡ false)) }
        ensures stopped { IfErr result (λ why. (outcome : AnOutcome) × (why ≡ LoopFault.Stopped outcome)
            × Happens L.is_honest K.is_honest (moment_of L.Link K.Keeper self.old) event outcome
            (moment_of L.Link K.Keeper self.new) × (ends outcome ≡ true)) }
    {
        let outcome = self.attempts.step(&mut self.world, event.copy());
        let held = entries_of(self.world.held(party_at(&event)));
        observer.happened(&event, &outcome, held);
        if ends_match(&outcome) {
            return Err(LoopFault::Stopped(outcome));
        }
        Ok(outcome)
    }

    /// Writes the final text.
    fn finish<W: Sink>(&self, output: &mut W) -> Result<(), LoopFault>
        ensures text { OnOk result (WritesEnd W.Sink (moment_of L.Link K.Keeper self.now) output.old output.new) }
        ensures fault { IfErr result (IsWriteFault W.Sink output.old output.new) }
    {
        let text = final_text(&self.world)?;
        write_text(output, &text)?;
        Ok(())
    }
}
