//! The referee's core.
ghost use Rattle.std.specs.Prelude.{◌≡◌, ◌≢◌, ◌↔◌, IsOk, IfOk, IfErr};
ghost use Rattle.bg_match.specs.Limits.{IsMatchLength};
ghost use Rattle.bg_match.specs.Match.{ActsAfter};
ghost use Rattle.bg_match.specs.Terms.{terms_of};
ghost use Rattle.bg_wire.specs.Entries.Codes.{referee};
ghost use Rattle.bg_wire.specs.Saved.SavedText.{IsSavable, parts_of};

use crate::DueFault;
use crate::sessions::Sessions;
use bg_match::{Actor, Entry, LengthFault, Number, Phase, Record, Rules};
use bg_turns::dice_of;
use bg_wire::Saved;
use std::alloc::Global;
use std::marker::Model;

/// The referee of a match: it alone decides which entries the match has (docs/PROTOCOL.md,
/// "The referee").
///
/// It does no input or output of its own: it takes packets, and returns what to send and what to
/// save. It tells the parties durable entries only, so that a restart never takes back what anybody
/// has seen.
///
/// Contracts see the record, the number of its entries that are saved, the number of the next save,
/// and what the parties are known to have.
#[derive(Debug, Drop)]
pub struct Referee {
    pub(crate) alloc: Global,
    pub(crate) log: Record,
    pub(crate) saved: Number,
    pub(crate) last_save: u32,
    pub(crate) sessions: Sessions,
}

impl Model for Referee {
    ghost use Rattle.std.specs.Prelude.{◌+◌};
    ghost use Rattle.bg_referee.specs.Referee.{RefereeView, IsReferee};

    ghost Value = { RefereeView };

    ghost view = { λ r. record { log = r.log; saved = r.saved; next_save = r.last_save + 1; sessions = r.sessions } };

    ghost invariant = { λ r. IsReferee
        (record { log = r.log; saved = r.saved; next_save = r.last_save + 1; sessions = r.sessions }) };
}

impl Referee {
    ghost use Rattle.bg_referee.specs.Referee.{IsReferee, fresh_referee, resumed_referee};
    ghost use Rattle.bg_referee.specs.Dues.{Dues, RefereeDues, IsDueFault};
    ghost use Rattle.bg_referee.specs.Owning.{IsOwn};

    /// Returns the referee of a match with no entry. It has saved nothing.
    ///
    /// # Errors
    /// `LengthOutOfRange` where the length is not from 1 to 99.
    pub fn fresh(alloc: Global, id: u64, length: u8, rules: Rules) -> Result<Referee, LengthFault>
        ensures ok { IsOk result ↔ IsMatchLength length }
        ensures value { IfOk result (λ r. r ≡ fresh_referee id (terms_of length rules)) }
    {
        Ok(Referee {
            alloc,
            log: Record::new(alloc, id, length, rules)?,
            saved: 0,
            last_save: 0,
            sessions: Sessions::none(),
        })
    }

    /// Returns the referee that goes on from what was saved, which is of party 0 (docs/PROTOCOL.md,
    /// "Restarting"). All of its entries count as saved, and nothing is known of any party.
    pub fn resume(alloc: Global, saved: Saved) -> Referee
        requires party { saved.party ≡ referee }
        requires savable { IsSavable (parts_of saved) }
        ensures { result ≡ resumed_referee saved }
    {
        let entries = saved.log.len();
        Referee {
            alloc,
            log: saved.log,
            saved: entries,
            last_save: saved.save,
            sessions: Sessions::none(),
        }
    }

    /// Returns the record of the match, saved or not.
    pub fn held(&self) -> &Record
        ensures { result.now ≡ self.now.log }
    {
        &self.log
    }

    /// Returns the number of saved entries, which is the number of the last one that is saved.
    pub fn saved(&self) -> Number
        ensures value { result ≡ self.now.saved }
        ensures referee { IsReferee self.now }
    {
        self.saved
    }

    /// Opens a game with the dice of a random word, X's die first, or passes a turn whatever the
    /// word. Returns the number of that entry (docs/PROTOCOL.md, "What the referee adds itself"). A
    /// refusal changes nothing.
    ///
    /// # Errors
    /// The first that holds:
    /// - `NothingDue` where no game is to be opened and no turn to be passed;
    /// - where a game is to be opened, `WordRefused` where the word has no dice, and `EqualOpening`
    ///   where they are equal;
    /// - `RecordFull` where there are 1000000 entries;
    /// - `Memory` where there is no room and no memory for more.
    pub fn due(&mut self, word: u32) -> Result<Number, DueFault>
        ensures { RefereeDues self.old word result self.new }
    {
        self.open(word)
    }

    /// Opens a game with the dice of a word, or passes a turn.
    fn open(&mut self, word: u32) -> Result<Number, DueFault>
        ensures { Dues self.old word result self.new }
    {
        let Actor::Referee = self.log.actor() else {
            return Err(DueFault::NothingDue);
        };
        let entry = self.own_entry(word)?;
        if let Err(fault) = self.log.push(entry) {
            return Err(DueFault::of(fault));
        }
        Ok(self.log.len())
    }

    /// Returns the referee's own entry where it acts: an opening with the dice of the word, or a
    /// pass.
    fn own_entry(&self, word: u32) -> Result<Entry, DueFault>
        requires { ActsAfter self.now.log.terms self.now.log.entries Actor.Referee }
        ensures own { IfOk result (λ entry. IsOwn self.now.log word entry) }
        ensures why { IfErr result (λ why. IsDueFault why self.now.log word × (why ≢ DueFault.Memory)) }
    {
        let Phase::Opening = self.log.standing().phase() else {
            return Ok(Entry::Passed);
        };
        let Some(dice) = dice_of(word) else {
            return Err(DueFault::WordRefused);
        };
        if dice.is_double() {
            return Err(DueFault::EqualOpening);
        }
        Ok(Entry::Opening(dice.first, dice.second))
    }
}
