//! The outcomes that C sees: of a packet that a party took, of an entry that does not follow, and
//! of the question who acts.
ghost use Rattle.std.specs.Prelude.{◌≡◌};
ghost use Rattle.bg_c.specs.Outcomes.{actor_code, took_code, why_code};
ghost use Rattle.bg_c.specs.Outcomes.{follower_outcome, outcome_of, referee_outcome, told};

use bg_board::Player;
use bg_match::{Actor, EntryFault, NoDouble};
use bg_parties::Taken;
use bg_party::Learned;
use bg_referee::TakeOutcome;
use bg_turns::TurnFault;

/// The number where there is no reason.
const NO_WHY: u32 = 0;

/// The outcome of a packet that a party took, in the order of the numbers.
pub enum Took {
    /// There is nothing to do, or nothing new.
    Nothing,
    /// The packet is of another match.
    OtherMatch,
    /// The referee: the answer is to be sent.
    Answered,
    /// The referee: the claimed action is an entry now.
    Accepted,
    /// The referee: the party holds more than is saved, or claims too high a number.
    Ahead,
    /// The referee: the seat does not act.
    NotYourTurn,
    /// The referee: the claimed action does not follow.
    Illegal,
    /// The referee: the word has no dice.
    WordRefused,
    /// A follower: it has learned entries.
    Grew,
    /// A follower: the packet begins behind the entry that comes next.
    Gap,
    /// A follower: it holds another entry under a number.
    Conflict,
    /// A follower: an entry does not follow.
    Invalid,
}

impl Took {
    /// Returns its number, from 0.
    pub fn code(self) -> u32
        ensures { result ≡ took_code self }
    {
        match self {
            Took::Nothing => 0,
            Took::OtherMatch => 1,
            Took::Answered => 2,
            Took::Accepted => 3,
            Took::Ahead => 4,
            Took::NotYourTurn => 5,
            Took::Illegal => 6,
            Took::WordRefused => 7,
            Took::Grew => 8,
            Took::Gap => 9,
            Took::Conflict => 10,
            Took::Invalid => 11,
        }
    }
}

/// Returns the number of a reason. That of an illegal step is 11 plus the number of steps that can
/// be played before it, from 0 to 3.
pub fn why_code(why: EntryFault) -> u32
    ensures { result ≡ why_code why }
{
    match why {
        EntryFault::RecordFull => 1,
        EntryFault::MatchOver => 2,
        EntryFault::WrongPhase => 3,
        EntryFault::EqualOpening => 4,
        EntryFault::Turn(TurnFault::MoreCanBePlayed) => 5,
        EntryFault::Turn(TurnFault::LargerMustBePlayed) => 6,
        EntryFault::NoDouble(NoDouble::Crawford) => 7,
        EntryFault::NoDouble(NoDouble::NotOwner) => 8,
        EntryFault::NoDouble(NoDouble::AtCap) => 9,
        EntryFault::Memory => 10,
        EntryFault::Turn(TurnFault::StepIllegal(played)) => 11 + u32::from(played),
    }
}

/// Returns the number of the one who acts: 0 for the referee, 1 for X, 2 for O, 3 for nobody.
pub fn actor_code(actor: Actor) -> u32
    ensures { result ≡ actor_code actor }
{
    match actor {
        Actor::Referee => 0,
        Actor::Seat(Player::X) => 1,
        Actor::Seat(Player::O) => 2,
        Actor::Nobody => 3,
    }
}

/// The outcome of a packet that a party took, `bg_outcome` of the header.
#[repr(C)]
#[derive(Clone, Copy)]
pub struct Outcome {
    /// The kind of the outcome: the number of a [`Took`].
    pub kind: u32,
    /// The number of the entry, or of entries learned; 0 where the kind has no number.
    pub number: u32,
    /// The reason why the claimed action does not follow; else 0.
    pub why: u32,
    /// 0.
    pub reserved: [u32; 5],
}

impl Outcome {
    /// Returns an outcome of this kind, with a number.
    fn numbered(kind: Took, number: u32) -> Outcome
        ensures { result ≡ told kind number 0 }
    {
        Outcome {
            kind: kind.code(),
            number,
            why: NO_WHY,
            reserved: [0; 5],
        }
    }

    /// Returns an outcome of this kind.
    fn plain(kind: Took) -> Outcome
        ensures { result ≡ told kind 0 0 }
    {
        Outcome::numbered(kind, 0)
    }

    /// Returns the outcome of the referee's answer, or `None` where there was no memory.
    fn of_referee(outcome: &TakeOutcome) -> Option<Outcome>
        ensures { result ≡ referee_outcome outcome.now }
    {
        Some(match outcome {
            TakeOutcome::OtherMatch => Outcome::plain(Took::OtherMatch),
            TakeOutcome::Nothing => Outcome::plain(Took::Nothing),
            TakeOutcome::Answer(_, _) => Outcome::plain(Took::Answered),
            TakeOutcome::Ahead => Outcome::plain(Took::Ahead),
            TakeOutcome::NotYourTurn => Outcome::plain(Took::NotYourTurn),
            TakeOutcome::WordRefused => Outcome::plain(Took::WordRefused),
            TakeOutcome::Illegal(why) => Outcome {
                kind: Took::Illegal.code(),
                number: 0,
                why: why_code(*why),
                reserved: [0; 5],
            },
            TakeOutcome::Memory => return None,
            TakeOutcome::Accepted(number) => Outcome::numbered(Took::Accepted, *number),
        })
    }

    /// Returns the outcome of what a follower learns, or `None` where there was no memory.
    fn of_follower(learned: Learned) -> Option<Outcome>
        ensures { result ≡ follower_outcome learned }
    {
        Some(match learned {
            Learned::OtherMatch => Outcome::plain(Took::OtherMatch),
            Learned::Nothing => Outcome::plain(Took::Nothing),
            Learned::Conflict(number) => Outcome::numbered(Took::Conflict, number),
            Learned::Gap => Outcome::plain(Took::Gap),
            Learned::Illegal(number) => Outcome::numbered(Took::Invalid, number),
            Learned::Memory => return None,
            Learned::Grew(count) => Outcome::numbered(Took::Grew, u32::from(count)),
        })
    }

    /// Returns the outcome of a packet that a party took, or `None` where there was no memory.
    pub(crate) fn of(taken: &Taken) -> Option<Outcome>
        ensures { result ≡ outcome_of taken.now }
    {
        match taken {
            Taken::Referee(outcome) => Outcome::of_referee(outcome),
            Taken::Follower(learned) => Outcome::of_follower(*learned),
        }
    }
}
