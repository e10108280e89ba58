//! One event, at the node of the party that it names.
ghost use Rattle.std.specs.Prelude.{◌≡◌, ◌+◌, ◌↔◌, ℕ, Some, IsSome, MatchOption};
ghost use Rattle.bg_wire.specs.Entries.Codes.{first_watcher};
ghost use Rattle.bg_wire.specs.Parties.{party_of};
ghost use Rattle.bg_protocol.specs.declared.roles.Role.{Role as ARole};
ghost use Rattle.bg_protocol.specs.declared.roles.Role.TheVariants as roles;

use crate::{DeviceFault, Event, Keeper, Link, Outcome, Role, Save, World};
use bg_board::Player;
use bg_match::Action;

impl<L: Link, K: Keeper> World<L, K> {
    ghost use Rattle.bg_protocol.specs.Protocol.Roles.{role};
    ghost use Rattle.bg_protocol.specs.Worlds.Calls.{Calls, ChooseCalls, DueCalls, RestartCalls, SaveCalls, TakeCalls};
    ghost use Rattle.bg_protocol.specs.Worlds.Calls.{TickCalls};
    ghost use Rattle.bg_protocol.specs.Worlds.NotRefused.{IsNotRefused};
    ghost use Rattle.bg_protocol.specs.Worlds.TwoSteps.{OtherSavesStay, SaveBegins, SaveEnds, role_of, save_under_way};
    ghost use Rattle.bg_protocol.specs.Worlds.UnderWay.{under_way_from};
    ghost use Rattle.bg_protocol.specs.Worlds.World.{view_of};
    ghost use Rattle.bg_protocol.specs.Worlds.WorldRuns.{StepsProtocol};
    ghost use Rattle.bg_protocol.specs.Worlds.WorldState.{IsReachedWorld};

    /// Runs one event, as one atomic step (docs/PROTOCOL.md, "The state and its steps"), and
    /// returns its outcome. On any devices it makes exactly the calls of the link, of a keeper and
    /// of a core that the event asks for. Where there is no such party, or it is down, it makes
    /// none. It allocates only for what is sent, kept or saved.
    pub fn step(&mut self, event: Event) -> Outcome
        ensures calls { Calls L.is_honest K.is_honest (view_of L.Link K.Keeper self.old) event
            result (view_of L.Link K.Keeper self.new) }
        // What other parties have under way to be saved stays so.
        ensures others { (other : ARole) → (other ≡ role_of event → ⊥)
            → save_under_way self.new other ≡ save_under_way self.old other }
        // Over honest devices it is a step of the protocol,
        ensures protocol { L.is_honest → K.is_honest → StepsProtocol (view_of L.Link K.Keeper self.old) event result
            (view_of L.Link K.Keeper self.new) }
        // and no packet and no slot is refused.
        ensures accepted { L.is_honest → K.is_honest → IsReachedWorld (view_of L.Link K.Keeper self.old)
            → IsNotRefused result }
    {
        let mut outcome = Outcome::NoSuchParty;
        self.happen(event, &mut outcome);
        outcome
    }

    /// Makes the calls of an event.
    pub(crate) fn happen(&mut self, event: Event, outcome: &mut Outcome)
        ensures others { OtherSavesStay (role_of event) self.old self.new }
        ensures calls { Calls L.is_honest K.is_honest (view_of L.Link K.Keeper self.old) event
            outcome.new (view_of L.Link K.Keeper self.new) }
    {
        match event {
            Event::Due { word } => self.due(word, outcome),
            Event::Take { party, pick, word } => self.take(party, pick, word, outcome),
            Event::Choose { seat, action } => self.choose(seat, action, outcome),
            Event::Save { party } => self.save(party, outcome),
            Event::Tick { party } => self.tick(party, outcome),
            Event::Restart { party } => self.restart(party, outcome),
        }
    }

    /// Opens a game at the referee, or passes a turn.
    fn due(&mut self, word: u32, outcome: &mut Outcome)
        ensures others { OtherSavesStay roles.Referee self.old self.new }
        ensures calls { DueCalls (view_of L.Link K.Keeper self.old) word outcome.new (view_of L.Link K.Keeper self.new) }
    {
        self.referee.due_into(word, outcome);
    }

    /// Claims what a player chooses, at the player's seat.
    fn choose(&mut self, player: Player, action: Action, outcome: &mut Outcome)
        ensures others { OtherSavesStay (roles.Seat player) self.old self.new }
        ensures calls { ChooseCalls (view_of L.Link K.Keeper self.old) player action
            outcome.new (view_of L.Link K.Keeper self.new) }
    {
        match player {
            Player::X => self.x.choose_into(action, outcome),
            Player::O => self.o.choose_into(action, outcome),
        }
    }

    /// Takes what the link gives for this pick, at a party.
    fn take(&mut self, party: u8, pick: u32, word: u32, outcome: &mut Outcome)
        ensures others { OtherSavesStay (role party) self.old self.new }
        ensures calls { TakeCalls L.is_honest (view_of L.Link K.Keeper self.old) (role party) party pick word
            outcome.new (view_of L.Link K.Keeper self.new) }
    {
        let parties = self.parties();
        match Role::of(party) {
            Role::Referee => self
                .referee
                .take_into(&mut self.link, parties, pick, word, outcome),
            Role::Seat(player) => self.take_at_seat(player, pick, outcome),
            Role::Watcher(index) => self.watchers.take(&mut self.link, index, pick, outcome),
        }
    }

    fn take_at_seat(&mut self, player: Player, pick: u32, outcome: &mut Outcome)
        ensures others { OtherSavesStay (roles.Seat player) self.old self.new }
        ensures calls { (word : ℕ) → TakeCalls L.is_honest (view_of L.Link K.Keeper self.old) (roles.Seat player)
            (party_of player) pick word outcome.new (view_of L.Link K.Keeper self.new) }
    {
        match player {
            Player::X => self.x.take_into(&mut self.link, pick, outcome),
            Player::O => self.o.take_into(&mut self.link, pick, outcome),
        }
    }

    /// Sends what a party's core returns.
    fn tick(&mut self, party: u8, outcome: &mut Outcome)
        ensures others { OtherSavesStay (role party) self.old self.new }
        ensures calls { TickCalls L.is_honest (view_of L.Link K.Keeper self.old) (role party)
            outcome.new (view_of L.Link K.Keeper self.new) }
    {
        let parties = self.parties();
        match Role::of(party) {
            Role::Referee => self.referee.tick_into(&mut self.link, parties, outcome),
            Role::Seat(player) => self.tick_seat(player, outcome),
            Role::Watcher(index) => self.watchers.tick(&mut self.link, parties, index, outcome),
        }
    }

    fn tick_seat(&mut self, player: Player, outcome: &mut Outcome)
        ensures others { OtherSavesStay (roles.Seat player) self.old self.new }
        ensures calls { TickCalls L.is_honest (view_of L.Link K.Keeper self.old) (roles.Seat player)
            outcome.new (view_of L.Link K.Keeper self.new) }
    {
        let parties = self.parties();
        match player {
            Player::X => self.x.tick_into(&mut self.link, parties, outcome),
            Player::O => self.o.tick_into(&mut self.link, parties, outcome),
        }
    }

    /// Begins a save of a party, and returns what is to be written, for a host that writes it by
    /// itself, for instance together with the saves of other matches. It changes nothing that a
    /// party holds. The save is under way until [`end_save`](Self::end_save) is told what became of
    /// the write. A change of the party's record or claim ends it, and so does another save of the
    /// party, or its restart.
    ///
    /// # Errors
    /// The outcome of the save: `NoSuchParty`, `Down`, `SavesSpent` or `Memory`. Then nothing
    /// changes.
    pub fn begin_save(&mut self, party: u8) -> Result<Save, Outcome>
        ensures begins { SaveBegins (view_of L.Link K.Keeper self.old) (role party) result }
        ensures same { view_of L.Link K.Keeper self.new ≡ view_of L.Link K.Keeper self.old }
        ensures under_way { save_under_way self.new (role party)
            ≡ under_way_from (save_under_way self.old (role party)) result }
    {
        match Role::of(party) {
            Role::Referee => self.referee.begin_save(),
            Role::Seat(player) => self.begin_save_of(player),
            Role::Watcher(_) => Err(Outcome::NoSuchParty),
        }
    }

    fn begin_save_of(&mut self, player: Player) -> Result<Save, Outcome>
        ensures begins { SaveBegins (view_of L.Link K.Keeper self.old) (roles.Seat player) result }
        ensures same { view_of L.Link K.Keeper self.new ≡ view_of L.Link K.Keeper self.old }
        ensures under_way { save_under_way self.new (roles.Seat player)
            ≡ under_way_from (save_under_way self.old (roles.Seat player)) result }
    {
        match player {
            Player::X => self.x.begin_save(),
            Player::O => self.o.begin_save(),
        }
    }

    /// Ends the save of this number that is under way at a party, whose write by the host had this
    /// answer, and returns the outcome of the save. The party is down where the write failed. The
    /// keepers are asked nothing. Returns `None`, and changes nothing, exactly where no save of
    /// this number is under way at the party: then another is to be begun.
    pub fn end_save(
        &mut self,
        party: u8,
        number: u32,
        written: Result<(), DeviceFault>,
    ) -> Option<Outcome>
        ensures ok { IsSome result ↔ (save_under_way self.old (role party) ≡ Some number) }
        ensures ends { MatchOption result (self.new ≡ self.old)
            (λ outcome. SaveEnds (view_of L.Link K.Keeper self.old) (role party) number written outcome
            (view_of L.Link K.Keeper self.new)) }
    {
        match Role::of(party) {
            Role::Referee => self.referee.end_save(number, written),
            Role::Seat(player) => self.end_save_of(player, number, written),
            Role::Watcher(_) => None,
        }
    }

    fn end_save_of(
        &mut self,
        player: Player,
        number: u32,
        written: Result<(), DeviceFault>,
    ) -> Option<Outcome>
        ensures ok { IsSome result ↔ (save_under_way self.old (roles.Seat player) ≡ Some number) }
        ensures ends { MatchOption result (self.new ≡ self.old)
            (λ outcome. SaveEnds (view_of L.Link K.Keeper self.old) (roles.Seat player) number written outcome
            (view_of L.Link K.Keeper self.new)) }
    {
        match player {
            Player::X => self.x.end_save(number, written),
            Player::O => self.o.end_save(number, written),
        }
    }

    /// Saves what a party holds.
    fn save(&mut self, party: u8, outcome: &mut Outcome)
        ensures others { OtherSavesStay (role party) self.old self.new }
        ensures calls { SaveCalls K.is_honest (view_of L.Link K.Keeper self.old) (role party)
            outcome.new (view_of L.Link K.Keeper self.new) }
    {
        match Role::of(party) {
            Role::Referee => self.referee.save_into(&mut self.keepers.referee, outcome),
            Role::Seat(player) => self.save_seat(player, outcome),
            Role::Watcher(_) => *outcome = Outcome::NoSuchParty,
        }
    }

    fn save_seat(&mut self, player: Player, outcome: &mut Outcome)
        ensures others { OtherSavesStay (roles.Seat player) self.old self.new }
        ensures calls { SaveCalls K.is_honest (view_of L.Link K.Keeper self.old) (roles.Seat player)
            outcome.new (view_of L.Link K.Keeper self.new) }
    {
        match player {
            Player::X => self.x.save_into(&mut self.keepers.x, outcome),
            Player::O => self.o.save_into(&mut self.keepers.o, outcome),
        }
    }

    /// Restarts a party.
    fn restart(&mut self, party: u8, outcome: &mut Outcome)
        ensures others { OtherSavesStay (role party) self.old self.new }
        ensures calls { RestartCalls K.is_honest (view_of L.Link K.Keeper self.old) (role party) party
            outcome.new (view_of L.Link K.Keeper self.new) }
    {
        match Role::of(party) {
            Role::Referee => *outcome = self.referee.restart(&mut self.keepers.referee),
            Role::Seat(player) => self.restart_seat(player, outcome),
            Role::Watcher(index) => self.restart_watcher(index, outcome),
        }
    }

    fn restart_seat(&mut self, player: Player, outcome: &mut Outcome)
        ensures others { OtherSavesStay (roles.Seat player) self.old self.new }
        ensures calls { (party : ℕ) → RestartCalls K.is_honest (view_of L.Link K.Keeper self.old) (roles.Seat player) party
            outcome.new (view_of L.Link K.Keeper self.new) }
    {
        match player {
            Player::X => *outcome = self.x.restart(&mut self.keepers.x),
            Player::O => *outcome = self.o.restart(&mut self.keepers.o),
        }
    }

    fn restart_watcher(&mut self, index: usize, outcome: &mut Outcome)
        ensures others { OtherSavesStay (roles.Watcher index) self.old self.new }
        ensures calls { RestartCalls K.is_honest (view_of L.Link K.Keeper self.old) (roles.Watcher index)
            (first_watcher + index) outcome.new (view_of L.Link K.Keeper self.new) }
    {
        *outcome = self
            .watchers
            .restart(self.alloc, self.id, self.terms, index);
    }
}
