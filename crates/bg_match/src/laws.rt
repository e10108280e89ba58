//! Laws of the definitions, for the crates above. Each is the contract of a function that does
//! nothing.
ghost use Rattle.bg_match.specs.Match.{MarksCrawford};
ghost use Rattle.bg_match.specs.Laws.{MayBegin, HasLegalFronts, HasOneStanding, HasEntriesInRange, ActsItself};
ghost use Rattle.bg_match.specs.Laws.{MadeWithoutSeat};
ghost use Rattle.bg_match.specs.Laws.{AnswersWithDice, AnswersOneAction, OwnAnswersNone, AnswersInRange};
ghost use Rattle.bg_match.specs.Laws.{RollsAnyDice, ComparesEntries, ComparesActions};

/// States that the Crawford mark of a standing is that of the scores before the games of its match.
pub fn crawford_by_scores()
    ensures { MarksCrawford }
{}

/// States what holds of every legal record.
pub fn laws_of_records()
    ensures empty { MayBegin }
    ensures fronts { HasLegalFronts }
    ensures standing { HasOneStanding }
    ensures in_range { HasEntriesInRange }
    ensures referee { ActsItself }
    ensures seats { MadeWithoutSeat }
{}

/// States what holds of the entries that answer actions.
pub fn laws_of_answers()
    ensures answer { AnswersWithDice }
    ensures one_action { AnswersOneAction }
    ensures own { OwnAnswersNone }
    ensures in_range { AnswersInRange }
    ensures any_dice { RollsAnyDice }
{}

/// States what `==` means for entries and for actions.
pub fn laws_of_equality()
    ensures entries { ComparesEntries }
    ensures actions { ComparesActions }
{}
