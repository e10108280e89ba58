//! Replaying the lines of a transcript, one after the other.
ghost use Rattle.std.specs.Prelude.{◌≡◌, ℕ, List, [], ◌∷◌, ◌++◌, None, IfSome, IsSome, IfOk, OnOk, OnErr, IfErr};
ghost use Rattle.bg_text.specs.Judge.Hearing.{AreAll, Continues, IsHeardAs, Keeps, Stops};
ghost use Rattle.bg_text.specs.Judge.Judging.{IsAnswerTo, IsLengthFault};

use crate::entries::lines::parse_entry;
use crate::faults::LineFault;
use crate::judging::judgements::{Judgement, fine, refused, refused_at_once};
use crate::judging::length_lines::read_terms;
use crate::judging::reading::is_wrong_seat;
use bg_match::{EntryFault, MOST_ENTRIES, Number, Standing, Terms};
use std::alloc::{AllocError, Global};

/// The standing that entries lead to, and the number of entries.
#[derive(Clone, Copy, Debug, PartialEq, Eq)]
pub(crate) struct Course {
    pub(crate) standing: Standing,
    pub(crate) entries: Number,
}

impl Course {
    /// Applies the entry of a line. A refusal changes nothing.
    fn follow(&mut self, line: &[u8]) -> Result<(), LineFault>
        ensures added { OnOk result (Continues self.old self.new line.now) }
        ensures refused { IfErr result (λ why. Stops why self.old line.now) }
        ensures same { OnErr result (self.new ≡ self.old) }
    {
        let read = parse_entry(line);
        let (seat, entry) = match &read {
            Ok((seat, entry)) => (*seat, entry),
            Err(fault) => return Err(LineFault::Text(*fault)),
        };
        if is_wrong_seat(seat, &self.standing) {
            return Err(LineFault::WrongPlayer);
        }
        if self.entries >= MOST_ENTRIES {
            return Err(LineFault::Entry(EntryFault::RecordFull));
        }
        self.standing.apply(entry)?;
        self.entries += 1;
        Ok(())
    }
}

/// The result of the lines of a transcript so far: where the good lines lead, and why the line
/// behind them is refused.
#[derive(Clone, Copy, Debug, PartialEq, Eq)]
pub(crate) struct Heard {
    /// `None` before line 1.
    pub(crate) course: Option<Course>,
    pub(crate) refusal: Option<LineFault>,
}

impl Heard {
    /// Returns the result of no lines.
    pub(crate) fn nothing() -> Heard
        ensures { Keeps result.course result.refusal [] }
    {
        Heard {
            course: None,
            refusal: None,
        }
    }

    /// Reads one more line, where none was refused.
    pub(crate) fn hear(&mut self, line: &[u8])
        ensures { self.old.refusal ≡ None → (lines : List (List ℕ)) → Keeps self.old.course None lines
            → Keeps self.new.course self.new.refusal (lines ++ line.now ∷ []) }
    {
        let heard = match &mut self.course {
            Some(course) => course.follow(line),
            None => self.begin(line),
        };
        if let Err(why) = heard {
            self.refusal = Some(why);
        }
    }

    /// Returns the judgement on the lines so far.
    pub(crate) fn judgement(&self, alloc: Global) -> Result<Judgement, AllocError>
        ensures { IfOk result (λ judgement. (lines all : List (List ℕ)) → Keeps self.now.course self.now.refusal lines
            → AreAll self.now.refusal lines all → IsAnswerTo all judgement.text.items judgement.verdict) }
    {
        match (&self.course, self.refusal) {
            (Some(course), None) => fine(alloc, course),
            (Some(course), Some(why)) => refused(alloc, course, why),
            (None, Some(why)) => refused_at_once(alloc, why),
            (None, None) => refused_at_once(alloc, LineFault::NotALengthLine),
        }
    }

    /// Reads line 1.
    fn begin(&mut self, line: &[u8]) -> Result<(), LineFault>
        ensures begun { OnOk result (IfSome self.new.course (IsHeardAs (line.now ∷ [])) × IsSome self.new.course) }
        ensures refused { IfErr result (λ why. IsLengthFault why (line.now ∷ [])) }
        ensures course { OnErr result (self.new.course ≡ self.old.course) }
        ensures refusal { self.new.refusal ≡ self.old.refusal }
    {
        let Terms { length, rules } = read_terms(line)?;
        self.course = Some(Course {
            standing: Standing::start(length, rules),
            entries: 0,
        });
        Ok(())
    }
}
