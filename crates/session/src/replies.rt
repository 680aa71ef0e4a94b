// The gate at the head of every call, and what a refusal hands back.
ghost use Rattle.std.specs.Prelude.{◌≡◌, Ok, Err};
ghost use Rattle.machine.specs.declared.Success.TheVariants.{Done};
ghost use Rattle.machine.specs.WellFormed.{most_done};
ghost use Rattle.session.specs.Promise.{HasPhase};
ghost use Rattle.session.specs.Standing.{reply};

use crate::{Reply, Session, State};
use causes::Cause;
use machine::{Answer, MOST_ROUNDS, MOST_ROWS, MOST_SETS, Phase, Refusal, Success};
use marks::MOST_MARKS;

// The most rounds that calls lead to, by the phase: the last of them settles.
fn most_done(phase: Phase) -> u8
    ensures { result ≡ most_done phase }
{
    match phase {
        Phase::Open => 0,
        Phase::Running => MOST_ROUNDS - 1,
        Phase::Settled(_) => MOST_ROUNDS,
    }
}

impl Session {
    // The phase of the record; one whose counts no calls lead to is foreign.
    pub(crate) fn ranged(self) -> State
        ensures { HasPhase self result }
    {
        if self.row_count > MOST_ROWS {
            return Err(Cause::ForeignRecord);
        }
        if self.set_count > MOST_SETS {
            return Err(Cause::ForeignRecord);
        }
        if self.marks.count > MOST_MARKS {
            return Err(Cause::ForeignRecord);
        }
        if self.rounds > most_done(self.phase) {
            return Err(Cause::ForeignRecord);
        }
        Ok(self.phase)
    }

    // The session as it was, and an answer.
    pub(crate) fn answered(self, answer: Answer) -> Reply
        ensures { result ≡ reply self answer }
    {
        Reply {
            session: self,
            answer,
        }
    }

    // The same, without a place.
    pub(crate) fn refuse(self, cause: Cause) -> Reply
        ensures { result ≡ reply self (Err (record { cause = cause; place = 0 })) }
    {
        self.answered(Err(Refusal { cause, place: 0 }))
    }

    // The session, which is done.
    pub(crate) fn done(self) -> Reply
        ensures { result ≡ reply self (Ok Done) }
    {
        self.answered(Ok(Success::Done))
    }
}
