// The calls close, round and reopen.
ghost use Rattle.std.specs.Prelude.{◌≡◌, [], Ok};
ghost use Rattle.machine.specs.declared.Success.TheVariants.{Done};
ghost use Rattle.machine.specs.declared.Phase.TheVariants.{Open, Running};
ghost use Rattle.machine.specs.Calls.{close, round, reopen};
ghost use Rattle.machine.specs.Marks.{on};
ghost use Rattle.machine.specs.Causes.{NotOpen};
ghost use Rattle.session.specs.Promise.{Ranged, HasPhase, Promised};
ghost use Rattle.session.specs.Standing.{reply, rounds_in, with_rounds};

use crate::{Reply, Session};
use causes::Cause;
use machine::{MOST_SETS, Phase};
use rounds::Progress;
use search::IndexedGraph;
use search::graphs::MASKS;

impl Session {
    // The rounds of the claims, the phase and the count of rounds.
    pub(crate) fn progress(&self) -> Progress
        ensures { result ≡ rounds_in self.now }
    {
        Progress {
            loop_rounds: self.loop_rounds,
            mix_rounds: self.mix_rounds,
            phase: self.phase,
            rounds: self.rounds,
        }
    }

    // Done: the session with other rounds of the claims, another phase and another count of rounds.
    pub(crate) fn done_with(self, now: Progress) -> Reply
        ensures { result ≡ reply (with_rounds self now) (Ok Done) }
    {
        let loop_rounds = now.loop_rounds;
        let mix_rounds = now.mix_rounds;
        let session = Session {
            loop_rounds,
            mix_rounds,
            phase: now.phase,
            rounds: now.rounds,
            ..self
        };
        session.done()
    }

    // Close of an open session: no claim is open, so letters alone are read.
    fn close_open(self) -> Reply
        requires { HasPhase self (Ok Open) }
        ensures { Promised self (on close) [] [] result }
    {
        let mut graph = [0u64; MASKS];
        let ends = self.put_letters(&mut graph);
        self.done_with(rounds::close(&graph, ends))
    }

    // A round of a running session: what it opens depends on the claims that were open before it, and on no other.
    fn round_running(self) -> Reply
        requires { HasPhase self (Ok Running) }
        ensures { Promised self (on round) [] [] result }
    {
        let mut masks = [0u64; MASKS];
        let ends = self.fill(&mut masks);
        let graph = IndexedGraph::new(&masks);
        self.done_with(rounds::round(&graph, ends, self.set_count, self.progress()))
    }

    // Reopen of a session that is not open: the rows stay, the openings and the rounds go.
    fn reopen_closed(self) -> Reply
        requires { Ranged self × NotOpen self.phase }
        ensures { Promised self (on reopen) [] [] result }
    {
        self.done_with(Progress {
            loop_rounds: [0u8; MOST_SETS],
            mix_rounds: [0u8; MOST_SETS],
            phase: Phase::Open,
            rounds: 0,
        })
    }

    // Close: running, or settled where letter steps alone lead from an initial to a final state.
    pub fn close(self) -> Reply
        ensures { Promised self (on close) [] [] result }
    {
        match self.ranged() {
            Ok(Phase::Open) => self.close_open(),
            Ok(Phase::Running) => self.refuse(Cause::NotOpen),
            Ok(Phase::Settled(_)) => self.refuse(Cause::NotOpen),
            Err(cause) => self.refuse(cause),
        }
    }

    // Round: every claim that holds with the claims open before, and is not open yet, opens.
    pub fn round(self) -> Reply
        ensures { Promised self (on round) [] [] result }
    {
        match self.ranged() {
            Ok(Phase::Open) => self.refuse(Cause::StillOpen),
            Ok(Phase::Running) => self.round_running(),
            Ok(Phase::Settled(_)) => self.refuse(Cause::AlreadySettled),
            Err(cause) => self.refuse(cause),
        }
    }

    // Reopen: open again, with the same rows.
    pub fn reopen(self) -> Reply
        ensures { Promised self (on reopen) [] [] result }
    {
        match self.ranged() {
            Ok(Phase::Open) => self.refuse(Cause::StillOpen),
            Ok(Phase::Running) => self.reopen_closed(),
            Ok(Phase::Settled(_)) => self.reopen_closed(),
            Err(cause) => self.refuse(cause),
        }
    }
}
