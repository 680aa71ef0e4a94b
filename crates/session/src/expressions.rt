// The call expression.
ghost use Rattle.std.specs.Prelude.{length, Ok};
ghost use Rattle.machine.specs.declared.Phase.TheVariants.{Settled};
ghost use Rattle.machine.specs.declared.Verdict.TheVariants.{NonEmpty};
ghost use Rattle.machine.specs.Calls.{expression};
ghost use Rattle.machine.specs.Marks.{on};
ghost use Rattle.session.specs.Promise.{HasPhase, Promised};

use crate::tables::words_of;
use crate::{Reply, Session};
use causes::Cause;
use machine::{Phase, Verdict};
use search::graphs::MASKS;
use search::{IndexedGraph, TwoWayGraph};

impl Session {
    // The walk of a session settled as non-empty. Apart, as no other call has a use for its arrays.
    #[inline(never)]
    fn express_walk(self, buffer: &mut [u8]) -> Reply
        requires { HasPhase self (Ok (Settled NonEmpty)) }
        ensures { Promised self (on (expression (length buffer.old)))
            buffer.old buffer.new result }
    {
        let keys = self.keys();
        let words = words_of(&keys);
        let mut masks = [0u64; MASKS];
        let ends = automaton::fill(&mut masks, &keys, &self.row_sets());
        let graph = IndexedGraph::new(&masks);
        let mut turned = [0u64; MASKS];
        graph.turn_into(&mut turned);
        let back = IndexedGraph::new(&turned);
        let both = TwoWayGraph::new(&graph, &back);
        let progress = self.progress();
        let answer = expression::express(
            buffer,
            &words,
            keys.count,
            self.set_count,
            &both,
            ends,
            &progress,
        );
        self.answered(answer)
    }

    // By the verdict: an empty one has no walk.
    fn express_settled(self, v: Verdict, buffer: &mut [u8]) -> Reply
        requires { HasPhase self (Ok (Settled v)) }
        ensures { Promised self (on (expression (length buffer.old)))
            buffer.old buffer.new result }
    {
        match v {
            Verdict::NonEmpty => self.express_walk(buffer),
            Verdict::Empty => self.refuse(Cause::VerdictEmpty),
        }
    }

    // Expression: the walk of the sheet into the buffer, when settled as non-empty; nothing where the buffer is too short.
    pub fn expression(self, buffer: &mut [u8]) -> Reply
        ensures { Promised self (on (expression (length buffer.old)))
            buffer.old buffer.new result }
    {
        match self.ranged() {
            Ok(Phase::Open) => self.refuse(Cause::StillOpen),
            Ok(Phase::Running) => self.refuse(Cause::StillRunning),
            Ok(Phase::Settled(v)) => self.express_settled(v, buffer),
            Err(cause) => self.refuse(cause),
        }
    }
}
