// The call print.
ghost use Rattle.std.specs.Prelude.{length, Ok};
ghost use Rattle.machine.specs.declared.Phase.TheVariants.{Settled};
ghost use Rattle.machine.specs.Calls.{print};
ghost use Rattle.machine.specs.Marks.{on};
ghost use Rattle.session.specs.Promise.{HasPhase, Promised};

use crate::tables::words_of;
use crate::{Reply, Session};
use causes::Cause;
use machine::{Phase, Verdict};
use search::graphs::MASKS;
use search::{IndexedGraph, TwoWayGraph};

impl Session {
    // The sheet of a settled session: the keys are made once, for the graph and for the letters of the walk. Apart, as no other call has a use
    // for its arrays.
    #[inline(never)]
    fn print_settled(self, v: Verdict, buffer: &mut [u8]) -> Reply
        requires { HasPhase self (Ok (Settled v)) }
        ensures { Promised self (on (print (length buffer.old)))
            buffer.old buffer.new result }
    {
        let keys = self.keys();
        let words = words_of(&keys);
        let mut masks = [0u64; MASKS];
        let ends = automaton::fill(&mut masks, &keys, &self.row_sets());
        let graph = IndexedGraph::new(&masks);
        let mut turned = [0u64; MASKS];
        graph.turn_into(&mut turned);
        let back = IndexedGraph::new(&turned);
        let both = TwoWayGraph::new(&graph, &back);
        let progress = self.progress();
        let answer = whole_sheet::print(
            buffer,
            v,
            &words,
            keys.count,
            self.set_count,
            &both,
            ends,
            &progress,
        );
        self.answered(answer)
    }

    // Print: the sheet into the buffer, when settled; nothing where the buffer is too short.
    pub fn print(self, buffer: &mut [u8]) -> Reply
        ensures { Promised self (on (print (length buffer.old)))
            buffer.old buffer.new result }
    {
        match self.ranged() {
            Ok(Phase::Open) => self.refuse(Cause::StillOpen),
            Ok(Phase::Running) => self.refuse(Cause::StillRunning),
            Ok(Phase::Settled(v)) => self.print_settled(v, buffer),
            Err(cause) => self.refuse(cause),
        }
    }
}
