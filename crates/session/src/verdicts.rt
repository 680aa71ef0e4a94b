// The call verdict.
ghost use Rattle.std.specs.Prelude.{[]};
ghost use Rattle.machine.specs.Calls.{verdict};
ghost use Rattle.machine.specs.Marks.{on};
ghost use Rattle.session.specs.Promise.{Ranged, Promised};

use crate::{Reply, Session};
use machine::Success;
use search::IndexedGraph;
use search::graphs::MASKS;

impl Session {
    // The verdict of the standing rows, by rising size; the session stays as it is.
    fn decide(self) -> Reply
        requires { Ranged self }
        ensures { Promised self (on verdict) [] [] result }
    {
        let mut masks = [0u64; MASKS];
        let ends = self.fill(&mut masks);
        let graph = IndexedGraph::new(&masks);
        self.answered(Ok(Success::Decided(rising::verdict(&graph, ends, self.set_count))))
    }

    // Verdict: that of the rounds, in any phase.
    pub fn verdict(self) -> Reply
        ensures { Promised self (on verdict) [] [] result }
    {
        match self.ranged() {
            Ok(_) => self.decide(),
            Err(cause) => self.refuse(cause),
        }
    }
}
