// The calls mark and return_to.
ghost use Rattle.std.specs.Prelude.{◌≡◌, [], ◌≤◌, Ok};
ghost use Rattle.machine.specs.declared.Phase.TheVariants.{Open};
ghost use Rattle.machine.specs.Marks.{mark, return_to};
ghost use Rattle.session.specs.Promise.{Ranged, HasPhase, Promised};
ghost use Rattle.session.specs.Standing.{Contents, emptied, WorkedOn, ReworkedTo, Reloads, BringsBack};

use crate::{Reply, Session};
use causes::Cause;
use machine::{MOST_ROUNDS, MOST_ROWS, Phase};
use marks::{Kept, MOST_MARKS};
use search::graphs::MASKS;
use search::{IndexedGraph, TwoWayGraph};

impl Session {
    // What a mark keeps.
    fn contents(&self) -> Kept
        requires { Ranged self.now }
        ensures { Contents self.now result }
    {
        Kept::new(&self.keys(), self.phase, self.rounds)
    }

    // Open with no rows, and the marks.
    fn emptied(&self) -> Session
        ensures { result ≡ emptied self.now }
    {
        Session {
            marks: self.marks,
            ..Session::fresh()
        }
    }

    // Close, and rounds until the session is settled, `most` at most.
    fn work(self, most: u8) -> Reply
        requires { HasPhase self (Ok Open) × (most ≤ 129) }
        ensures { WorkedOn self most result }
    {
        let mut masks = [0u64; MASKS];
        let ends = self.fill(&mut masks);
        let graph = IndexedGraph::new(&masks);
        let mut turned = [0u64; MASKS];
        graph.turn_into(&mut turned);
        let back = IndexedGraph::new(&turned);
        let both = TwoWayGraph::new(&graph, &back);
        self.done_with(rounds::work(&both, ends, self.set_count, most))
    }

    // An open session, worked on until it is in the phase, where it was after so many rounds.
    fn rework(self, phase: Phase, rounds: u8) -> Reply
        requires { HasPhase self (Ok Open) × (rounds ≤ 129) }
        ensures { ReworkedTo self phase rounds result }
    {
        match phase {
            Phase::Open => self.done(),
            Phase::Running => self.work(rounds),
            Phase::Settled(_) => self.work(rounds),
        }
    }

    // The rows that are kept, in a session that has the marks of this one and nothing else.
    fn reload(&self, kept: &Kept) -> Session
        requires { kept.now.row_count ≤ 256 }
        ensures { Reloads self.now kept.now result }
    {
        let keys = kept.keys();
        let sets = row_table::collect_sets(&keys);
        self.emptied().with_table(&keys, sets)
    }

    // What is kept, with the marks of the session: the rows, and as many rounds as were done. What no mark keeps is refused.
    fn bring_back(self, kept: &Kept) -> Reply
        requires { Ranged self }
        ensures { BringsBack self kept.now result }
    {
        if kept.row_count > MOST_ROWS {
            return self.refuse(Cause::ForeignRecord);
        }
        if kept.rounds > MOST_ROUNDS {
            return self.refuse(Cause::ForeignRecord);
        }
        let session = self.reload(kept);
        match session.ranged() {
            Ok(Phase::Open) => session.rework(kept.phase, kept.rounds),
            Ok(Phase::Running) => self.refuse(Cause::ForeignRecord),
            Ok(Phase::Settled(_)) => self.refuse(Cause::ForeignRecord),
            Err(cause) => self.refuse(cause),
        }
    }

    // Under a name of any bytes, in any phase.
    fn mark_under(mut self, name: &[u8]) -> Reply
        requires { Ranged self }
        ensures { Promised self (mark name.now) [] [] result }
    {
        let Some(at) = self.marks.place(name) else {
            return self.refuse(Cause::BadName);
        };
        if at >= MOST_MARKS {
            return self.refuse(Cause::TooManyMarks);
        }
        let kept = self.contents();
        self.marks.put(at, name, kept);
        self.done()
    }

    // To a name of any bytes, in any phase.
    fn return_under(self, name: &[u8]) -> Reply
        requires { Ranged self }
        ensures { Promised self (return_to name.now) [] [] result }
    {
        let Some(at) = self.marks.place(name) else {
            return self.refuse(Cause::BadName);
        };
        if at == self.marks.count {
            return self.refuse(Cause::NoMark);
        }
        self.bring_back(&self.marks.kept_at(at))
    }

    // Mark: rows, phase, verdict, round count and openings with their rounds are kept under the name; the same name marks anew.
    pub fn mark(self, name: &[u8]) -> Reply
        ensures { Promised self (mark name.now) [] [] result }
    {
        match self.ranged() {
            Ok(_) => self.mark_under(name),
            Err(cause) => self.refuse(cause),
        }
    }

    // Return: all that is kept under the name is back; the marks stay.
    pub fn return_to(self, name: &[u8]) -> Reply
        ensures { Promised self (return_to name.now) [] [] result }
    {
        match self.ranged() {
            Ok(_) => self.return_under(name),
            Err(cause) => self.refuse(cause),
        }
    }
}
