// Which claims a round opens, tried only at places where one may open.
#![tactic(auto)]

ghost use Rattle.std.specs.Prelude.{◌≤◌, ◌<◌, IfSome};
ghost use Rattle.lists.specs.Tests.{Decides};
ghost use Rattle.masks.specs.Mask.{member};
ghost use Rattle.search.specs.Hops.{Hop, Joined, JoinedPart};
ghost use Rattle.candidates.specs.Promises.{FindsAt, PiecedAmong, FoundAmong, LiveBelow, LoopingAt, PartAmong};
ghost use Rattle.candidates.specs.Promises.{Unstuck, Handed, OpensNext};

use lacks::Lacks;
use masks::{Places, Set, below, difference, each, has, intersection, is_subset, union, with};
use search::moves::marked;
use search::{Claims, MaskGraph, TwoWayGraph};

// The places below `set_count` with no claim in force.
pub fn live(force: Claims, set_count: usize) -> Places
    requires { set_count ≤ 64 }
    ensures { LiveBelow force set_count result }
{
    difference(below(set_count), force.places())
}

// A part of `p` with a state that is the set at one of the places.
pub fn part_among(graph: &MaskGraph, places: Places, p: Set) -> Option<Set>
    ensures { IfSome result (PartAmong graph.now places p) }
{
    for i in each(places) {
        let part = graph.set_at(i as usize);
        if part != 0 && is_subset(part, p) {
            return Some(part);
        }
    }
    None
}

// Do walks inside `p` join its states? Where there is a part, they join its states already.
pub fn loops(graph: &TwoWayGraph, force: Claims, p: Set, part: Option<Set>) -> bool
    requires { IfSome part (JoinedPart (Hop graph.now force p) p) }
    ensures { Decides result (Joined (Hop graph.now force p) p) }
{
    match part {
        Some(q) => graph.joined_from(force, p, q),
        None => graph.joined(force, p),
    }
}

// What a round is handed: the claims in force before it, places of sets that loop with them, the places of the sets with an entrance and an exit,
// and the places at which it may open a claim.
#[derive(Clone, Copy)]
pub struct Trial {
    pub force: Claims,
    pub fresh: Places,
    pub pieces: Places,
    pub places: Places,
}

impl Trial {
    // The claims that hold at place `i`. A set with an entrance and an exit loops only where it mixes; another never mixes, and is joined from a
    // set inside it that loops, one of those at the places `fresh`.
    fn found_at(&self, graph: &TwoWayGraph, i: u8) -> Claims
        requires { (i < 64) × LoopingAt graph.now self.now.force self.now.fresh }
        ensures { FindsAt graph.now self.now.force (member i self.now.pieces) i result }
    {
        let at = i as usize;
        let forth = graph.forth();
        let p = forth.set_at(at);
        let parts = forth.inner(self.force, p);
        if has(self.pieces, i) {
            let m = intersection(forth.lefts_at(at), p);
            let n = intersection(forth.rights_at(at), p);
            if !graph.covered(parts, p, m, n) {
                return Claims::NONE;
            }
            return Claims {
                loops: marked(graph.joined(parts, p), i),
                mixes: with(0, i),
            };
        }
        let part = part_among(&forth.parts(), self.fresh, p);
        Claims {
            loops: marked(loops(graph, parts, p, part), i),
            mixes: 0,
        }
    }

    // The claims that hold at some of the places.
    fn found_among(&self, graph: &TwoWayGraph, tried: Places) -> Claims
        requires { LoopingAt graph.now self.now.force self.now.fresh }
        ensures { PiecedAmong graph.now self.now.pieces tried
            → FoundAmong graph.now self.now.force tried result }
    {
        let mut loops: Places = 0;
        let mut mixes: Places = 0;
        for i in each(tried) {
            let found = self.found_at(graph, i);
            loops = union(loops, found.loops);
            mixes = union(mixes, found.mixes);
        }
        Claims { loops, mixes }
    }

    // The places at which no state is lacking: only there may a set loop or mix.
    fn unstuck(&self, lacks: &Lacks) -> Places
        ensures { Unstuck self.now.places lacks.now result }
    {
        if self.places == 0 {
            return 0;
        }
        difference(self.places, lacks.stuck())
    }

    // The claims that a round opens: at the places, and the loops of the sets whose mixes are in force, which need no test.
    pub fn open_next(&self, graph: &TwoWayGraph, lacks: &Lacks) -> Claims
        requires { Handed graph.now self.now lacks.now }
        ensures { OpensNext graph.now self.now.force self.now.pieces self.now.places result }
    {
        let tried = self.unstuck(lacks);
        let found = self.found_among(graph, tried);
        let due = difference(self.force.mixes, self.force.loops);
        Claims {
            loops: union(due, found.loops),
            mixes: found.mixes,
        }
    }
}
