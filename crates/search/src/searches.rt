// Walks: the states that they lead to, and whether one leads from an initial to a final state.
ghost use Rattle.std.specs.Prelude.{◌≡◌};
ghost use Rattle.search.specs.Graph.{graph_of};
ghost use Rattle.search.specs.Hops.{Lettered, Hop, Chain, Onward, all_mask, Reached, Joined};
ghost use Rattle.search.specs.Passes.{NewTargets, Unentered, Adding, Explores, FoundByPasses};
ghost use Rattle.search.specs.Promises.{AcceptsRight, AcceptsSeen, SeenBefore, AcceptsLetters};

use crate::graphs::Masks;
use crate::moves::{lettered, marked};
use crate::{Claims, IndexedGraph, TwoWayGraph};
use masks::{Places, Set, difference, each, intersection, meets, size, union, with};

// So many states not found are looked at one by one.
const FEW: usize = 8;

// What a search found, and the passes that it took, with the last one, which added nothing.
#[derive(Clone, Copy)]
pub struct Found {
    pub states: Set,
    pub count: u8,
}

// The states that a pass adds, and the loops in force that no pass has entered yet.
#[derive(Clone, Copy)]
pub struct Gained {
    pub states: Set,
    pub omegas: Places,
}

// Does a walk of zero or more steps lead from an initial to a final state? One or more lead to the states `seen`.
pub fn accepted(initials: Set, seen: Set, finals: Set) -> bool
    ensures { AcceptsSeen initials seen finals result }
{
    meets(union(initials, seen), finals)
}

// The states to which a walk of one or more letter steps leads from the states `m`: each pass follows the states that the last one added.
fn reached_by_letters(graph: &Masks, m: Set) -> Set
    ensures { Onward (Chain (Lettered (graph_of graph.now))) m result }
{
    let mut seen: Set = 0;
    let mut last = m;
    loop {
        let next = difference(lettered(graph, last), seen);
        if next == 0 {
            return seen;
        }
        seen = union(seen, next);
        last = next;
    }
}

// Does a walk of zero or more letter steps lead from an initial to a final state? Of the graph only the letters are read.
pub fn accepts_by_letters(graph: &Masks, initials: Set, finals: Set) -> bool
    ensures { AcceptsLetters (graph_of graph.now) initials finals result }
{
    let seen = reached_by_letters(graph, initials);
    meets(union(initials, seen), finals)
}

// The set of all states.
fn all_states() -> Set
    ensures { result ≡ all_mask }
{
    !0u64
}

impl<'a> IndexedGraph<'a> {
    // What a pass adds: the targets inside `p` of the states `last`, but for those found already. The left limits of a loop lead on in the pass
    // that enters it first: to enter it again leads to states found.
    fn added(&self, force: Claims, omegas: Places, p: Set, found: Set, last: Set) -> Gained
        requires { Unentered self.now force.loops p omegas found }
        ensures { Adding self.now force p omegas found last result.states result.omegas }
    {
        // Every step inside `p` leads to a state of `p`: there is nothing to add, and nothing to look through.
        if found == p {
            return Gained { states: 0, omegas };
        }
        let from = intersection(last, p);
        let entered = intersection(self.meeting(from), omegas);
        let claim = self.touched(force, entered, from);
        let near = union(self.lettered(from), claim);
        let next = intersection(near, p);
        Gained {
            states: difference(next, found),
            omegas: difference(omegas, entered),
        }
    }

    // Passes inside `p` from the states `found`, until one adds nothing. A pass follows the steps of the states that the last one added: the
    // targets of the others are in already.
    fn explore(&self, force: Claims, p: Set, found: Set, last: Set) -> Found
        ensures { Explores (Hop self.now force p) found last result.states result.count }
    {
        let mut states = found;
        let mut front = last;
        let mut omegas = force.loops;
        let mut count: u8 = 0;
        // How many passes there are is told by the last: no range counts them.
        loop {
            let more = self.added(force, omegas, p, states, front);
            let next = more.states;
            count += 1;
            if next == 0 {
                return Found { states, count };
            }
            omegas = more.omegas;
            states = union(states, next);
            front = next;
        }
    }

    // The states to which a walk of one or more steps inside `p` leads from the states `m`, by passes that each add all targets of the states `m`
    // and of those found so far.
    pub fn passes(&self, force: Claims, p: Set, m: Set) -> Found
        ensures { FoundByPasses self.now force p m result.states result.count }
    {
        self.explore(force, p, 0, m)
    }

    // The states to which a walk of one or more steps inside `p` leads from the states `m`.
    pub fn reach(&self, force: Claims, p: Set, m: Set) -> Set
        ensures { Onward (Chain (Hop self.now force p)) m result }
    {
        self.passes(force, p, m).states
    }

    // The states of `p` that are not found and from which a step inside `p` leads to one that is, where this is the graph turned round.
    fn pull(&self, force: Claims, p: Set, found: Set) -> Set
        ensures { NewTargets (λ s t. Hop self.now force p t s) found found result }
    {
        let missing = difference(p, found);
        let mut r: Set = 0;
        for t in each(missing) {
            let before = self.near(force, p, with(0, t));
            r = union(r, marked(meets(before, found), t));
        }
        r
    }

    // The states to which a walk of one or more steps with the claims in force leads from the initial states.
    pub fn reached(&self, force: Claims, initials: Set) -> Set
        ensures { Reached self.now force initials result }
    {
        self.reach(force, all_states(), initials)
    }

    // The same where `seen` was reached before the new claims came into force: the passes go on from there, and the first one follows the new
    // claims only.
    pub fn reached_more(&self, force: Claims, new: Claims, initials: Set, seen: Set) -> Set
        requires { SeenBefore self.now force new initials seen }
        ensures { Reached self.now force initials result }
    {
        let from = union(initials, seen);
        let next = difference(self.claimed(new, from), seen);
        if next == 0 {
            return seen;
        }
        let more = self.explore(force, all_states(), union(seen, next), next);
        more.states
    }

    // Does a walk of zero or more steps with the claims in force lead from an initial to a final state?
    pub fn accepts(&self, force: Claims, initials: Set, finals: Set) -> bool
        ensures { AcceptsRight self.now force initials finals result }
    {
        let seen = self.reached(force, initials);
        accepted(initials, seen, finals)
    }
}

impl<'a> TwoWayGraph<'a> {
    // As `reach`, where a walk of one or more steps inside `p` leads from each state of `q` to each: these are found from the start. Where few
    // others are in `p`, the first pass looks from them.
    pub(crate) fn reach_from(&self, force: Claims, p: Set, q: Set) -> Set
        requires { Joined (Hop self.now force p) q }
        ensures { Onward (Chain (Hop self.now force p)) q result }
    {
        if FEW < size(difference(p, q)) {
            let all = self.forth.explore(force, p, q, q);
            return all.states;
        }
        let first = self.back.pull(force, p, q);
        if first == 0 {
            return q;
        }
        let found = self.forth.explore(force, p, union(q, first), first);
        found.states
    }
}
