// Lacks: for each state the places of sets that have it but inside which no step leads to it. Such a set neither loops nor mixes, unless the state
// is an entrance. A place that a mask does not have says nothing, so a new claim only takes places out.
#![tactic(auto)]

ghost use Rattle.std.specs.Prelude.{◌≡◌, ◌⊎◌, ◌↔◌, ℕ, ◌≤◌, ◌<◌, get_or, replicate};
ghost use Rattle.lists.specs.Tests.{Decides};
ghost use Rattle.masks.specs.Mask.{◌∈◌};
ghost use Rattle.search.specs.Graph.{Graph, TurnedGraph};
ghost use Rattle.search.specs.Hops.{no_claims};
ghost use Rattle.lacks.specs.Lacks.{Pieced, PiecedBelow, LacksIn, ByLetters, Supplies, AboveNew};
ghost use Rattle.lacks.specs.Lacks.{InSome, Above, Without, TakenOut, Spares, Leads, SuppliesClaim};

use masks::{Places, STATES, Set, below, difference, each, has, intersection, meets, union, with};
use search::moves::marked;
use search::{Claims, IndexedGraph, MaskGraph, TwoWayGraph};

// Has the set at place `i` an entrance and an exit?
fn is_pieced(graph: &MaskGraph, i: usize) -> bool
    requires { i < 64 }
    ensures { Decides result (Pieced graph.now i) }
{
    let p = graph.set_at(i);
    if !meets(p, graph.lefts_at(i)) {
        return false;
    }
    meets(p, graph.rights_at(i))
}

// The places of the first `set_count` sets that have an entrance and an exit.
pub fn pieced(graph: &MaskGraph, set_count: usize) -> Places
    requires { set_count ≤ 64 }
    ensures { PiecedBelow graph.now set_count result }
{
    let mut r: Places = 0;
    for i in 0..set_count {
        r = union(r, marked(is_pieced(graph, i), i as u8));
    }
    r
}

// Those of the places whose sets have all states of `p`.
fn above(graph: &IndexedGraph, places: Places, p: Set) -> Places
    ensures { Above graph.now.sets places p result }
{
    let mut r = places;
    for s in each(p) {
        r = intersection(r, graph.having(s as usize));
    }
    r
}

// Takes the places out of the masks at the states `m`.
fn take_out(lack: &mut [Places; STATES], m: Set, places: Places)
    ensures { TakenOut m places lack.old lack.new }
{
    if places == 0 {
        return;
    }
    for s in each(m) {
        let at = s as usize;
        lack[at] = difference(lack[at], places);
    }
}

// The places of the sets that have the state `q` but no state with a letter step to it, which `sources` has.
fn unled(graph: &IndexedGraph, q: usize, sources: Set) -> Places
    requires { q < 64 }
    ensures { Without graph.now.sets q sources result }
{
    let by = graph.having(q);
    if by == 0 {
        return 0;
    }
    difference(by, graph.meeting(sources))
}

// Writes for each of the states the places of the sets in which it is lacking where no claim is in force.
fn write_unled(lack: &mut [Places; STATES], graph: &TwoWayGraph, states: Set)
    ensures { ByLetters graph.now 0 lack.old lack.new }
{
    let forth = graph.forth();
    let back = graph.back();
    for s in each(states) {
        let q = s as usize;
        lack[q] = unled(forth, q, back.letters_at(q));
    }
}

// Takes each of the places out of the masks at the entrances of its set: an entrance needs no step to it.
fn spare(lack: &mut [Places; STATES], graph: &IndexedGraph, pieces: Places)
    ensures { Spares graph.now pieces lack.old lack.new }
{
    for i in each(pieces) {
        let at = i as usize;
        let m = intersection(graph.set_at(at), graph.lefts_at(at));
        take_out(lack, m, with(0, i));
    }
}

// The same as `write_unled`, but that an entrance is not lacking at the places `pieces`.
fn write_by_letters(lack: &mut [Places; STATES], graph: &TwoWayGraph, pieces: Places, states: Set)
    ensures { ByLetters graph.now pieces lack.old lack.new }
{
    write_unled(lack, graph, states);
    spare(lack, graph.forth(), pieces);
}

// Takes the places `up`, whose sets have the part `p`, out of the masks of the states to which a claim about `p` leads inside the set: a loop, or
// else a mix.
fn lead(
    lack: &mut [Places; STATES],
    graph: &IndexedGraph,
    p: Set,
    left: Set,
    right: Set,
    up: Places,
    looping: bool,
)
    ensures { Leads graph.now.sets p left right up looping lack.old lack.new }
{
    let met = intersection(up, graph.meeting(right));
    if looping {
        take_out(lack, left, up);
        take_out(lack, p, met);
        return;
    }
    take_out(lack, left, met);
}

// The places that some mask has.
fn some_has(lack: &[Places; STATES]) -> Places
    ensures { (i : ℕ) → (i ∈ result) ↔ InSome lack.now i }
{
    let mut r: Places = 0;
    for places in lack {
        r = union(r, *places);
    }
    r
}

// The lacks forward, of states that no step leads to, and backward, of states that no step leads from. Two arrays, not one of pairs: places are
// taken out in one direction at a time.
#[derive(Drop)]
pub struct Lacks {
    pub to: [Places; STATES],
    pub from: [Places; STATES],
}

impl Lacks {
    // No mask has a place.
    pub fn none() -> Self
        ensures to { result.to ≡ replicate 64 0 }
        ensures from { result.from ≡ replicate 64 0 }
    {
        Lacks {
            to: [0u64; STATES],
            from: [0u64; STATES],
        }
    }

    // Where no claim is in force, of the states of the first `set_count` sets: no other is in a set. An entrance, and backward an exit, is not lacking
    // at the places `pieces`.
    pub fn fill(&mut self, graph: &TwoWayGraph, pieces: Places, set_count: usize)
        requires { set_count ≤ 64 }
        ensures forward { ByLetters graph.now pieces self.old.to self.new.to }
        ensures backward { (back : Graph) → TurnedGraph graph.now back
            → ByLetters back pieces self.old.from self.new.from }
    {
        let states = graph.forth().states_of(below(set_count));
        let turned = graph.turned();
        write_by_letters(&mut self.to, graph, pieces, states);
        write_by_letters(&mut self.from, &turned, pieces, states);
    }

    // The same as one value, for those who hold none.
    pub fn by_letters(graph: &TwoWayGraph, pieces: Places, set_count: usize) -> Self
        requires { set_count ≤ 64 }
        ensures forward { (places : ℕ) → LacksIn graph.now no_claims pieces places result.to }
        ensures backward { (back : Graph) → TurnedGraph graph.now back
            → (places : ℕ) → LacksIn back no_claims pieces places result.from }
    {
        let mut lacks = Lacks::none();
        lacks.fill(graph, pieces, set_count);
        lacks
    }

    // Supplies the new claims about the set at place `i`; answers the places `live` whose sets have that set as a part. A set among `led` has a step
    // to and from each of its states already: only the limits are new.
    fn supply_claim(
        &mut self,
        graph: &IndexedGraph,
        new: Claims,
        led: Places,
        i: u8,
        live: Places,
    ) -> Places
        requires { i < 64 }
        ensures forward { SuppliesClaim graph.now new led live i self.old.to self.new.to }
        ensures backward { (back : Graph) → TurnedGraph graph.now back
            → SuppliesClaim back new led live i self.old.from self.new.from }
        ensures above { Above graph.now.sets live (get_or graph.now.sets i 0) result }
    {
        let at = i as usize;
        let p = graph.set_at(at);
        let up = above(graph, live, p);
        if up == 0 {
            return 0;
        }
        let left = graph.lefts_at(at);
        let right = graph.rights_at(at);
        if has(led, i) {
            take_out(&mut self.to, left, up);
            take_out(&mut self.from, right, up);
            return up;
        }
        let looping = has(new.loops, i);
        lead(&mut self.to, graph, p, left, right, up, looping);
        lead(&mut self.from, graph, p, right, left, up, looping);
        up
    }

    // Takes out what new claims supply; answers the places `live` whose sets have a part that a new claim is about. To and from each state of the sets
    // at the places `led` a step leads without the new claims.
    pub fn supply(&mut self, graph: &IndexedGraph, new: Claims, led: Places, live: Places) -> Places
        ensures forward { Supplies graph.now new led live self.old.to self.new.to }
        ensures backward { (back : Graph) → TurnedGraph graph.now back
            → Supplies back new led live self.old.from self.new.from }
        ensures above { AboveNew graph.now new live result }
    {
        let places = new.places();
        let mut r: Places = 0;
        for i in each(places) {
            r = union(r, self.supply_claim(graph, new, led, i, live));
        }
        r
    }

    // The places that some mask has: there a state is lacking, forward or backward.
    pub fn stuck(&self) -> Places
        ensures { (i : ℕ) → (i ∈ result) ↔ (InSome self.now.to i ⊎ InSome self.now.from i) }
    {
        union(some_has(&self.to), some_has(&self.from))
    }
}
