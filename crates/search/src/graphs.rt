// A graph is one array of masks: its four parts, what says which sets a state is in or has a limit of, and the graph turned round.
ghost use Rattle.std.specs.Prelude.{◌≡◌, ℕ, ◌+◌, ◌≤◌, ◌<◌, length, get_or};
ghost use Rattle.masks.specs.Graph.{Targets, Turned};
ghost use Rattle.search.specs.Graph.{part, graph_of, TurnedGraph, Indexed, Fills, PlaceAdded, PartIndexed, Indexes};
ghost use Rattle.search.specs.Graph.{TurnsIndexed, HasTurned, Having, Meeting};

use crate::{IndexedGraph, MaskGraph, TwoWayGraph};
use masks::{PLACES, Places, STATES, Set, each, with};

// Where the parts begin; the letters stand first, a mask for each state, and the others have one for each set.
pub const SETS: usize = STATES;

pub const LEFTS: usize = SETS + PLACES;

pub const RIGHTS: usize = LEFTS + PLACES;

// Behind them a mask for each state: the places of the sets that have it, and those of the sets with such a limit.
pub const BY_SETS: usize = RIGHTS + PLACES;

pub const BY_LEFTS: usize = BY_SETS + STATES;

pub const BY_RIGHTS: usize = BY_LEFTS + STATES;

pub const MASKS: usize = BY_RIGHTS + STATES;

// From so many sets on, to turn the square of all sets takes less time than to enter each state of each.
const MANY_SETS: usize = 16;

pub type Masks = [Set; MASKS];

// The mask at place `i` of the part that begins at `base`.
#[tactic(auto, using(crate::proofs::Parts::at_part))]
pub fn mask_at(graph: &Masks, base: usize, i: usize) -> Set
    requires { (base ≤ 384) × (i < 64) }
    ensures { result ≡ get_or (part graph.now base) i 0 }
{
    graph[base + i]
}

// The targets of the states, or of the places, `m` in the part that begins at `base`.
#[tactic(auto, using(crate::proofs::Parts::targets_part))]
pub fn targets_in(graph: &[Set], base: usize, m: Set) -> Set
    requires { base + 64 ≤ length graph.now }
    ensures { Targets (part graph.now base) m result }
{
    masks::targets(&graph[base..], m)
}

// Adds the place `i` to the masks of the states `m` in the part that begins at `base`.
fn add_place(graph: &mut Masks, base: usize, m: Set, i: u8)
    requires { (base ≤ 384) × (i < 64) }
    ensures { PlaceAdded graph.old base m i graph.new }
{
    for s in each(m) {
        let at = base + s as usize;
        graph[at] = with(graph[at], i);
    }
}

// In the part `by`, which has nothing yet, for each state the places below `n` whose masks in the part `from` have it.
fn index_part(graph: &mut Masks, from: usize, by: usize, n: usize)
    requires { (from + 64 ≤ by) × (by ≤ 384) × (n ≤ 64) }
    ensures { PartIndexed graph.old from by n graph.new }
{
    for i in 0..n {
        let m = graph[from + i];
        add_place(graph, by, m, i as u8);
    }
}

// The part that begins at `base`, turned round.
#[tactic(auto, using(crate::proofs::Parts::turned_part))]
fn turned_part(graph: &[Set], base: usize) -> [Set; STATES]
    requires { base + 64 ≤ length graph.now }
    ensures { Turned (part graph.now base) result }
{
    masks::transpose_dense(&graph[base..])
}

// In the part `by`, for each state all places whose masks in the part `from` have it.
fn turn_part(graph: &mut Masks, from: usize, by: usize)
    requires { (from + 64 ≤ by) × (by ≤ 384) }
    ensures { (n : ℕ) → PartIndexed graph.old from by n graph.new }
{
    let turned = turned_part(graph, from);
    copy(graph, by, &turned, 0);
}

// Where many sets stand, which have many states together, the whole square is turned: what stands from place `n` on is empty, and stays out.
fn index_sets(graph: &mut Masks, n: usize)
    requires { n ≤ 64 }
    ensures { PartIndexed graph.old 64 256 n graph.new }
{
    if n < MANY_SETS {
        index_part(graph, SETS, BY_SETS, n);
    } else {
        turn_part(graph, SETS, BY_SETS);
    }
}

// Writes what stands behind the four parts, where no set stands from place `n` on.
pub fn index(graph: &mut Masks, set_count: usize)
    requires { set_count ≤ 64 }
    ensures { Indexes set_count graph.old graph.new }
{
    index_sets(graph, set_count);
    index_part(graph, LEFTS, BY_LEFTS, set_count);
    index_part(graph, RIGHTS, BY_RIGHTS, set_count);
}

// Writes the 64 masks from `from` on over the part that begins at `base`.
fn copy(back: &mut Masks, base: usize, masks: &[Set], from: usize)
    requires { (base ≤ 384) × (from + 64 ≤ length masks.now) }
    ensures { Fills back.old base (part masks.now from) back.new }
{
    lists::write_over(&mut back[base..base + STATES], &masks[from..from + STATES]);
}

// Writes the four parts of the graph with every step turned round: lefts are rights.
fn turn(graph: &Masks, back: &mut Masks)
    ensures { TurnedGraph (graph_of graph.now) (graph_of back.new) }
{
    let letters = masks::transpose(graph);
    copy(back, 0, &letters, 0);
    copy(back, SETS, graph, SETS);
    copy(back, LEFTS, graph, RIGHTS);
    copy(back, RIGHTS, graph, LEFTS);
}

// Writes the whole array of the graph turned round. Which sets a state touches is only copied: there a left limit is a right one.
pub fn turn_indexed(graph: &Masks, back: &mut Masks)
    ensures { TurnsIndexed graph.now back.new }
{
    turn(graph, back);
    copy(back, BY_SETS, graph, BY_SETS);
    copy(back, BY_LEFTS, graph, BY_RIGHTS);
    copy(back, BY_RIGHTS, graph, BY_LEFTS);
}

impl<'a> MaskGraph<'a> {
    // The graph of an array.
    pub fn new(masks: &'a Masks) -> Self
        ensures { result ≡ graph_of masks.now }
    {
        MaskGraph { masks }
    }

    // Each part has methods of its own: a promise names the list that the part is, which a place handed in would hide.

    // The states to which a letter leads from the state `s`.
    #[tactic(auto, unfolding(crate::specs::Graph::graph_of))]
    pub fn letters_at(&self, s: usize) -> Set
        requires { s < 64 }
        ensures { result ≡ get_or self.now.letters s 0 }
    {
        mask_at(self.masks, 0, s)
    }

    // The set at place `i`.
    #[tactic(auto, unfolding(crate::specs::Graph::graph_of))]
    pub fn set_at(&self, i: usize) -> Set
        requires { i < 64 }
        ensures { result ≡ get_or self.now.sets i 0 }
    {
        mask_at(self.masks, SETS, i)
    }

    // The states that the left-limit rows of the set at place `i` lead to.
    #[tactic(auto, unfolding(crate::specs::Graph::graph_of))]
    pub fn lefts_at(&self, i: usize) -> Set
        requires { i < 64 }
        ensures { result ≡ get_or self.now.lefts i 0 }
    {
        mask_at(self.masks, LEFTS, i)
    }

    // The states that the right-limit rows of the set at place `i` start from.
    #[tactic(auto, unfolding(crate::specs::Graph::graph_of))]
    pub fn rights_at(&self, i: usize) -> Set
        requires { i < 64 }
        ensures { result ≡ get_or self.now.rights i 0 }
    {
        mask_at(self.masks, RIGHTS, i)
    }

    // The sets by place, those past the last one empty.
    #[tactic(auto, unfolding(crate::specs::Graph::graph_of, crate::specs::Graph::part))]
    pub fn sets(&self) -> &'a [Set]
        ensures are { result.now ≡ self.now.sets }
        ensures many { length result.now ≡ 64 }
    {
        let masks = self.masks;
        &masks[SETS..LEFTS]
    }

    // By place, the states that the left-limit rows of the set lead to.
    #[tactic(auto, unfolding(crate::specs::Graph::graph_of, crate::specs::Graph::part))]
    pub fn lefts(&self) -> &'a [Set]
        ensures are { result.now ≡ self.now.lefts }
        ensures many { length result.now ≡ 64 }
    {
        let masks = self.masks;
        &masks[LEFTS..RIGHTS]
    }

    // By place, the states that the right-limit rows of the set start from.
    #[tactic(auto, unfolding(crate::specs::Graph::graph_of, crate::specs::Graph::part))]
    pub fn rights(&self) -> &'a [Set]
        ensures are { result.now ≡ self.now.rights }
        ensures many { length result.now ≡ 64 }
    {
        let masks = self.masks;
        &masks[RIGHTS..BY_SETS]
    }
}

impl<'a> IndexedGraph<'a> {
    // The graph of an array.
    pub fn new(masks: &'a Masks) -> Self
        requires { Indexed masks.now }
        ensures { result ≡ graph_of masks.now }
    {
        IndexedGraph { masks }
    }

    // Its first four parts alone.
    pub fn parts(&self) -> MaskGraph<'a>
        ensures { result ≡ self.now }
    {
        MaskGraph::new(self.masks)
    }

    // The states to which a letter leads from the state `s`.
    pub fn letters_at(&self, s: usize) -> Set
        requires { s < 64 }
        ensures { result ≡ get_or self.now.letters s 0 }
    {
        self.parts().letters_at(s)
    }

    // The set at place `i`.
    pub fn set_at(&self, i: usize) -> Set
        requires { i < 64 }
        ensures { result ≡ get_or self.now.sets i 0 }
    {
        self.parts().set_at(i)
    }

    // The states that the left-limit rows of the set at place `i` lead to.
    pub fn lefts_at(&self, i: usize) -> Set
        requires { i < 64 }
        ensures { result ≡ get_or self.now.lefts i 0 }
    {
        self.parts().lefts_at(i)
    }

    // The states that the right-limit rows of the set at place `i` start from.
    pub fn rights_at(&self, i: usize) -> Set
        requires { i < 64 }
        ensures { result ≡ get_or self.now.rights i 0 }
    {
        self.parts().rights_at(i)
    }

    // The sets by place, those past the last one empty.
    pub fn sets(&self) -> &'a [Set]
        ensures are { result.now ≡ self.now.sets }
        ensures many { length result.now ≡ 64 }
    {
        self.parts().sets()
    }

    // By place, the states that the left-limit rows of the set lead to.
    pub fn lefts(&self) -> &'a [Set]
        ensures are { result.now ≡ self.now.lefts }
        ensures many { length result.now ≡ 64 }
    {
        self.parts().lefts()
    }

    // By place, the states that the right-limit rows of the set start from.
    pub fn rights(&self) -> &'a [Set]
        ensures are { result.now ≡ self.now.rights }
        ensures many { length result.now ≡ 64 }
    {
        self.parts().rights()
    }

    // The states of the sets at the places.
    #[tactic(auto, unfolding(crate::specs::Graph::graph_of))]
    pub fn states_of(&self, places: Places) -> Set
        ensures { Targets self.now.sets places result }
    {
        let masks = self.masks;
        targets_in(masks, SETS, places)
    }

    // The states that the left-limit rows of the sets at the places lead to.
    #[tactic(auto, unfolding(crate::specs::Graph::graph_of))]
    pub fn lefts_of(&self, places: Places) -> Set
        ensures { Targets self.now.lefts places result }
    {
        let masks = self.masks;
        targets_in(masks, LEFTS, places)
    }

    // The places of the sets that have the state `s`.
    #[tactic(auto, using(crate::proofs::Incidence::has), unfolding(crate::specs::Graph::graph_of))]
    pub fn having(&self, s: usize) -> Places
        requires { s < 64 }
        ensures { Having self.now.sets s result }
    {
        self.masks[BY_SETS + s]
    }

    // The places of the sets that have one of the states `m`.
    pub fn meeting(&self, m: Set) -> Places
        ensures { Meeting self.now.sets m result }
    {
        let masks = self.masks;
        targets_in(masks, BY_SETS, m)
    }

    // The places of the sets that a right-limit row of one of the states `m` leads to.
    pub fn entered_from(&self, m: Set) -> Places
        ensures { Meeting self.now.rights m result }
    {
        let masks = self.masks;
        targets_in(masks, BY_RIGHTS, m)
    }

    // Writes the whole array of the graph turned round.
    pub fn turn_into(&self, back: &mut Masks)
        ensures { HasTurned self.now back.new }
    {
        turn_indexed(self.masks, back);
    }
}

impl<'a> TwoWayGraph<'a> {
    // The graph `forth`, where `back` is the same graph turned round.
    pub fn new(forth: &'a IndexedGraph<'a>, back: &'a IndexedGraph<'a>) -> Self
        requires { TurnedGraph forth.now back.now }
        ensures { result ≡ forth.now }
    {
        TwoWayGraph { forth, back }
    }

    // The graph alone.
    pub fn forth(&self) -> &'a IndexedGraph<'a>
        ensures { result.now ≡ self.now }
    {
        self.forth
    }

    // The graph turned round.
    pub fn back(&self) -> &'a IndexedGraph<'a>
        ensures { TurnedGraph self.now result.now }
    {
        self.back
    }

    // The graph turned round, and with it this one.
    pub fn turned(&self) -> Self
        ensures { TurnedGraph self.now result }
    {
        TwoWayGraph {
            forth: self.back,
            back: self.forth,
        }
    }
}
