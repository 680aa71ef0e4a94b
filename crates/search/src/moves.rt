// One step: where the letters and the claims in force lead to from a set of states.
ghost use Rattle.std.specs.Prelude.{◌≡◌, ◌↔◌, true, ℕ, ◌<◌};
ghost use Rattle.masks.specs.Mask.{◌∈◌};
ghost use Rattle.search.specs.Graph.{graph_of};
ghost use Rattle.search.specs.Hops.{Lettered, Looping, Mixing, Claimed, Touched, Hop, Onward, Inner, InnerClaims};

use crate::graphs::Masks;
use crate::{Claims, IndexedGraph, MaskGraph};
use masks::{Places, Set, each, intersection, is_subset, meets, union, with};

// The place `i` alone where `b` is true, else nothing.
pub fn marked(b: bool, i: u8) -> Places
    requires { i < 64 }
    ensures { (t : ℕ) → (t ∈ result) ↔ ((t ≡ i) × (b ≡ true)) }
{
    if b { with(0, i) } else { 0 }
}

// The set `there` where `here` has one of the states `m`, else nothing.
fn passed(here: Set, there: Set, m: Set) -> Set
    ensures { (t : ℕ) → (t ∈ result) ↔ (((s : ℕ) × (s ∈ m) × (s ∈ here)) × (t ∈ there)) }
{
    if meets(m, here) { there } else { 0 }
}

// The states to which a letter leads from the states `m`. Of the array only the letters are read.
#[tactic(auto, using(crate::proofs::Parts::letters_lead))]
pub fn lettered(graph: &Masks, m: Set) -> Set
    ensures { Onward (Lettered (graph_of graph.now)) m result }
{
    masks::targets(graph, m)
}

impl<'a> MaskGraph<'a> {
    // The places whose sets are parts of `p`.
    fn inside(&self, places: Places, p: Set) -> Places
        ensures { Inner self.now.sets places p result }
    {
        let mut r: Places = 0;
        for i in each(places) {
            r = union(r, marked(is_subset(self.set_at(i as usize), p), i));
        }
        r
    }

    // The claims about parts of `p`.
    pub fn inner(&self, force: Claims, p: Set) -> Claims
        ensures { InnerClaims self.now force p result }
    {
        Claims {
            loops: self.inside(force.loops, p),
            mixes: self.inside(force.mixes, p),
        }
    }
}

impl<'a> IndexedGraph<'a> {
    // The claims about parts of `p`.
    pub fn inner(&self, force: Claims, p: Set) -> Claims
        ensures { InnerClaims self.now force p result }
    {
        self.parts().inner(force, p)
    }

    // The states to which a letter leads from the states `m`.
    pub fn lettered(&self, m: Set) -> Set
        ensures { Onward (Lettered self.now) m result }
    {
        lettered(self.masks, m)
    }

    // The states to which an omega or a back step by one of the places leads from the states `m`. One pass for both kinds.
    fn looping(&self, places: Places, m: Set) -> Set
        ensures { Onward (Looping self.now places) m result }
    {
        let mut r: Set = 0;
        for i in each(places) {
            let at = i as usize;
            let p = self.set_at(at);
            let omega = passed(p, self.lefts_at(at), m);
            let back = passed(self.rights_at(at), p, m);
            r = union(r, union(omega, back));
        }
        r
    }

    // The states to which a mix step by one of the places leads from the states `m`.
    fn mixing(&self, places: Places, m: Set) -> Set
        ensures { Onward (Mixing self.now places) m result }
    {
        let mut r: Set = 0;
        for i in each(places) {
            let at = i as usize;
            r = union(r, passed(self.rights_at(at), self.lefts_at(at), m));
        }
        r
    }

    // The states to which a step by a claim leads from the states `m`. Every claim is looked at.
    #[tactic(auto, using(crate::proofs::Hops::onward_or))]
    pub(crate) fn claimed(&self, force: Claims, m: Set) -> Set
        ensures { Onward (Claimed self.now force) m result }
    {
        let omega_or_back = self.looping(force.loops, m);
        union(omega_or_back, self.mixing(force.mixes, m))
    }

    // The same where the states are few and the claims many: only the sets that the states touch are looked at. The omega steps are those by
    // the places `omegas`, which the caller knows the states to enter.
    pub(crate) fn touched(&self, force: Claims, omegas: Places, m: Set) -> Set
        ensures { Touched self.now force omegas m result }
    {
        let left = self.entered_from(m);
        let mix = intersection(left, force.mixes);
        let back = intersection(left, force.loops);
        union(self.lefts_of(union(omegas, mix)), self.states_of(back))
    }

    // The states to which one step inside `p` leads from the states `m`, by the sets that they touch.
    pub fn near(&self, force: Claims, p: Set, m: Set) -> Set
        ensures { Onward (Hop self.now force p) m result }
    {
        let from = intersection(m, p);
        let entered = intersection(self.meeting(from), force.loops);
        let claim = self.touched(force, entered, from);
        intersection(union(self.lettered(from), claim), p)
    }
}
