// The search: does a set loop, does it mix, does a walk lead from an initial to a final state.
#![tactic(auto)]

ghost use Rattle.search.specs.Graph.{Graph, graph_of, Indexed, TurnedGraph};
ghost use Rattle.search.specs.Hops.{Unites, WithNew};

pub mod graphs;
pub mod moves;
pub mod openings;
pub mod searches;

use graphs::Masks;
use masks::{Places, Set, union};
use std::marker::Model;

// Claims, as two masks of places among the sets: those that loop and those that mix.
#[derive(Clone, Copy, PartialEq, Eq)]
pub struct Claims {
    pub loops: Places,
    pub mixes: Places,
}

impl Claims {
    // No claim in force.
    pub const NONE: Self = Claims { loops: 0, mixes: 0 };

    // The places of the sets with a claim.
    pub fn places(self) -> Places
        ensures { Unites self.loops self.mixes result }
    {
        union(self.loops, self.mixes)
    }

    // The claims in force, and new ones.
    pub fn with_new(self, new: Claims) -> Self
        ensures { WithNew self new result }
    {
        Claims {
            loops: union(self.loops, new.loops),
            mixes: union(self.mixes, new.mixes),
        }
    }
}

// The states that walks start from, and those that they end at.
#[derive(Clone, Copy, PartialEq, Eq)]
pub struct Endpoints {
    pub initials: Set,
    pub finals: Set,
}

// A graph on the states, read from any array of masks: its first four parts alone.
#[derive(Drop)]
pub struct MaskGraph<'a> {
    masks: &'a Masks,
}

impl<'a> Model for MaskGraph<'a> {
    ghost Value = { Graph };

    ghost view = { λ a. graph_of a.masks.now };
}

// A graph on the states, read from an array whose every part is written.
#[derive(Drop)]
pub struct IndexedGraph<'a> {
    masks: &'a Masks,
}

impl<'a> Model for IndexedGraph<'a> {
    ghost Value = { Graph };

    ghost view = { λ a. graph_of a.masks.now };

    ghost invariant = { λ a. Indexed a.masks.now };
}

// A graph, and the same graph turned round.
#[derive(Drop)]
pub struct TwoWayGraph<'a> {
    forth: &'a IndexedGraph<'a>,
    back: &'a IndexedGraph<'a>,
}

impl<'a> Model for TwoWayGraph<'a> {
    ghost Value = { Graph };

    ghost view = { λ a. a.forth.now };

    ghost invariant = { λ a. TurnedGraph a.forth.now a.back.now };
}
