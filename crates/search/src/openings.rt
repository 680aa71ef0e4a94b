// Openings: does a set loop, does it mix, with the claims in force.
ghost use Rattle.lists.specs.Tests.{Decides};
ghost use Rattle.search.specs.Hops.{Hop, Joined, JoinedPart, Covered};

use crate::{Claims, TwoWayGraph};
use masks::{Set, intersection, is_subset, lowest, meets, union, with};

impl<'a> TwoWayGraph<'a> {
    // Does a walk of one or more steps inside `p` lead from each state of `p` to each?
    pub fn joined(&self, force: Claims, p: Set) -> bool
        ensures { Decides result (Joined (Hop self.now force p) p) }
    {
        if p == 0 {
            return true;
        }
        let s = with(0, lowest(p));
        if self.forth.reach(force, p, s) != p {
            return false;
        }
        self.back.reach(force, p, s) == p
    }

    // The same where such walks lead from each state of `q` to each, a set inside `p` with a state.
    pub fn joined_from(&self, force: Claims, p: Set, q: Set) -> bool
        requires { JoinedPart (Hop self.now force p) p q }
        ensures { Decides result (Joined (Hop self.now force p) p) }
    {
        if q == p {
            return true;
        }
        if self.reach_from(force, p, q) != p {
            return false;
        }
        self.turned().reach_from(force, p, q) == p
    }

    // Does a walk of one or more steps inside `p` lead from a state of `m` to one of `n`, and is each state of `p` on such a walk or both
    // in `m` and in `n`?
    pub fn covered(&self, force: Claims, p: Set, m: Set, n: Set) -> bool
        ensures { Decides result (Covered (Hop self.now force p) m n p) }
    {
        let after = self.forth.reach(force, p, m);
        if !meets(after, n) {
            return false;
        }
        let before = self.back.reach(force, p, n);
        let begun = union(m, after);
        let ended = union(n, before);
        is_subset(p, intersection(begun, ended))
    }
}
