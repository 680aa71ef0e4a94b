// One leg: the first of the shortest walks inside a set, as layers of states to go down step by step.
ghost use Rattle.std.specs.Prelude.{◌≡◌, ℕ, ◌+◌, ◌≤◌, ◌<◌, length, drop};
ghost use Rattle.lists.specs.Tests.{Decides};
ghost use Rattle.masks.specs.Mask.{◌∈◌};
ghost use Rattle.machine.specs.Machine.{open_claims};
ghost use Rattle.machine.specs.Search.{shortest};
ghost use Rattle.machine.specs.Expression.{walk_in};
ghost use Rattle.walks.specs.Layers.{Ahead};
ghost use Rattle.tours.specs.declared.frames.Shape.TheVariants.{Whole, Tour, Pieces};
ghost use Rattle.tours.specs.Frames.{LaysLeg, neighbour, piece_of};
ghost use Rattle.tours.specs.Laid.{KeptBelow, OneOrMore, ZeroOrMore, ComesFirst};

use crate::frames::Frame;
use masks::{STATES, Set, difference, has, intersection, lowest, with};
use search::IndexedGraph;
use walks::{Leg, lay};

// A piece goes to a state and on from it.
pub const LAYERS: usize = STATES + STATES;

// A walk of one or more steps from one of `starts` to one of `ends`; where there is none, no steps at `s`.
fn one_or_more(
    back: &IndexedGraph,
    frame: Frame,
    starts: Set,
    ends: Set,
    s: u8,
    layers: &mut [Set],
) -> Leg
    requires { (64 ≤ length layers.old) × (s < 64) }
    ensures kept { length layers.new ≡ length layers.old }
    ensures laid { OneOrMore (Ahead back.now frame.force frame.set) starts ends s
        layers.new result }
{
    let none = Leg { start: s, steps: 0 };
    lay(back, frame.force, frame.set, starts, ends, layers).unwrap_or(none)
}

// A walk of zero or more steps from one of `starts` to one of `ends`; its layers stand from place `at` on.
#[tactic(auto, using(masks::proofs::Member::member_lt))]
fn zero_or_more(
    back: &IndexedGraph,
    frame: Frame,
    starts: Set,
    ends: Set,
    layers: &mut [Set],
    at: usize,
) -> Leg
    requires { at + 64 ≤ length layers.old }
    ensures kept { KeptBelow at layers.old layers.new }
    ensures laid { ZeroOrMore (Ahead back.now frame.force frame.set) starts ends
        (drop at layers.new) result }
{
    let both = intersection(starts, ends);
    if both != 0 {
        let start = lowest(both);
        return Leg { start, steps: 0 };
    }
    one_or_more(back, frame, starts, ends, 0, &mut layers[at..])
}

// The sheet's walk: of zero or more steps, from one of the starts to one of the ends.
pub fn whole(back: &IndexedGraph, frame: Frame, layers: &mut [Set; LAYERS]) -> Leg
    ensures { LaysLeg back.now Whole frame.set frame.starts frame.ends frame.force
        (λ m. walk_in (shortest m.rows (open_claims m))) layers.new result }
{
    zero_or_more(back, frame, frame.starts, frame.ends, layers, 0)
}

// A walk of one or more steps from `a` to `b`.
pub fn between(back: &IndexedGraph, frame: Frame, a: u8, b: u8, layers: &mut [Set; LAYERS]) -> Leg
    requires { (a < 64) × (b < 64) }
    ensures { (q : ℕ) → a ∈ frame.set → b ∈ frame.set → LaysLeg back.now (Tour q) frame.set
        frame.starts frame.ends frame.force (neighbour frame.set a b) layers.new result }
{
    one_or_more(back, frame, with(0, a), with(0, b), a, layers)
}

// Does the first leg have steps, and come before the second, by fewer steps, then by lower start?
fn comes_first(a: Leg, b: Leg) -> bool
    ensures { Decides result (ComesFirst a b) }
{
    0 < a.steps && (b.steps == 0 || a.steps < b.steps || (a.steps == b.steps && a.start < b.start))
}

// The piece for `s`, which is an entrance and an exit: to it from another entrance, or from it; without either it has no steps.
#[tactic(auto, using(masks::proofs::Member::member_lt))]
fn piece_at_gap(back: &IndexedGraph, frame: Frame, s: u8, layers: &mut [Set; LAYERS]) -> Leg
    requires { (s ∈ frame.starts) × (s ∈ frame.ends) }
    ensures { s ∈ frame.set → LaysLeg back.now Pieces frame.set frame.starts frame.ends frame.force
        (piece_of frame.set s) layers.new result }
{
    let here = with(0, s);
    let on = one_or_more(back, frame, here, frame.ends, s, layers);
    let others = difference(frame.starts, here);
    let to = one_or_more(back, frame, others, here, s, layers);
    if comes_first(to, on) {
        return to;
    }
    // Once more, since its layers were overwritten.
    one_or_more(back, frame, here, frame.ends, s, layers)
}

// The piece for `s`, which is no entrance and exit both: the walk to it from an entrance, and the walk on to an exit.
fn piece_through(back: &IndexedGraph, frame: Frame, s: u8, layers: &mut [Set; LAYERS]) -> Leg
    requires { (s < 64) × (s ∈ frame.starts → s ∈ frame.ends → ⊥) }
    ensures { s ∈ frame.set → LaysLeg back.now Pieces frame.set frame.starts frame.ends frame.force
        (piece_of frame.set s) layers.new result }
{
    let here = with(0, s);
    let on = zero_or_more(back, frame, here, frame.ends, layers, 0);
    let n = on.steps;
    // What comes first stands in higher layers.
    let to = zero_or_more(back, frame, frame.starts, here, layers, n);
    Leg {
        start: to.start,
        steps: to.steps + n,
    }
}

// The piece for `s`: the first of the shortest walks of one or more steps from one of the starts to one of the ends by way of `s`.
pub fn piece(back: &IndexedGraph, frame: Frame, s: u8, layers: &mut [Set; LAYERS]) -> Leg
    requires { s < 64 }
    ensures { s ∈ frame.set → LaysLeg back.now Pieces frame.set frame.starts frame.ends frame.force
        (piece_of frame.set s) layers.new result }
{
    if has(intersection(frame.starts, frame.ends), s) {
        return piece_at_gap(back, frame, s, layers);
    }
    piece_through(back, frame, s, layers)
}
