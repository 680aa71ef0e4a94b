// The walk that a sheet prints: the first of the shortest from an initial to a final state.
#![tactic(auto)]

pub mod found;
pub mod letters;

ghost use Rattle.std.specs.Prelude.{◌≡◌, ◌↔◌, ℕ, ◌≤◌, ◌<◌, length, take};
ghost use Rattle.masks.specs.Mask.{◌∈◌};
ghost use Rattle.walks.specs.Layers.{Ahead, Lays};
ghost use Rattle.walks.specs.Choices.{PassAt, Way, RisingAt, Picked, SetsRise, Chooses};
ghost use Rattle.walks.specs.Walks.{Follows, FirstWalk};

use crate::found::UNWRITTEN;
pub use crate::found::{FoundWalk, Leg};
pub use crate::letters::Letters;
use machine::{MOST_ROWS, Step, StepLabel};
use masks::{Places, STATES, Set, difference, each, has, intersection, lowest, union};
use search::{Claims, Endpoints, IndexedGraph, MaskGraph};

// Writes the states of `p` by their distance from `ends` inside `p`, up to the first layer to which a step leads from one of `starts`: a leg of one
// or more steps from the lowest of these, or none. `back` is the graph turned round.
pub fn lay(
    back: &IndexedGraph,
    force: Claims,
    p: Set,
    starts: Set,
    ends: Set,
    layers: &mut [Set],
) -> Option<Leg>
    requires { 64 ≤ length layers.old }
    ensures kept { length layers.new ≡ length layers.old }
    ensures laid { Lays (Ahead back.now force p) starts ends layers.new result }
{
    let mut k = 0;
    let mut layer = ends;
    let mut seen = ends;
    layers[0] = ends;
    // It ends where a start is met or no state is new: no range counts the layers.
    loop {
        let near = back.near(force, p, layer);
        // Before what was seen is taken away: a start may be an end, and the walk still has a step.
        let met = intersection(near, starts);
        if met != 0 {
            let start = lowest(met);
            return Some(Leg {
                start,
                steps: k + 1,
            });
        }
        let next = difference(near, seen);
        if next == 0 {
            return None;
        }
        seen = union(seen, next);
        k += 1;
        layers[k] = next;
        layer = next;
    }
}

// The states of `there` and `layer` where `here` has `a`, else none.
fn entered(here: Set, there: Set, a: u8, layer: Set) -> Set
    requires { a < 64 }
    ensures { (t : ℕ) → (t ∈ result) ↔ ((a ∈ here) × (t ∈ there) × (t ∈ layer)) }
{
    if has(here, a) {
        intersection(there, layer)
    } else {
        0
    }
}

// The first step from `a` into `layer` by one of the places: from a state of its mask in one list to one of its mask in another.
#[inline(always)]
fn first_pass<F: Fn(u64) -> StepLabel>(
    sets: &[Set],
    here: &[Set],
    there: &[Set],
    places: Places,
    a: u8,
    layer: Set,
    label: F,
) -> Option<Step>
    requires { (a < 64) × (64 ≤ length sets.now) × (64 ≤ length here.now) × (64 ≤ length there.now)
        × F.IsAlwaysCallable label }
    ensures { Picked layer (PassAt sets.now here.now there.now places a) (F.post label) (RisingAt sets.now places) result }
{
    for i in each(places) {
        let at = i as usize;
        let met = entered(here[at], there[at], a, layer);
        if met != 0 {
            return Some(Step {
                label: label(sets[at]),
                to: lowest(met),
            });
        }
    }
    None
}

impl<'a> Letters<'a> {
    // The first step from `a` into `layer`, by kind, then by letter or set, then by target. The graph is turned round, so its rights are the lefts.
    // Put into its callers, so that a step need not go through memory.
    #[inline(always)]
    pub fn first_step(&self, back: &MaskGraph, force: Claims, a: u8, layer: Set) -> Option<Step>
        requires { a < 64 }
        ensures { Chooses layer (Way self.now.words.now self.now.count back.now force a)
            (SetsRise back.now force) result }
    {
        let (sets, lefts, rights) = (back.sets(), back.lefts(), back.rights());
        let loops = force.loops;
        if let Some(step) = self.first_letter(a, layer) {
            return Some(step);
        }
        if let Some(step) = first_pass(sets, sets, rights, loops, a, layer, StepLabel::Omega) {
            return Some(step);
        }
        if let Some(step) = first_pass(sets, lefts, sets, loops, a, layer, StepLabel::Back) {
            return Some(step);
        }
        first_pass(sets, lefts, rights, force.mixes, a, layer, StepLabel::Mix)
    }
}

// The walk of the leg, which goes down one layer at each step, by the first step into it.
fn follow(
    words: &[u64; MOST_ROWS],
    count: usize,
    back: &IndexedGraph,
    force: Claims,
    layers: &[Set; STATES],
    leg: Leg,
) -> FoundWalk
    requires { (count ≤ 256) × (leg.steps < 64) }
    ensures start { result.start ≡ leg.start }
    ensures follows { Follows (Way words.now count back.now force)
        (SetsRise back.now force) layers.now leg.start leg.steps (take result.count result.steps) }
{
    let letters = Letters::new(words, count);
    let parts = back.parts();
    let mut steps = [UNWRITTEN; STATES];
    let mut a = leg.start;
    for i in 0..leg.steps {
        let layer = layers[leg.steps - 1 - i];
        let Some(step) = letters.first_step(&parts, force, a, layer) else {
            return FoundWalk {
                start: leg.start,
                count: i,
                steps,
            };
        };
        steps[i] = step;
        a = step.to;
    }
    FoundWalk {
        start: leg.start,
        count: leg.steps,
        steps,
    }
}

// The first of the shortest walks from an initial to a final state, with the claims in force. The letter rows are among the first `count` words, in
// any order. `back` is the graph turned round.
pub fn first_walk(
    words: &[u64; MOST_ROWS],
    count: usize,
    back: &IndexedGraph,
    force: Claims,
    points: Endpoints,
) -> Option<FoundWalk>
    requires { count ≤ 256 }
    ensures { FirstWalk words.now count back.now force points.initials points.finals result }
{
    let Endpoints { initials, finals } = points;
    let both = intersection(initials, finals);
    if both != 0 {
        return Some(FoundWalk::staying(lowest(both)));
    }
    let mut layers = [0u64; STATES];
    let leg = lay(back, force, !0u64, initials, finals, &mut layers)?;
    Some(follow(words, count, back, force, &layers, leg))
}
