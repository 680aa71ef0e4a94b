// The parts of an expression, one after another: the steps of the walk, of a tour of a set, or of the pieces of a set, and what stands before each.
#![tactic(auto)]

pub mod frames;
pub mod legs;

ghost use Rattle.std.specs.Prelude.{◌≡◌, ℕ, ◌+◌, ◌*◌, ◌≤◌, ◌<◌, ◌↔◌, Some, IfSome};
ghost use Rattle.masks.specs.Mask.{◌∈◌};
ghost use Rattle.tours.specs.declared.frames.Frame.{Frame};
ghost use Rattle.tours.specs.Parts.{separator};
ghost use Rattle.tours.specs.Cursors.{size_of, Begins, Advances, ShowsPart};
ghost use Rattle.tours.specs.Coming.{LaysLegOf, Comes};

pub use crate::frames::{Cursor, Frame, Shape};
use crate::legs::LAYERS;
use machine::Step;
use masks::{Set, below, difference, take_lowest};
use search::{Claims, IndexedGraph, MaskGraph};
use walks::{Leg, Letters};

// The states of `m` above `s`.
fn above(m: Set, s: u8) -> Set
    requires { s < 64 }
    ensures { (t : ℕ) → (t ∈ result) ↔ ((t ∈ m) × (s < t)) }
{
    difference(m, below(s as usize + 1))
}

// The leg of the state `s`: of a tour, from `state` to it; of pieces, the one for it.
fn leg_of(back: &IndexedGraph, frame: Frame, state: u8, s: u8, layers: &mut [Set; LAYERS]) -> Leg
    requires { (state < 64) × (s < 64) }
    ensures { LaysLegOf back.now frame state s layers.new result }
{
    match frame.shape {
        Shape::Whole => legs::whole(back, frame, layers),
        Shape::Tour(_) => legs::between(back, frame, state, s, layers),
        Shape::Pieces => legs::piece(back, frame, s, layers),
    }
}

// At the first part of the leg of the lowest state of `rest`.
fn lead(
    back: &IndexedGraph,
    frame: Frame,
    before: Option<u8>,
    state: u8,
    rest: Set,
    later: Set,
    layers: &mut [Set; LAYERS],
) -> Cursor
    requires { (0 < rest) × (state < 64) }
    ensures fewer { size_of (Some result) ≤ (rest + later) * 130 }
    ensures comes { Comes back.now frame before state rest later layers.new (Some result) }
{
    let next = take_lowest(rest);
    let leg = leg_of(back, frame, state, next.low, layers);
    Cursor {
        before,
        state: leg.start,
        steps: leg.steps,
        stop: next.low,
        rest: next.rest,
        later,
    }
}

// At the first part of the leg of the lowest state of `rest`, or where there is none of `later`; or none is left.
fn onward(
    back: &IndexedGraph,
    frame: Frame,
    before: Option<u8>,
    state: u8,
    rest: Set,
    later: Set,
    layers: &mut [Set; LAYERS],
) -> Option<Cursor>
    requires { state < 64 }
    ensures fewer { size_of result ≤ (rest + later) * 130 }
    ensures comes { Comes back.now frame before state rest later layers.new result }
{
    if rest != 0 {
        return Some(lead(back, frame, before, state, rest, later, layers));
    }
    if later != 0 {
        return Some(lead(back, frame, before, state, later, 0, layers));
    }
    None
}

// At the first part of all.
pub fn begin(back: &IndexedGraph, frame: Frame, layers: &mut [Set; LAYERS]) -> Option<Cursor>
    ensures { Begins back.now frame layers.new result }
{
    match frame.shape {
        // One leg, by whatever state.
        Shape::Whole => Some(lead(back, frame, None, 0, 1, 0, layers)),
        Shape::Tour(q) => {
            let higher = above(frame.set, q);
            let others = difference(frame.set, higher);
            onward(back, frame, None, q, higher, others, layers)
        }
        Shape::Pieces => onward(back, frame, None, 0, frame.set, 0, layers),
    }
}

// The byte between two legs.
fn between_legs(shape: Shape) -> u8
    ensures { result ≡ separator shape }
{
    match shape {
        Shape::Whole | Shape::Tour(_) => b'.',
        Shape::Pieces => b',',
    }
}

// At the next part, where the last one led to `to`. Put into its callers, so that a cursor need not go through memory.
#[inline(always)]
pub fn advance(
    back: &IndexedGraph,
    frame: Frame,
    cursor: Cursor,
    to: u8,
    layers: &mut [Set; LAYERS],
) -> Option<Cursor>
    requires { to < 64 }
    ensures fewer { size_of result < size_of (Some cursor) }
    ensures advances { Advances back.now frame layers.old cursor to layers.new result }
{
    if 1 < cursor.steps {
        return Some(Cursor {
            before: Some(b'.'),
            state: to,
            steps: cursor.steps - 1,
            stop: cursor.stop,
            rest: cursor.rest,
            later: cursor.later,
        });
    }
    let before = Some(between_legs(frame.shape));
    onward(
        back,
        frame,
        before,
        cursor.stop,
        cursor.rest,
        cursor.later,
        layers,
    )
}

// The step at the cursor: the first one into the next layer. There is none where the leg has no steps. Of the frame only its claims are read.
#[inline(always)]
pub fn step_at(
    letters: &Letters,
    back: &MaskGraph,
    force: Claims,
    cursor: Cursor,
    layers: &[Set; LAYERS],
) -> Option<Step>
    ensures low { IfSome result (λ t. t.to < 64) }
    ensures shows { (frame : Frame) → frame.force ≡ force
        → ShowsPart letters.now.words.now letters.now.count back.now frame layers.now cursor result }
{
    let k = cursor.steps.checked_sub(1)?;
    letters.first_step(back, force, cursor.state, layers[k])
}
