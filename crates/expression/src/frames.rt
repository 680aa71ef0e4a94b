// What is written out for the walk and for each claim, and with which claims.
ghost use Rattle.std.specs.Prelude.{◌≡◌, ℕ, ◌≤◌, ◌<◌, length, IfSome};
ghost use Rattle.tours.specs.declared.frames.Shape.TheVariants.{Tour, Pieces};
ghost use Rattle.expression.specs.Frames.{OpenedBefore, SetFrame, FindsSet, WalkFrame, LimitFrame, StepFrame, PlaceFrame};

use machine::{MOST_ROUNDS, Step, StepLabel};
use masks::{PLACES, Places, Set, intersection, lowest, with};
use search::{Claims, Endpoints, MaskGraph};
use tours::{Frame, Shape};

// The loop and the mix of each set.
pub const CLAIMS: usize = PLACES + PLACES;

// The rounds that opened the claims: of the loop of the set at place `i` at `i`, of its mix at 64 + `i`; 0 for not open.
pub type Opened = [u8; CLAIMS];

// The walk is written out with the claims of all rounds.
const AFTER_ALL: u8 = MOST_ROUNDS + 1;

// The places whose round, from `base` on, is not 0 and is before `round`.
fn opened_before(opened: &Opened, base: usize, set_count: usize, round: u8) -> Places
    requires { (base ≤ 64) × (set_count ≤ 64) }
    ensures { OpenedBefore opened.now base set_count round result }
{
    let mut r: Places = 0;
    for i in 0..set_count {
        let k = opened[base + i];
        if 0 < k && k < round {
            r = with(r, i as u8);
        }
    }
    r
}

// The claims opened before the round.
fn earlier(opened: &Opened, set_count: usize, round: u8) -> Claims
    requires { set_count ≤ 64 }
    ensures loops { OpenedBefore opened.now 0 set_count round result.loops }
    ensures mixes { OpenedBefore opened.now 64 set_count round result.mixes }
{
    let loops = opened_before(opened, 0, set_count, round);
    let mixes = opened_before(opened, PLACES, set_count, round);
    Claims { loops, mixes }
}

// The walk from an initial to a final state.
pub fn of_walk(opened: &Opened, set_count: usize, points: Endpoints) -> Frame
    requires { set_count ≤ 64 }
    ensures { WalkFrame set_count opened.now points.initials points.finals result }
{
    let force = earlier(opened, set_count, AFTER_ALL);
    Frame {
        shape: Shape::Whole,
        set: !0u64,
        starts: points.initials,
        ends: points.finals,
        force,
        round: AFTER_ALL,
    }
}

// The set at place `i`, toured or in pieces, with the claims opened before the round. The graph is turned round: its rights are the lefts.
fn of_set(
    back: &MaskGraph,
    opened: &Opened,
    set_count: usize,
    shape: Shape,
    i: usize,
    round: u8,
) -> Frame
    requires { (set_count ≤ 64) × (i < 64) × ((q : ℕ) → shape ≡ Tour q → q < 64) }
    ensures { SetFrame back.now set_count opened.now shape i round result }
{
    let p = back.set_at(i);
    let before = earlier(opened, set_count, round);
    let force = back.inner(before, p);
    Frame {
        shape,
        set: p,
        starts: intersection(back.rights_at(i), p),
        ends: intersection(back.lefts_at(i), p),
        force,
        round,
    }
}

// The place of a set among the first `set_count` of those of a graph.
pub fn place_of(sets: &[Set], set_count: usize, p: Set) -> Option<usize>
    requires { (set_count ≤ 64) × (set_count ≤ length sets.now) }
    ensures low { IfSome result (λ i. i < 64) }
    ensures finds { FindsSet sets.now set_count p result }
{
    match sets[..set_count].binary_search(&p) {
        Ok(i) => Some(i),
        Err(_) => None,
    }
}

// The claim that a set loops, toured from the state `q`.
fn of_loop(back: &MaskGraph, opened: &Opened, set_count: usize, p: Set, q: u8) -> Option<Frame>
    requires { (set_count ≤ 64) × (q < 64) }
    ensures { LimitFrame back.now set_count opened.now (Tour q) p result }
{
    let i = place_of(back.sets(), set_count, p)?;
    Some(of_set(back, opened, set_count, Shape::Tour(q), i, opened[i]))
}

// The claim that a set mixes, in its pieces.
fn of_mix(back: &MaskGraph, opened: &Opened, set_count: usize, p: Set) -> Option<Frame>
    requires { set_count ≤ 64 }
    ensures { LimitFrame back.now set_count opened.now Pieces p result }
{
    let i = place_of(back.sets(), set_count, p)?;
    Some(of_set(
        back,
        opened,
        set_count,
        Shape::Pieces,
        i,
        opened[PLACES + i],
    ))
}

// The claim of a step from `a`: a tour from where an omega step starts or a back step ends, or pieces. A letter, or no step, has none.
pub fn of_step(
    back: &MaskGraph,
    opened: &Opened,
    set_count: usize,
    a: u8,
    step: Option<Step>,
) -> Option<Frame>
    requires { (set_count ≤ 64) × (a < 64) × IfSome step (λ t. t.to < 64) }
    ensures { StepFrame back.now set_count opened.now a step result }
{
    let step = step?;
    match step.label {
        StepLabel::Letter(_) => None,
        StepLabel::Omega(p) => of_loop(back, opened, set_count, p, a),
        StepLabel::Back(p) => of_loop(back, opened, set_count, p, step.to),
        StepLabel::Mix(p) => of_mix(back, opened, set_count, p),
    }
}

// The claim at a place of the array: a tour, from the lowest state, or pieces.
pub fn of_place(back: &MaskGraph, opened: &Opened, set_count: usize, slot: usize) -> Option<Frame>
    requires { (set_count ≤ 64) × (slot < 128) }
    ensures { PlaceFrame back.now set_count opened.now slot result }
{
    let round = opened[slot];
    if PLACES <= slot {
        return Some(of_set(back, opened, set_count, Shape::Pieces, slot - PLACES, round));
    }
    let p = back.set_at(slot);
    if p == 0 {
        return None;
    }
    Some(of_set(back, opened, set_count, Shape::Tour(lowest(p)), slot, round))
}
