// What is written out, and where the writing stands.
ghost use Rattle.std.specs.Prelude.{ℕ, ◌≡◌, ◌≤◌, ◌<◌};
ghost use Rattle.tours.specs.declared.frames.Shape.TheVariants.{Tour};

use masks::Set;
use search::Claims;

// The walk from an initial to a final state, a tour of a set from a state, or the pieces of a set.
#[derive(Clone, Copy)]
pub enum Shape {
    Whole,
    Tour(u8),
    Pieces,
}

// Walks inside `set` with the claims in force, those about parts of it that opened before `round`. Pieces lead from one of `starts` to one
// of `ends`, and so does the whole walk.
#[derive(Clone, Copy)]
pub struct Frame {
    pub shape: Shape,
    pub set: Set,
    pub starts: Set,
    pub ends: Set,
    pub force: Claims,
    pub round: u8,
    pub ghost low: { (q : ℕ) → shape ≡ Tour q → q < 64 },
}

// The byte that stands before the next part, if one does; the state where that part starts; how many steps its leg has left, where none means `e`;
// the state where a leg of a tour ends; and the states whose legs come after it.
#[derive(Clone, Copy)]
pub struct Cursor {
    pub before: Option<u8>,
    pub state: u8,
    pub steps: usize,
    pub stop: u8,
    pub rest: Set,
    pub later: Set,
    pub ghost low: { state < 64 },
    pub ghost stop_low: { stop < 64 },
    pub ghost few: { steps ≤ 128 },
}
