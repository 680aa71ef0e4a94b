// Sets of states as masks, and graphs on the states.
#![tactic(auto)]

ghost use Rattle.std.specs.Prelude.{◌≡◌, not, ◌&&◌, ◌||◌, ◌↔◌, ℕ, ◌+◌, ◌*◌, ◌%◌, ◌≤◌, ◌<◌, eqb, length};
ghost use Rattle.std.specs.Int.Count.{ones};
ghost use Rattle.lists.specs.Tests.{Decides};
ghost use Rattle.masks.specs.Blocks.{Width, LowerPlaces, LowMask, HighMask, RowsExchanged, BlocksExchanged, FirstMasks};
ghost use Rattle.masks.specs.Graph.{Targets, SourceAdded, Turned};
ghost use Rattle.std.specs.Iterator.{at_most};
ghost use Rattle.masks.specs.Passing.{GivesLowest};
ghost use Rattle.masks.specs.Mask.{member, ◌∈◌, ◌⊆◌, TakesLowest};

// How many states there may be, and the first number that is none.
pub const STATES: usize = 64;

pub const NO_STATE: u8 = 64;

// A set of states: bit s says whether state s is in it.
pub type Set = u64;

// As many places as a mask has; a set of places of a list of sets.
pub const PLACES: usize = 64;

pub type Places = u64;

// Is state `s` in the set `m`?
pub fn has(m: Set, s: u8) -> bool
    requires { s < 64 }
    ensures { result ≡ member s m }
{
    (m >> s) & 1 == 1
}

// The states of `m`, and `s`.
pub fn with(m: Set, s: u8) -> Set
    requires { s < 64 }
    ensures { (t : ℕ) → member t result ≡ (member t m || eqb t s) }
{
    m | (1u64 << s)
}

// The states of `a` or of `b`.
pub fn union(a: Set, b: Set) -> Set
    ensures { (t : ℕ) → member t result ≡ (member t a || member t b) }
{
    a | b
}

// The states of both `a` and `b`.
pub fn intersection(a: Set, b: Set) -> Set
    ensures { (t : ℕ) → member t result ≡ (member t a && member t b) }
{
    a & b
}

// The states of `a` that are not in `b`.
pub fn difference(a: Set, b: Set) -> Set
    ensures { (t : ℕ) → member t result ≡ (member t a && not (member t b)) }
{
    a & !b
}

// Is every state of `a` in `b`?
pub fn is_subset(a: Set, b: Set) -> bool
    ensures { Decides result (a ⊆ b) }
{
    difference(a, b) == 0
}

// Do `a` and `b` have a state in common?
pub fn meets(a: Set, b: Set) -> bool
    ensures { Decides result ((t : ℕ) × (t ∈ a) × (t ∈ b)) }
{
    intersection(a, b) != 0
}

// The states below `n`.
pub fn below(n: usize) -> Set
    requires { n ≤ 64 }
    ensures { (t : ℕ) → (t ∈ result) ↔ (t < n) }
{
    if n == STATES {
        return !0u64;
    }
    (1u64 << n) - 1
}

// How many states `m` has.
pub fn size(m: Set) -> usize
    ensures is { result ≡ ones m }
    ensures most { result ≤ 64 }
{
    u64::count_ones(m) as usize
}

// The lowest state of `m`, which is not empty.
pub fn lowest(m: Set) -> u8
    requires { 0 < m }
    ensures is { result ∈ m }
    ensures least { (t : ℕ) → t ∈ m → result ≤ t }
{
    u64::trailing_zeros(m) as u8
}

// The lowest state of a set, and the others.
#[derive(Clone, Copy)]
pub struct Taken {
    pub low: u8,
    pub rest: Set,
}

// Takes the lowest state out of `m`, which is not empty.
pub fn take_lowest(m: Set) -> Taken
    requires { 0 < m }
    ensures { TakesLowest m result.low result.rest }
{
    Taken {
        low: lowest(m),
        rest: intersection(m, m - 1),
    }
}

// The states of a set that a loop has still to pass, the lowest first.
#[derive(Drop)]
pub struct Members {
    pub rest: Set,
}

// The states of `m`, the lowest first.
pub fn each(m: Set) -> Members
    ensures { result.rest ≡ m }
{
    Members { rest: m }
}

impl Iterator for Members {
    type Item = u8;

    ghost next_gives = { GivesLowest };

    ghost remaining = { λ s. at_most (ones s.rest) };

    fn next(&mut self) -> Option<u8> {
        if self.rest == 0 {
            return None;
        }
        let next = take_lowest(self.rest);
        self.rest = next.rest;
        Some(next.low)
    }
}

// The targets of all the states of `m`. What stands in `succ` past the 64 states is not read.
pub fn targets(succ: &[Set], m: Set) -> Set
    requires { 64 ≤ length succ.now }
    ensures { Targets succ.now m result }
{
    let mut r: Set = 0;
    for s in each(m) {
        r = union(r, succ[s as usize]);
    }
    r
}

// Adds `i` to the masks at the places of `m`.
fn add_source(back: &mut [Set; STATES], m: Set, i: u8)
    requires { i < 64 }
    ensures { SourceAdded back.old m i back.new }
{
    for s in each(m) {
        let at = s as usize;
        back[at] = with(back[at], i);
    }
}

// The graph with every edge turned round. What stands in `succ` past the 64 states is not read.
pub fn transpose(succ: &[Set]) -> [Set; STATES]
    requires { 64 ≤ length succ.now }
    ensures { Turned succ.now result }
{
    let mut back = [0u64; STATES];
    for i in 0..NO_STATE {
        add_source(&mut back, succ[i as usize], i);
    }
    back
}

// `b` and `lower` go on as two numbers: a ghost field that says `Width b` would need a proof that all its proofs are one.
// The mask `low` with the lower blocks of `high` for its upper ones; `lower` has the places of lower blocks of `b` places.
fn low_mask(low: Set, high: Set, b: usize, lower: Set) -> Set
    requires { Width b × LowerPlaces b lower }
    ensures { LowMask b low high result }
{
    (low & lower) | ((high & lower) << b)
}

// The mask `high` with the upper blocks of `low` for its lower ones.
fn high_mask(low: Set, high: Set, b: usize, lower: Set) -> Set
    requires { Width b × LowerPlaces b lower }
    ensures { HighMask b low high result }
{
    ((low >> b) & lower) | (high & !lower)
}

// Exchanges blocks of `b` places between the `b` masks from `g` on and the next `b`.
fn exchange_rows(m: &mut [Set; STATES], g: usize, b: usize, lower: Set)
    requires { Width b × LowerPlaces b lower × (g % (2 * b) ≡ 0) × (g + 2 * b ≤ 64) }
    ensures { RowsExchanged b g m.old m.new }
{
    for i in 0..b {
        let low = m[g + i];
        let high = m[g + b + i];
        m[g + i] = low_mask(low, high, b, lower);
        m[g + b + i] = high_mask(low, high, b, lower);
    }
}

// Exchanges blocks of `b` places between all masks.
fn exchange_blocks(m: &mut [Set; STATES], b: usize, lower: Set)
    requires { Width b × LowerPlaces b lower }
    ensures { BlocksExchanged b m.old m.new }
{
    for g in (0..STATES).step_by(2 * b) {
        exchange_rows(m, g, b, lower);
    }
}

// The first 64 masks.
fn first_masks(succ: &[Set]) -> [Set; STATES]
    requires { 64 ≤ length succ.now }
    ensures { FirstMasks succ.now result }
{
    let mut m = [0u64; STATES];
    lists::write_over(&mut m, &succ[..STATES]);
    m
}

// As `transpose`, in a time that does not depend on how many edges there are: block by block, by halves.
pub fn transpose_dense(succ: &[Set]) -> [Set; STATES]
    requires { 64 ≤ length succ.now }
    ensures { Turned succ.now result }
{
    let mut m = first_masks(succ);
    exchange_blocks(&mut m, 32, 0x00000000FFFFFFFF);
    exchange_blocks(&mut m, 16, 0x0000FFFF0000FFFF);
    exchange_blocks(&mut m, 8, 0x00FF00FF00FF00FF);
    exchange_blocks(&mut m, 4, 0x0F0F0F0F0F0F0F0F);
    exchange_blocks(&mut m, 2, 0x3333333333333333);
    exchange_blocks(&mut m, 1, 0x5555555555555555);
    m
}
