// The rows of a Büchi automaton of at most six states as a batch, from its masks.
#![tactic(auto)]

ghost use Rattle.std.specs.Prelude.{◌≤◌};
ghost use Rattle.rows.specs.Rows.{batch_of};
ghost use Rattle.machine.specs.Calls.{TellsText};
ghost use Rattle.buchi_rows.specs.Writing.{edge_rows, limit_rows, masked_rows};

use causes::Cause;
use machine::{Answer, Refusal, Success};
use masks::Set;
use rows::Row;
use texts::{Text, Written};

// The state that every limit leads to, and the only final one.
const FINAL_STATE: u8 = 6;

// The 36 places that the edges of six states have.
const ALL_EDGES: Set = (1 << 36) - 1;

// The longest batch: the initial and the final state, all edges, and all 63 sets.
pub const LONGEST: usize = 2 + 2 + 36 * 4 + 63 * 10;

// An automaton of at most six states: how many they are, the start, the marked states, and the edges, that from p to q at place 6 p + q.
#[derive(Clone, Copy)]
pub struct BuchiMasks {
    pub states: u8,
    pub start: u8,
    pub marked: Set,
    pub edges: Set,
    pub ghost at_most_six: { states ≤ 6 },
}

// The rows of the edges.
#[derive(Clone, Copy)]
struct Edges(Set);

impl Written for Edges {
    ghost text_of = { λ edges. batch_of (edge_rows edges.0) };

    fn put(&self, buf: &mut [u8]) -> usize {
        let mut next = 0;
        for place in masks::each(masks::intersection(self.0, ALL_EDGES)) {
            next = Row::Successor(place / 6, 0, place % 6).put_at(buf, next);
        }
        next
    }
}

// The rows of the sets that hold a marked state.
#[derive(Clone, Copy)]
struct Limits(BuchiMasks);

impl Written for Limits {
    ghost text_of = { λ limits. batch_of (limit_rows limits.0.states limits.0.marked) };

    fn put(&self, buf: &mut [u8]) -> usize {
        let mut next = 0;
        // Counted as bytes, so that the bytes of a set that are 0 are written as such.
        for low in 1..1u8 << self.0.states {
            let set = low as Set;
            if masks::meets(set, self.0.marked) {
                next = Row::LeftLimit(set, FINAL_STATE).put_at(buf, next);
            }
        }
        next
    }
}

// All rows in their order.
impl Written for BuchiMasks {
    ghost text_of = { λ a. batch_of (masked_rows a.states a.start a.marked a.edges) };

    fn put(&self, buf: &mut [u8]) -> usize {
        let edges_and_limits = (Edges(self.edges), Limits(*self));
        (
            Row::Initial(self.start),
            (Row::Final(FINAL_STATE), edges_and_limits),
        )
            .put(buf)
    }
}

// The rows into the buffer; nothing where it is too short.
pub fn write(batch: &mut [u8], automaton: &BuchiMasks) -> Answer
    ensures { TellsText (batch_of (masked_rows automaton.now.states automaton.now.start automaton.now.marked automaton.now.edges))
        batch.old batch.new result }
{
    // Any batch fits: no array in between.
    if LONGEST <= batch.len() {
        return Ok(Success::Wrote(automaton.put(batch)));
    }
    let mut rows = [0u8; LONGEST];
    let length = automaton.put(&mut rows);
    if batch.len() < length {
        return Err(Refusal {
            cause: Cause::ShortBuffer,
            place: 0,
        });
    }
    Ok(Success::Wrote(Text(&rows[..length]).put(batch)))
}
