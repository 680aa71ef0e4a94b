// Random automata. A tower of sets, each with a state more than the one before, and limits between a set and the state that is added
// next: so a set loops only after the one below it, and it takes rounds. Some states are added as gaps instead: then the set mixes, and
// loops by its mix one round later. States are counted from 0 here; `names` says which they are.
use crate::dice::{choice, next};
use crate::row_bytes::{Mark, Rows, has, with};

// A state of the set: the first of it from `s` on, round the 16 states.
fn member(set: u64, s: u64) -> u64 {
    (0..16u64)
        .map(|k| s.wrapping_add(k) % 16)
        .find(|t| has(set, *t))
        .unwrap_or(s % 16)
}

// One of four letters, the first and the last of all among them.
fn letter(word: u64, k: u64) -> u8 {
    match choice(word, k, 4) {
        0 => 0,
        1 => b'a',
        2 => b'b',
        _ => 255,
    }
}

// A set with its newest state, which came by set → state or, of the other side, by state → set; or as a gap.
#[derive(Clone, Copy)]
struct Floor {
    set: u64,
    state: u64,
    by_left: bool,
    as_gap: bool,
}

// The letter step that makes a set loop with its newest state.
fn put_return(rows: &mut Rows, word: u64, floor: Floor) {
    let t = member(floor.set, choice(word, 0, 16));
    let by = letter(word, 1);
    if floor.by_left {
        rows.put_step(floor.state, by, t);
    } else {
        rows.put_step(t, by, floor.state);
    }
}

// Sometimes an entrance and an exit, so that the set may mix.
fn put_gates(rows: &mut Rows, word: u64, floor: Floor) {
    if choice(word, 3, 3) == 0 {
        rows.put_limit(floor.set, floor.state, true);
        rows.put_limit(floor.set, member(floor.set, choice(word, 4, 16)), false);
    }
}

// What makes a set loop with its newest state, seldom left out, and what may make it mix; where that state came as a gap, nothing.
fn put_floor(rows: &mut Rows, word: u64, floor: Floor) {
    if floor.as_gap {
        return;
    }
    if choice(word, 2, odds(rows.names)) != 0 {
        put_return(rows, word, floor);
    }
    put_gates(rows, word, floor);
}

// One time in how many a floor is unlike the others: in half of the automata seldom, so that high towers stand.
fn odds(names: u64) -> u64 {
    if names >> 63 == 0 { 8 } else { 200 }
}

// The state above or below, round the states.
fn beside(states: u64, s: u64, upwards: bool) -> u64 {
    if upwards {
        let t = s.wrapping_add(1);
        return if t < states { t } else { 0 };
    }
    if s > 0 { s - 1 } else { states.wrapping_sub(1) }
}

// The state to add next: mostly the next in the round of the states, else any.
fn new_state(word: u64, states: u64, s: u64, names: u64) -> u64 {
    if choice(word, 5, odds(names)) == 0 {
        return choice(word, 6, states);
    }
    beside(states, s, true)
}

// The set with its new state, or seldom a new tower on that state alone.
fn grown(word: u64, set: u64, s: u64, names: u64) -> u64 {
    if choice(word, 0, odds(names)) == 0 {
        with(0, s)
    } else {
        with(set, s)
    }
}

// The rows of a gap: s → set and set → s, seldom the second alone.
fn put_gap(rows: &mut Rows, word: u64, set: u64, s: u64) {
    rows.put_limit(set, s, true);
    if choice(word, 1, 8) != 0 {
        rows.put_limit(set, s, false);
    }
}

// Does the new state come as a gap?
fn comes_as_gap(word: u64) -> bool {
    choice(word, 0, 5) == 0
}

// Joins the state `s` to the set by a limit; or as a gap, with one more gap at a state that the set has.
fn put_join(rows: &mut Rows, word: u64, set: u64, s: u64, by_left: bool) {
    if comes_as_gap(word) {
        let whole = with(set, s);
        put_gap(rows, word, whole, s);
        put_gap(rows, next(word), whole, member(set, choice(word, 2, 16)));
    } else {
        rows.put_limit(set, s, by_left);
    }
}

// The rows of towers with this many floors, from the state `first` on; mostly all limits have the same side. Answers the state that was
// added last.
fn put_towers(
    rows: &mut Rows,
    start: u64,
    states: u64,
    first: u64,
    floors: u64,
    by_left: bool,
) -> u64 {
    let names = rows.names;
    let mut word = start;
    let mut floor = Floor {
        set: with(0, first),
        state: first,
        by_left,
        as_gap: false,
    };
    for _ in 0..floors {
        put_floor(rows, word, floor);
        let state = new_state(word, states, floor.state, names);
        let side = by_left == (choice(word, 7, odds(names)) != 0);
        let gap_word = next(word ^ 6);
        put_join(rows, gap_word, floor.set, state, side);
        word = next(word);
        floor = Floor {
            set: grown(word, floor.set, state, names),
            state,
            by_left: side,
            as_gap: comes_as_gap(gap_word),
        };
    }
    floor.state
}

// A path of letter steps from the state `first` on, upwards or downwards. Answers its last state.
fn put_path(
    rows: &mut Rows,
    start: u64,
    states: u64,
    first: u64,
    upwards: bool,
    steps: u64,
) -> u64 {
    let mut word = start;
    let mut s = first;
    for _ in 0..steps {
        let t = beside(states, s, upwards);
        rows.put_step(s, letter(word, 2), t);
        s = t;
        word = next(word);
    }
    s
}

// An initial and a final state, the ends of the construction, and sometimes any two more.
fn put_marks(rows: &mut Rows, word: u64, states: u64, from: u64, to: u64) {
    rows.put_mark(Mark::Initial, from);
    rows.put_mark(Mark::Final, to);
    if choice(word, 0, 6) == 0 {
        rows.put_mark(Mark::Initial, choice(word, 1, states));
        rows.put_mark(Mark::Final, choice(word, 2, states));
    }
}

// How many states are struck: in a third of the automata one to three.
fn strikes(word: u64) -> u64 {
    if choice(word, 0, 3) == 0 {
        return choice(word, 1, 3).wrapping_add(1);
    }
    0
}

// The rows that strike states.
fn put_strikes(rows: &mut Rows, start: u64, states: u64) {
    let mut word = start;
    for _ in 0..strikes(start) {
        rows.put_mark(Mark::Struck, choice(word, 2, states));
        word = next(word);
    }
}

// A path of fewer than `room` steps from `middle` to a final state, the marks, and what is struck.
fn put_end(
    rows: &mut Rows,
    word: u64,
    states: u64,
    from: u64,
    middle: u64,
    upwards: bool,
    room: u64,
) {
    let last = put_path(
        rows,
        next(word ^ 1),
        states,
        middle,
        upwards,
        choice(word, 4, room),
    );
    put_marks(rows, next(word ^ 2), states, from, last);
    put_strikes(rows, next(word ^ 4), states);
}

// Writes the batch of an automaton and answers its length: 3 to 16 states, fewer floors, at most 30 sets and 60 + 15 + 4 + 3 rows.
pub fn automaton(word: u64, batch: &mut [u8]) -> usize {
    let mut rows = Rows::new(batch, next(word ^ 3));
    let states = choice(word, 0, 14).wrapping_add(3);
    let floors = choice(word, 3, states.wrapping_sub(1)).wrapping_add(1);
    let first = choice(word, 1, states);
    let by_left = choice(word, 2, 2) == 0;
    let last = put_towers(&mut rows, next(word), states, first, floors, by_left);
    // Few enough steps that the path does not come round to the tower again.
    let room = states.wrapping_sub(floors);
    // Limits of the one side lead up the tower, those of the other down.
    if by_left {
        put_end(&mut rows, word, states, first, last, true, room);
    } else {
        put_end(&mut rows, word, states, last, first, false, room);
    }
    rows.length
}
