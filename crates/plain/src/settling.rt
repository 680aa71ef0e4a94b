// The rounds, until the verdict.
use crate::list::List;
use crate::reader::{Row, Rows, named};
use crate::sets::Set;
use crate::steps::{Step, Steps, of_automaton};
use crate::{claims, walk};

// A set, and the rounds in which its claims opened.
#[derive(Clone, Copy)]
pub struct Tested {
    pub set: Set,
    pub looped: Option<u64>,
    pub mixed: Option<u64>,
}

// The rows, their sets, rising, and the states that are struck.
#[derive(Drop)]
pub struct Automaton {
    pub rows: Rows,
    pub sets: List<Tested, 32>,
    pub struck: Set,
}

impl Automaton {
    // The set with the rounds of its claims, where there is room for it.
    pub fn tested(&self, set: Set) -> Option<Tested> {
        self.sets.as_slice().iter().find(|t| t.set == set).copied()
    }
}

fn untested(set: Set) -> Tested {
    Tested {
        set,
        looped: None,
        mixed: None,
    }
}

// Puts a set in its place among the sets, which rise; a set that is there already changes nothing.
fn keep_set(sets: &mut List<Tested, 32>, set: Set) {
    let mut carried = set;
    for t in sets.as_mut_slice().iter_mut() {
        if t.set == carried {
            return;
        }
        if carried < t.set {
            let here = t.set;
            t.set = carried;
            carried = here;
        }
    }
    sets.push(untested(carried));
}

fn automaton_of(rows: Rows) -> Automaton {
    let mut sets = List::new(untested(Set(0)));
    for row in rows.as_slice() {
        if let Some(set) = row.set() {
            keep_set(&mut sets, set);
        }
    }
    let struck = named(rows.as_slice(), |row| match row {
        Row::Struck(s) => Some(s),
        _ => None,
    });
    Automaton { rows, sets, struck }
}

// What a round did: whether it opened anything, and whether a set mixed only with its gaps.
#[derive(Clone, Copy)]
struct Opened {
    any: bool,
    by_gap: bool,
}

// Tests the claims of a set that are not open yet.
fn test_set(t: &mut Tested, rows: &[Row], steps: &[Step], struck: Set, k: u64) -> Opened {
    let looped = t.looped;
    let mixed = t.mixed;
    if looped.is_some() && mixed.is_some() {
        return Opened {
            any: false,
            by_gap: false,
        };
    }
    let claims = claims::of_set(rows, steps, struck, t.set);
    let loops = looped.is_none() && claims.loops;
    let mixes = mixed.is_none() && claims.mixes;
    if loops {
        t.looped = Some(k);
    }
    if mixes {
        t.mixed = Some(k);
    }
    Opened {
        any: loops || mixes,
        by_gap: mixes && claims.by_gap,
    }
}

// One round: the steps are those from before it, so its openings do not help each other.
fn round(automaton: &mut Automaton, steps: &[Step], k: u64) -> Opened {
    let mut any = false;
    let mut by_gap = false;
    for t in automaton.sets.as_mut_slice().iter_mut() {
        let opened = test_set(t, automaton.rows.as_slice(), steps, automaton.struck, k);
        any |= opened.any;
        by_gap |= opened.by_gap;
    }
    Opened { any, by_gap }
}

// The automaton once its rounds are done, with the steps of then; the length of a shortest walk where it is non-empty; and whether a set mixed
// only with its gaps, and whether struck states took a step away.
#[derive(Drop)]
pub struct Settled {
    pub automaton: Automaton,
    pub steps: Steps,
    pub walk_length: Option<usize>,
    pub rounds: u64,
    pub by_gap: bool,
    pub by_strike: bool,
}

// Rounds until settled: 32 sets have 64 claims, so 65 are enough.
pub fn settle(rows: Rows) -> Settled {
    let mut automaton = automaton_of(rows);
    let mut steps = of_automaton(&automaton);
    let mut walk_length = walk::length(&automaton, steps.as_slice());
    let mut by_gap = false;
    let mut by_strike = steps.by_strike;
    let mut rounds = 0;
    for k in 1..=65u64 {
        if walk_length.is_some() {
            break;
        }
        let opened = round(&mut automaton, steps.as_slice(), k);
        rounds = k;
        by_gap |= opened.by_gap;
        if !opened.any {
            break;
        }
        steps = of_automaton(&automaton);
        by_strike |= steps.by_strike;
        walk_length = walk::length(&automaton, steps.as_slice());
    }
    Settled {
        automaton,
        steps,
        walk_length,
        rounds,
        by_gap,
        by_strike,
    }
}
