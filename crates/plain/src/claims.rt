// Does a set loop, does it mix, by the steps of the table? Walks inside the set are 64 sets, the targets for each state.
use crate::reader::{Row, named};
use crate::sets::Set;
use crate::steps::Step;

type Links = [Set; 64];

// The steps inside `p`.
fn steps_inside(steps: &[Step], p: Set) -> Links {
    let mut links = [Set(0); 64];
    for step in steps {
        if step.content().is_inside(p) {
            if let Some(targets) = links.get_mut(usize::from(step.from)) {
                *targets = targets.with(step.to);
            }
        }
    }
    links
}

// Walks that go on at `middle`, from which those targets are reached.
fn close_through(links: &mut Links, middle: u8, on: Set) {
    for targets in links.iter_mut() {
        if targets.has(middle) {
            *targets = targets.or(on);
        }
    }
}

// Warshall's closure: from each state the targets of walks of one or more steps, all inside `p`.
fn close(links: &mut Links, p: Set) {
    for k in 0..64u8 {
        if p.has(k) {
            let on = links[usize::from(k)];
            close_through(links, k, on);
        }
    }
}

// Does every state of P lead to all of P?
fn is_linked(links: &Links, p: Set) -> bool {
    (0..64u8).all(|s| !p.has(s) || p.is_inside(links[usize::from(s)]))
}

// The states of P with a row P → s, or with a row s → P.
fn entrances(rows: &[Row], p: Set) -> Set {
    let named = named(rows, |row| match row {
        Row::Left(set, s) if set == p => Some(s),
        _ => None,
    });
    named.and(p)
}

fn exits(rows: &[Row], p: Set) -> Set {
    let named = named(rows, |row| match row {
        Row::Right(s, set) if set == p => Some(s),
        _ => None,
    });
    named.and(p)
}

// Does `s` lie on some piece of one or more steps, ends included? The exits are those that it leads to, itself among them.
fn is_on_piece(links: &Links, entrances: Set, exits: Set, s: u8) -> bool {
    let Some(beyond) = links.get(usize::from(s)) else {
        return false;
    };
    let ends = exits.and(beyond.with(s));
    (0..64u8).any(|e| {
        let targets = links[usize::from(e)];
        entrances.has(e) && !targets.and(ends).is_empty() && targets.with(e).has(s)
    })
}

// The states of P that lie on some piece of one or more steps.
fn on_pieces(links: &Links, p: Set, entrances: Set, exits: Set) -> Set {
    let mut found = Set(0);
    for s in 0..64u8 {
        if p.has(s) && is_on_piece(links, entrances, exits, s) {
            found = found.with(s);
        }
    }
    found
}

// What holds of a set, and whether it mixes only with its gaps.
#[derive(Clone, Copy)]
pub struct Claims {
    pub loops: bool,
    pub mixes: bool,
    pub by_gap: bool,
}

// P loops: walks inside P lead from each state of P to each. P mixes: every state of P lies on some piece, those of no steps among them,
// and some piece has a step. The gaps of P are entrances that are exits too, and are not struck.
pub fn of_set(rows: &[Row], steps: &[Step], struck: Set, p: Set) -> Claims {
    let mut links = steps_inside(steps, p);
    close(&mut links, p);
    let entrances = entrances(rows, p);
    let exits = exits(rows, p);
    let gaps = entrances.and(exits).without(struck);
    let on = on_pieces(&links, p, entrances, exits);
    let mixes = !on.is_empty() && p.is_inside(on.or(gaps));
    Claims {
        loops: is_linked(&links, p),
        mixes,
        by_gap: mixes && on != p,
    }
}
