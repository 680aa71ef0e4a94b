// The states from which so many steps lead to a final state, and the walk of a sheet.
use crate::reader::{Row, named};
use crate::sets::Set;
use crate::settling::{Automaton, Settled};
use crate::steps::{By, Step};
use crate::text::Text;
use std::fmt;
use std::fmt::Write;

// The initial states that are not struck.
fn initial(automaton: &Automaton) -> Set {
    let named = named(automaton.rows.as_slice(), |row| match row {
        Row::Initial(s) => Some(s),
        _ => None,
    });
    named.without(automaton.struck)
}

// The final states that are not struck.
fn last(automaton: &Automaton) -> Set {
    let named = named(automaton.rows.as_slice(), |row| match row {
        Row::Final(s) => Some(s),
        _ => None,
    });
    named.without(automaton.struck)
}

// The states of `near`, and those from which a step leads into it.
fn one_step_more(steps: &[Step], near: Set) -> Set {
    let mut found = near;
    for step in steps {
        if near.has(step.to) {
            found = found.with(step.from);
        }
    }
    found
}

// The states from which at most `k` steps lead to a final state.
fn near(automaton: &Automaton, steps: &[Step], k: usize) -> Set {
    let mut found = last(automaton);
    for _ in 0..k {
        found = one_step_more(steps, found);
    }
    found
}

// The least number of steps from an initial to a final state. A shortest walk meets no state twice.
pub fn length(automaton: &Automaton, steps: &[Step]) -> Option<usize> {
    let initial = initial(automaton);
    let mut found = last(automaton);
    for k in 0..64usize {
        if !found.and(initial).is_empty() {
            return Some(k);
        }
        let more = one_step_more(steps, found);
        if more == found {
            return None;
        }
        found = more;
    }
    None
}

// Does one step come before another of the same state: by kind, then letter or set, then target?
fn is_before(a: Step, b: Step) -> bool {
    a.by < b.by || (a.by == b.by && a.to < b.to)
}

// The first step from `s` into `near`.
fn first_step(steps: &[Step], s: u8, near: Set) -> Option<Step> {
    let mut best: Option<Step> = None;
    for step in steps {
        if step.from == s && near.has(step.to) && best.is_none_or(|b| is_before(*step, b)) {
            best = Some(*step);
        }
    }
    best
}

fn put_step(step: Step, text: &mut Text) -> fmt::Result {
    let to = step.to;
    match step.by {
        By::Letter(letter) => writeln!(text, "step letter {letter} to {to}"),
        By::Omega(set) => writeln!(text, "step omega {set} to {to}"),
        By::Back(set) => writeln!(text, "step back {set} to {to}"),
        By::Mix(set) => writeln!(text, "step mix {set} to {to}"),
    }
}

// The lines of the first shortest walk from an initial to a final state, none where there is no walk.
pub fn put_walk(settled: &Settled, text: &mut Text) -> fmt::Result {
    let Some(count) = settled.walk_length else {
        return Ok(());
    };
    let automaton = &settled.automaton;
    let steps = settled.steps.as_slice();
    let starts = near(automaton, steps, count).and(initial(automaton));
    let Some(start) = starts.lowest() else {
        return Ok(());
    };
    writeln!(text, "start {start}")?;
    let mut s = start;
    for left in (0..count).rev() {
        let Some(step) = first_step(steps, s, near(automaton, steps, left)) else {
            return Ok(());
        };
        put_step(step, text)?;
        s = step.to;
    }
    Ok(())
}
