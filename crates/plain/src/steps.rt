// The steps that the rows and the open claims allow.
use crate::list::List;
use crate::reader::Row;
use crate::sets::Set;
use crate::settling::Automaton;

// How a step goes, in the order of the steps of a state.
#[derive(Clone, Copy, PartialEq, Eq, PartialOrd, Ord)]
pub enum By {
    Letter(u8),
    Omega(Set),
    Back(Set),
    Mix(Set),
}

#[derive(Clone, Copy)]
pub struct Step {
    pub by: By,
    pub from: u8,
    pub to: u8,
}

impl Step {
    // Its ends and, unless it is a letter step, its set.
    pub fn content(self) -> Set {
        let ends = Set(0).with(self.from).with(self.to);
        match self.by {
            By::Letter(_) => ends,
            By::Omega(set) | By::Back(set) | By::Mix(set) => set.or(ends),
        }
    }
}

// The most steps.
const STEPS: usize = 1020;

// The steps, and whether struck states took one away.
#[derive(Drop)]
pub struct Steps {
    list: List<Step, STEPS>,
    pub by_strike: bool,
}

impl Steps {
    fn new() -> Steps {
        let blank = Step {
            by: By::Letter(0),
            from: 0,
            to: 0,
        };
        Steps {
            list: List::new(blank),
            by_strike: false,
        }
    }

    pub fn as_slice(&self) -> &[Step] {
        self.list.as_slice()
    }

    // Adds a step, unless its content holds a struck state.
    fn add(&mut self, step: Step, struck: Set) {
        if self.list.is_full() {
            return;
        }
        if step.content().and(struck).is_empty() {
            self.list.push(step);
        } else {
            self.by_strike = true;
        }
    }
}

// The omega steps from the states of a set that loops, or the back steps to them.
fn add_limits(steps: &mut Steps, automaton: &Automaton, row: Row) {
    for q in 0..64u8 {
        match row {
            Row::Left(set, to) if set.has(q) => {
                let by = By::Omega(set);
                steps.add(Step { by, from: q, to }, automaton.struck);
            }
            Row::Right(from, set) if set.has(q) => {
                let by = By::Back(set);
                steps.add(Step { by, from, to: q }, automaton.struck);
            }
            _ => {}
        }
    }
}

// The mix steps of a row from → set, one for each row set → to, where the set mixes.
fn add_mixes(steps: &mut Steps, automaton: &Automaton, from: u8, set: Set) {
    for left in automaton.rows.as_slice() {
        match *left {
            Row::Left(other, to) if other == set => {
                let by = By::Mix(set);
                steps.add(Step { by, from, to }, automaton.struck);
            }
            _ => {}
        }
    }
}

// The steps of a row.
fn add_row(steps: &mut Steps, automaton: &Automaton, row: Row) {
    if let Row::Letter(from, letter, to) = row {
        let by = By::Letter(letter);
        steps.add(Step { by, from, to }, automaton.struck);
    }
    let Some(tested) = row.set().and_then(|set| automaton.tested(set)) else {
        return;
    };
    if tested.looped.is_some() {
        add_limits(steps, automaton, row);
    }
    if let Row::Right(from, set) = row {
        if tested.mixed.is_some() {
            add_mixes(steps, automaton, from, set);
        }
    }
}

// The steps of all rows.
pub fn of_automaton(automaton: &Automaton) -> Steps {
    let mut steps = Steps::new();
    for row in automaton.rows.as_slice() {
        add_row(&mut steps, automaton, *row);
    }
    steps
}
