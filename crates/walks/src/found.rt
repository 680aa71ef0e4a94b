// What is found: where a walk starts and how long it is, and a walk with its steps.
ghost use Rattle.std.specs.Prelude.{◌≡◌, ℕ, ◌≤◌, ◌<◌, take};
ghost use Rattle.machine.specs.declared.StepLabel.TheVariants.{Letter};
ghost use Rattle.walks.specs.Found.{LeadLow, ByteLetters};

use machine::{Step, StepLabel};
use masks::STATES;

// What stands where no step is written yet.
pub(crate) const UNWRITTEN: Step = Step {
    label: StepLabel::Letter(0),
    to: 0,
};

// Where a leg starts, and how many steps it has.
#[derive(Clone, Copy)]
pub struct Leg {
    pub start: u8,
    pub steps: usize,
    pub ghost low: { start < 64 },
    pub ghost few: { steps ≤ 128 },
}

// A walk: its start, how many steps it has, and these.
#[derive(Clone, Copy)]
pub struct FoundWalk {
    pub start: u8,
    pub count: usize,
    pub steps: [Step; STATES],
    pub ghost low: { start < 64 },
    pub ghost few: { count < 64 },
    pub ghost lead_low: { LeadLow (take count steps) },
    pub ghost byte_letters: { ByteLetters (take count steps) },
}

// Of a step that is read the letter, if it has one, is a byte.
fn read(step: Step)
    ensures { (a : ℕ) → step.label ≡ Letter a → a < 256 }
{}

impl FoundWalk {
    // The walk of the first `count` of some steps.
    pub fn new(start: u8, count: usize, steps: [Step; STATES]) -> FoundWalk
        requires { (start < 64) × (count < 64) × LeadLow (take count steps) }
        ensures { (result.start ≡ start) × (result.count ≡ count) × (result.steps ≡ steps) }
    {
        // Each step is read, so that its letter is known to be a byte.
        for i in 0..count {
            read(steps[i]);
        }
        FoundWalk {
            start,
            count,
            steps,
        }
    }

    // The walk of no steps.
    pub fn staying(start: u8) -> FoundWalk
        requires { start < 64 }
        ensures { (result.start ≡ start) × (result.count ≡ 0) }
    {
        FoundWalk {
            start,
            count: 0,
            steps: [UNWRITTEN; STATES],
        }
    }
}
