// The limits, the phases of a session, what its calls answer, the steps of walks, and claims. The plain machine of document 01, its sheet and its theorems are in specs/ and proofs/.
#![tactic(auto)]

use causes::Cause;

// As many rows and sets as can stand, and as many rounds as can be done.
pub const MOST_ROWS: usize = 256;

pub const MOST_SETS: usize = 64;

pub const MOST_ROUNDS: u8 = 129;

// The longest batch that the program takes, and a length that every sheet fits into.
pub const LONGEST_BATCH: usize = 65536;

pub const LONGEST_SHEET: usize = 6400;

#[derive(Clone, Copy, PartialEq, Eq)]
pub enum Verdict {
    NonEmpty,
    Empty,
}

// Document 01, "The session as a plain machine": open, running, settled with a verdict.
#[derive(Clone, Copy, PartialEq, Eq)]
pub enum Phase {
    Open,
    Running,
    Settled(Verdict),
}

// What a call that is not refused answers: done, the count of bytes written, or the verdict that was asked for.
#[derive(Clone, Copy, PartialEq, Eq)]
pub enum Success {
    Done,
    Wrote(usize),
    Decided(Verdict),
}

// A refusal: its cause, and the place in the batch.
#[derive(Clone, Copy, PartialEq, Eq)]
pub struct Refusal {
    pub cause: Cause,
    pub place: usize,
}

// What a call answers.
pub type Answer = Result<Success, Refusal>;

// What a step of a walk reads: a letter, or a limit at a set.
#[derive(Clone, Copy, PartialEq, Eq)]
pub enum StepLabel {
    Letter(u8),
    Omega(u64),
    Back(u64),
    Mix(u64),
}

// A step of a walk, from the state where the step before it ends.
#[derive(Clone, Copy, PartialEq, Eq)]
pub struct Step {
    pub label: StepLabel,
    pub to: u8,
}

// What is opened at a set: it loops, or it mixes.
#[derive(Clone, Copy, PartialEq, Eq)]
pub enum Claim {
    Loops(u64),
    Mixes(u64),
}
