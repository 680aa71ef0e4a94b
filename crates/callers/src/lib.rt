// Calls made as a caller of a session makes them, so that the demands rest on what the methods promise: each call, and lists of calls.
#![tactic(auto)]

pub mod calls;
pub mod sequences;

use machine::Answer;
use session::{Reply, Session};

// What the prints of `sequences::add_late` answered, and the session then.
#[derive(Drop)]
pub struct Added {
    pub printed: Answer,
    pub again: Reply,
}

// What the print of `sequences::express_settled` answered, and what its expression came to.
#[derive(Drop)]
pub struct Expressed {
    pub printed: Answer,
    pub told: Reply,
}

// What the conversion of `sequences::settle_file` answered, and the session with the rows of the file, settled; a fresh one where it was refused.
#[derive(Drop)]
pub struct FileSettled {
    pub converted: Answer,
    pub session: Session,
}

// What the calls of `sequences::refused_first` answered.
#[derive(Drop)]
pub struct Refusals {
    pub printed: Answer,
    pub rounded: Answer,
    pub loaded: Reply,
}

// What the mark of `sequences::try_variant` answered, and what its return came to.
#[derive(Drop)]
pub struct Tried {
    pub marked: Answer,
    pub back: Reply,
}

// What the verdicts of `sequences::verdict_first` answered, and the session then.
#[derive(Drop)]
pub struct TwoVerdicts {
    pub first: Answer,
    pub again: Reply,
}
