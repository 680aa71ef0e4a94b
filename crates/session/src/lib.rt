// The session and its calls.
#![tactic(auto)]

mod expressions;
mod loading;
mod marking;
mod prints;
mod replies;
mod running;
mod saving;
mod tables;
mod verdicts;

use causes::Cause;
use machine::{Answer, MOST_ROWS, MOST_SETS, Phase};
use marks::Marks;
use row_table::RowKeys;
use rows::Row;

// A place of the array of rows.
pub type Slot = Row;

// The standing rows sorted as byte strings; their sets, rising; the rounds in which the loop and the mix of each set opened, 0 for
// not open; the phase and the count of rounds; the marks. What is not used holds a filler.
#[derive(Clone, Copy)]
pub struct Session {
    pub rows: [Slot; MOST_ROWS],
    pub row_count: usize,
    pub sets: [u64; MOST_SETS],
    pub set_count: usize,
    pub loop_rounds: [u8; MOST_SETS],
    pub mix_rounds: [u8; MOST_SETS],
    pub phase: Phase,
    pub rounds: u8,
    pub marks: Marks,
}

// What a record is to the calls: a session in a phase, or why it is foreign.
pub type State = Result<Phase, Cause>;

// The keys of the standing rows, in order.
pub type Keys = RowKeys;

// The session handed back, and the answer beside it.
#[derive(Clone, Copy)]
pub struct Reply {
    pub session: Session,
    pub answer: Answer,
}
