// A session in lines: each line of standard input asks for a call, and each call is answered on standard output.
#![tactic(auto)]

mod answers;
mod calls;
mod checks;
mod input;

use input::Line;
use machine::LONGEST_BATCH;
use session::Session;

// A batch of 65,536 bytes in hex and the word before it have 131,081 bytes at most.
const LONGEST_LINE: usize = 140000;

// Runs the lines of standard input on a fresh session. Where it checks, comments are written out, and the answer to a call says whether
// the session and the buffer are as they were.
pub fn run(rt: &(impl Input + Print + Eprint), checks: bool) {
    let mut read = [0u8; LONGEST_BATCH];
    let mut room = [0u8; LONGEST_LINE];
    let mut line = Line::new(&mut room);
    let mut reader = rt.reader();
    input::run(
        rt,
        &mut reader,
        Session::fresh(),
        &mut read,
        &mut line,
        checks,
    );
}

// Runs the lines of a text on a fresh session.
pub fn run_text(rt: &impl Print, text: &[u8]) {
    let mut room = [0u8; LONGEST_LINE];
    let mut line = Line::new(&mut room);
    input::run_text(rt, Session::fresh(), text, &mut line);
}

// Runs one line on any record, with the checks.
pub fn run_line(rt: &impl Print, record: Session, line: &[u8]) -> Session {
    calls::run_line(rt, record, line, true)
}
