// The lines of standard input.
use crate::calls::run_line;
use program_output::{first, say};
use session::Session;
use std::io::Read;

// A line that is read: its bytes are at the start of the room, as many as are held; of a line that has no room, none.
#[derive(Drop)]
pub(crate) struct Line<'a> {
    room: &'a mut [u8],
    held: Option<usize>,
}

impl<'a> Line<'a> {
    pub(crate) fn new(room: &'a mut [u8]) -> Line<'a> {
        Line {
            room,
            held: Some(0),
        }
    }

    // Puts bytes behind those that are held.
    fn put(&mut self, bytes: &[u8]) {
        let held = self.held;
        self.held = match held {
            Some(n) if n.saturating_add(bytes.len()) <= self.room.len() => {
                self.room[n..n + bytes.len()].copy_from_slice(bytes);
                Some(n + bytes.len())
            }
            _ => None,
        };
    }
}

// Runs the line, or says that it is too long; and begins the next.
fn run_held(rt: &impl Print, session: Session, line: &mut Line, checks: bool) -> Session {
    let held = line.held;
    line.held = Some(0);
    match held {
        Some(n) => run_line(rt, session, first(line.room, n), checks),
        None => {
            say(rt, b"too long\n");
            session
        }
    }
}

// Runs the lines that end in what was read.
fn run_lines(
    rt: &impl Print,
    session: Session,
    read: &[u8],
    line: &mut Line,
    checks: bool,
) -> Session {
    let mut last = session;
    for piece in read.split_inclusive(|b| *b == b'\n') {
        match piece.strip_suffix(b"\n") {
            Some(end) => {
                line.put(end);
                last = run_held(rt, last, line, checks);
            }
            None => line.put(piece),
        }
    }
    last
}

// Ends with a last line that has no line end.
fn finish(rt: &impl Print, session: Session, line: &mut Line, checks: bool) {
    let held = line.held;
    if held != Some(0) {
        run_held(rt, session, line, checks);
    }
}

// Runs all lines of a text.
pub(crate) fn run_text(rt: &impl Print, session: Session, text: &[u8], line: &mut Line) {
    let last = run_lines(rt, session, text, line, false);
    finish(rt, last, line, false);
}

// Reads and runs lines to the end of the input. A proved loop has to end, and nothing says that the input does: so the turns are
// counted, to a number that no run uses up.
pub(crate) fn run(
    rt: &(impl Print + Eprint),
    reader: &mut impl Read,
    session: Session,
    buffer: &mut [u8],
    line: &mut Line,
    checks: bool,
) {
    let mut last = session;
    for _ in 0..u64::MAX {
        match reader.read(buffer) {
            Ok(0) => return finish(rt, last, line, checks),
            Ok(n) => last = run_lines(rt, last, &buffer[..n], line, checks),
            Err(error) => {
                let _ = eprintln!(rt; "standard input: {error}");
                return;
            }
        }
    }
}
