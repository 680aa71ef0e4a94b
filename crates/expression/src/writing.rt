// The text of the walk, of a tour or of pieces, into a lent buffer.
ghost use Rattle.std.specs.Prelude.{◌≡◌, ◌+◌, ◌≤◌, length};
ghost use Rattle.lists.specs.Tests.{Decides};
ghost use Rattle.machine.specs.Text.{number_text};
ghost use Rattle.expression.specs.Texts.{before_text, open_text, close_text};
ghost use Rattle.expression.specs.Promise.{PutsAt, PutsFrame};

use crate::frames;
use crate::frames::Opened;
use crate::lengths::target;
use machine::{Step, StepLabel};
use search::IndexedGraph;
use texts::{Number, Text, Written, number_len};
use tours::Frame;
use tours::legs::LAYERS;
use walks::Letters;

// Is there room for `n` bytes from `at` on?
fn has_room(len: usize, at: usize, n: usize) -> bool
    ensures { Decides result (at + n ≤ len) }
{
    if at <= len { n <= len - at } else { false }
}

// Writes a text from `at` on, where there is room for it, and returns the next place.
fn bytes_at(buf: &mut [u8], at: usize, text: &[u8]) -> usize
    ensures { PutsAt text.now buf.old buf.new at result }
{
    if has_room(buf.len(), at, text.len()) {
        return Text(text).put_at(buf, at);
    }
    at
}

// Writes a number likewise.
fn number_at(buf: &mut [u8], at: usize, n: u64) -> usize
    ensures { PutsAt (number_text n) buf.old buf.new at result }
{
    if has_room(buf.len(), at, number_len(n)) {
        return Number(n).put_at(buf, at);
    }
    at
}

// What stands before a part: nothing, a dot or a comma.
fn before_at(buf: &mut [u8], at: usize, before: Option<u8>) -> usize
    ensures { PutsAt (before_text before) buf.old buf.new at result }
{
    match before {
        None => at,
        Some(c) => bytes_at(buf, at, &[c]),
    }
}

// A part up to the text within it: what stands before it, and its letter, `e`, or what opens the text of its claim.
fn open_at(buf: &mut [u8], at: usize, before: Option<u8>, step: Option<Step>) -> usize
    ensures { PutsAt (open_text before step) buf.old buf.new at result }
{
    let next = before_at(buf, at, before);
    match step {
        None => bytes_at(buf, next, b"e"),
        Some(step) => match step.label {
            StepLabel::Letter(a) => number_at(buf, next, a as u64),
            StepLabel::Omega(_) => bytes_at(buf, next, b"("),
            StepLabel::Back(_) => bytes_at(buf, next, b"("),
            StepLabel::Mix(_) => bytes_at(buf, next, b"sh("),
        },
    }
}

// What closes the text of a claim.
fn close_at(buf: &mut [u8], at: usize, step: Option<Step>) -> usize
    ensures { PutsAt (close_text step) buf.old buf.new at result }
{
    match step {
        None => at,
        Some(step) => match step.label {
            StepLabel::Letter(_) => at,
            StepLabel::Omega(_) => bytes_at(buf, at, b")w"),
            StepLabel::Back(_) => bytes_at(buf, at, b")v"),
            StepLabel::Mix(_) => bytes_at(buf, at, b")"),
        },
    }
}

// Writes the text of a frame: its parts, and within each the text of its claim, which opened in an earlier round.
pub fn put(
    buf: &mut [u8],
    letters: &Letters,
    back: &IndexedGraph,
    opened: &Opened,
    set_count: usize,
    frame: Frame,
) -> usize
    requires { set_count ≤ 64 }
    ensures sized { length buf.new ≡ length buf.old }
    ensures within { result ≤ length buf.new }
    ensures puts { PutsFrame letters.now.words.now letters.now.count back.now set_count opened.now frame
        buf.old buf.new result }
{
    let parts = back.parts();
    let mut layers = [0u64; LAYERS];
    let mut at = 0;
    let mut next = tours::begin(back, frame, &mut layers);
    while let Some(cursor) = next {
        let step = tours::step_at(letters, &parts, frame.force, cursor, &layers);
        at = open_at(buf, at, cursor.before, step);
        if let Some(within) = frames::of_step(&parts, opened, set_count, cursor.state, step) {
            // The round falls whatever the arrays hold.
            if within.round < frame.round {
                at = at + put(&mut buf[at..], letters, back, opened, set_count, within);
            }
        }
        at = close_at(buf, at, step);
        let to = target(step, cursor.state);
        next = tours::advance(back, frame, cursor, to, &mut layers);
    }
    at
}
