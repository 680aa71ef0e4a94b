// The body of a file: its states with their edges, and the end.
ghost use Rattle.std.specs.Prelude.{◌≤◌, ◌<◌, length};
ghost use Rattle.hoa_files.specs.Reading.{NoDigitFirst, FindsState, FindsEdge, TellsState, TellsStateOrEnd, TellsLine, TakesHead, MarksOne, FinishesFile, TellsFile};

use crate::parts::numbered;
use crate::{BodyLine, Head, Numbered, ReadFile};
use buchi_rows::BuchiMasks;
use causes::Cause;
use machine::Refusal;
use masks::Set;

// The length of the line of a state with the tail, if it stands at the head.
fn state_length(rest: &[u8], state: u8, tail: &[u8]) -> Option<usize>
    requires { (state < 10) × (0 < length tail.now) × NoDigitFirst tail.now }
    ensures { FindsState tail.now rest.now state result }
{
    let line = numbered(rest, b"State: ", tail)?;
    if line.number == state {
        Some(line.length)
    } else {
        None
    }
}

// The line of the state that comes next, unmarked or marked.
fn state_line(rest: &[u8], next: u8) -> Result<BodyLine, Cause>
    requires { next < 10 }
    ensures { TellsState rest.now next result }
{
    // A plain line with another number is no marked one either.
    if let Some(plain) = numbered(rest, b"State: ", b"\n") {
        if plain.number == next {
            return Ok(BodyLine::State(false, plain.length));
        }
        return Err(Cause::BadLine);
    }
    if let Some(length) = state_length(rest, next, b" {0}\n") {
        return Ok(BodyLine::State(true, length));
    }
    Err(Cause::BadLine)
}

// The line of the next state, or the end where all have come.
fn state_or_end(rest: &[u8], states: u8, count: u8) -> Result<BodyLine, Cause>
    requires { (count ≤ states) × (states ≤ 6) }
    ensures { TellsStateOrEnd rest.now states count result }
{
    if count < states {
        return state_line(rest, count);
    }
    match rest.strip_prefix(b"--END--\n") {
        Some(_) => Ok(BodyLine::End),
        None => Err(Cause::BadLine),
    }
}

// The line of an edge; most lead to a state of one digit, which is told at a glance.
fn edge_at(rest: &[u8]) -> Option<Numbered>
    ensures { FindsEdge rest.now result }
{
    if let [b'[', b't', b']', b' ', digit @ b'0'..=b'9', b'\n', ..] = rest {
        return Some(Numbered {
            length: 6,
            number: *digit - b'0',
        });
    }
    numbered(rest, b"[t] ", b"\n")
}

// The line at the head, where so many states have come.
fn body_line(rest: &[u8], states: u8, count: u8) -> Result<BodyLine, Cause>
    requires { (count ≤ states) × (states ≤ 6) }
    ensures { TellsLine rest.now states count result }
{
    if count == 0 {
        return state_or_end(rest, states, count);
    }
    let Some(edge) = edge_at(rest) else {
        return state_or_end(rest, states, count);
    };
    if states <= edge.number {
        return Err(Cause::BadNumber);
    }
    Ok(BodyLine::Edge(edge.number, edge.length))
}

// The marked states with one more, if it is marked.
fn mark(marked: Set, state: u8, is_marked: bool) -> Set
    requires { state < 64 }
    ensures { MarksOne marked state is_marked result }
{
    if is_marked {
        masks::with(marked, state)
    } else {
        marked
    }
}

// The file's end where nothing stands behind the last line.
fn finish(file: &[u8], at: usize, automaton: BuchiMasks) -> ReadFile
    ensures { FinishesFile file.now at automaton result }
{
    if at < file.len() {
        return Err(Refusal {
            cause: Cause::BadLine,
            place: at,
        });
    }
    Ok(automaton)
}

// The body behind the head.
pub fn read_body(file: &[u8], head: Head) -> ReadFile
    requires { TakesHead file.now head.states head.start head.length }
    ensures { TellsFile file.now result }
{
    let mut at = head.length;
    let mut count: u8 = 0;
    let mut marked: Set = 0;
    let mut edges: Set = 0;
    // The lines come to their end: no range counts them.
    loop {
        match body_line(&file[at..], head.states, count) {
            Ok(BodyLine::State(is_marked, length)) => {
                marked = mark(marked, count, is_marked);
                count += 1;
                at += length;
            }
            Ok(BodyLine::Edge(to, length)) => {
                edges = masks::with(edges, 6 * (count - 1) + to);
                at += length;
            }
            Ok(BodyLine::End) => {
                return finish(
                    file,
                    at + 8,
                    BuchiMasks {
                        states: head.states,
                        start: head.start,
                        marked,
                        edges,
                    },
                );
            }
            Err(cause) => return Err(Refusal { cause, place: at }),
        }
    }
}
