// Büchi automata from HOA files: a file in, its rows as a batch out.
#![tactic(auto)]

pub mod body;
pub mod heads;
pub mod parts;

ghost use Rattle.std.specs.Prelude.{◌≤◌, length};
ghost use Rattle.hoa_files.specs.Reading.{TellsFile};
ghost use Rattle.hoa_files.specs.Promise.{Converts, WritesShown, Shows};

pub use buchi_rows::BuchiMasks;
use machine::{Answer, Refusal, Success};
use sheet_lines::Line;
use texts::{Text, Written};

// The longest file that the program takes.
pub const LONGEST_FILE: usize = 65536;

// A line with a number: how many bytes it has, and the number, ten where it is more.
#[derive(Clone, Copy)]
pub struct Numbered {
    pub length: usize,
    pub number: u8,
}

// The head of a file: how many states there are, the start, and how many bytes it has.
#[derive(Clone, Copy)]
pub struct Head {
    pub states: u8,
    pub start: u8,
    pub length: usize,
}

// A line of the body: a state, marked or not, or an edge to a state, and how many bytes it has; or the end.
#[derive(Clone, Copy)]
pub enum BodyLine {
    State(bool, usize),
    Edge(u8, usize),
    End,
}

// What a file tells: an automaton, or why it is refused.
pub type ReadFile = Result<BuchiMasks, Refusal>;

// What the program writes: a text at the start of an array that has room for any, as there is no heap.
#[derive(Drop)]
pub struct Converted {
    pub text: [u8; buchi_rows::LONGEST],
    pub length: usize,
}

// The automaton of a file.
fn read(file: &[u8]) -> ReadFile
    ensures { TellsFile file.now result }
{
    let head = heads::read_head(file)?;
    body::read_body(file, head)
}

// Writes the rows of a file's automaton, each once, sorted, as a batch, and returns its length; or the refusal, and the buffer as it was.
pub fn convert(file: &[u8], batch: &mut [u8]) -> Answer
    ensures { Converts file.now batch.old batch.new result }
{
    let automaton = read(file)?;
    buchi_rows::write(batch, &automaton)
}

// What the program `hoa` writes for its input, into a buffer that has room for it: the batch, the line of the refusal, or `too long`.
fn show(input: &[u8], out: &mut [u8]) -> usize
    requires { 778 ≤ length out.old }
    ensures { WritesShown input.now out.old out.new result }
{
    if input.len() > LONGEST_FILE {
        return Text(b"too long\n").put(out);
    }
    match convert(input, out) {
        Ok(Success::Wrote(n)) => n,
        Ok(Success::Done) => 0,
        Ok(Success::Decided(_)) => 0,
        Err(Refusal { cause, place }) => {
            Line::Refusal(u8::from(cause) as u64, place as u64).put(out)
        }
    }
}

// What the program `hoa` writes for its input.
pub fn shown(input: &[u8]) -> Converted
    ensures { Shows input.now result }
{
    let mut text = [0u8; buchi_rows::LONGEST];
    let length = show(input, &mut text);
    Converted { text, length }
}
