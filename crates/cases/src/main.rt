// Runs the checker and the functions of the library on stored batches, and compares each sheet with the stored one, byte by byte, and each
// verdict with its first line; and each expression with the stored one. The same for stored HOA files and their batches or refusals.
// Its arguments are pairs of file names: a batch, and the sheet that it must give, or the expression; or an HOA file, and the batch or the
// line of the refusal.
#![tactic(auto)]

mod asking;
mod expressions;
mod files;
mod returned;

ghost use Rattle.std.specs.Prelude.{◌≤◌, length};

use machine::LONGEST_SHEET;
use program_input::{LONGEST_PATH, argument, argument_count, open, read_full};
use program_output::{first, same, say, say_number};
use std::io::{Read, Result};
use std::rt::{Env, Files};

// More are passed over.
const MOST_CASES: usize = 500;

// What the second file of a pair holds.
#[derive(Clone, Copy)]
enum Stored {
    Sheet,
    Expression,
    Batch,
    Refusal,
}

// Opens the file that an argument names, and writes its name out.
fn open_named<R: Env + Files + Print>(rt: &R, index: usize) -> Result<R::File> {
    let mut path = [0u8; LONGEST_PATH];
    let path = argument(rt, index, &mut path);
    say(rt, path);
    say(rt, b" ");
    open(rt, path)
}

// Reads a file from its start into the buffer, and closes it.
fn read_file(mut file: impl Read + Drop, buffer: &mut [u8]) -> usize
    ensures { result ≤ length buffer.new }
{
    read_full(&mut file, buffer)
}

// Does the program write the text for the batch?
fn writes(batch: &[u8], text: &[u8]) -> bool {
    let shown = checker::shown(batch);
    let written = shown.text;
    same(&written[..shown.length], text)
}

fn say_same(rt: &impl Print, is_same: bool) {
    if is_same {
        say(rt, b"same");
    } else {
        say(rt, b"different");
    }
}

// Says whether the function of the library writes the text for the batch, or what it refuses.
fn say_library(rt: &impl Print, batch: &[u8], text: &[u8]) {
    let mut out = [0u8; LONGEST_SHEET];
    match returned::sheet(batch, &mut out) {
        Ok(n) => say_same(rt, same(first(&out, n as usize), text)),
        Err(refused) => {
            let _ = rt.print(refused);
        }
    }
}

// Does the text begin with the line of the verdict?
fn says(text: &[u8], code: u64) -> bool {
    if code == 1 {
        return text.starts_with(b"verdict nonempty ");
    }
    text.starts_with(b"verdict empty ")
}

// Says whether the verdict of the library is that of the text, or what it refuses.
fn say_verdict(rt: &impl Print, batch: &[u8], text: &[u8]) {
    match returned::verdict(batch) {
        Ok(code) => say_same(rt, says(text, code)),
        Err(refused) => {
            let _ = rt.print(refused);
        }
    }
}

// Says what becomes of a batch that is asked for its sheet, and whether the program writes the text.
fn tell_sheet(rt: &impl Print, batch: &[u8], text: &[u8]) -> bool {
    let is_same = writes(batch, text);
    say_same(rt, is_same);
    say(rt, b", library ");
    say_library(rt, batch, text);
    say(rt, b", verdict ");
    say_verdict(rt, batch, text);
    is_same
}

// What the file holds that an argument names, by the end of its name.
fn kind_of(rt: &impl Env, index: usize) -> Stored {
    let mut path = [0u8; LONGEST_PATH];
    let path = argument(rt, index, &mut path);
    if path.ends_with(b".expression") {
        return Stored::Expression;
    }
    if path.ends_with(b".batch") {
        return Stored::Batch;
    }
    if path.ends_with(b".refusal") {
        return Stored::Refusal;
    }
    Stored::Sheet
}

// Says what becomes of an input, and whether it is the text.
fn tell(rt: &impl Print, input: &[u8], text: &[u8], stored: Stored) -> bool {
    match stored {
        Stored::Sheet => tell_sheet(rt, input, text),
        Stored::Expression => expressions::tell(rt, input, text),
        Stored::Batch => files::tell(rt, input, text, false),
        Stored::Refusal => files::tell(rt, input, text, true),
    }
}

// Does the input in one file give the text in the other? Files that cannot be read give nothing.
fn gives<F: Read + Drop>(
    rt: &impl Print,
    input_file: Result<F>,
    text_file: Result<F>,
    stored: Stored,
) -> bool {
    let (Ok(input_file), Ok(text_file)) = (input_file, text_file) else {
        return false;
    };
    let mut input = [0u8; 65538];
    let n = read_file(input_file, &mut input);
    let mut text = [0u8; 16384];
    let k = read_file(text_file, &mut text);
    tell(rt, &input[..n], &text[..k], stored)
}

// Runs one case, and says how it went: whether the input gives the text.
fn run_case(rt: &(impl Env + Files + Print), input_index: usize, text_index: usize) -> bool {
    let input_file = open_named(rt, input_index);
    let text_file = open_named(rt, text_index);
    let is_given = gives(rt, input_file, text_file, kind_of(rt, text_index));
    say(rt, b"\n");
    is_given
}

fn main(rt: HostRuntime) {
    // Pairs of arguments behind the name of the program.
    let cases = (argument_count(&rt).saturating_sub(1) / 2).min(MOST_CASES);
    let mut different = 0u64;
    for case in 0..cases {
        if !run_case(&rt, case * 2 + 1, case * 2 + 2) {
            different += 1;
        }
    }
    say(&rt, b"cases ");
    say_number(&rt, cases as u64);
    say(&rt, b" different ");
    say_number(&rt, different);
    say(&rt, b"\n");
}
