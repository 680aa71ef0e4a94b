// What the programs read: standard input, files, and arguments.
#![tactic(auto)]

ghost use Rattle.std.specs.Prelude.{◌≤◌, length};
ghost use Rattle.program_input.specs.Input.{Held, SeesLonger};

use std::env::FillError;
use std::io::{Error, ErrorKind, Input, Read, Result};
use std::rt::{Env, Files};
use std::{fs, str};

// Room for any path.
pub const LONGEST_PATH: usize = 4096;

// Reads the input, a piece at a time, to its end or until more than `longest` bytes have come. Answers how many bytes are at the start of
// the buffer, or why a read failed.
pub fn read_input<R: Read>(reader: &mut R, buffer: &mut [u8], longest: usize) -> Result<usize>
    requires { SeesLonger longest buffer.old }
    ensures { Held result buffer.new }
{
    let mut at = 0;
    // Each read says how far it came: no range counts the pieces.
    while at <= longest {
        let n = reader.read(&mut buffer[at..])?;
        if n == 0 {
            break;
        }
        at += n;
    }
    Ok(at)
}

// Hands the whole of standard input to a function that writes what it makes of it. Says on standard error where either fails.
pub fn answer_input<F: FnOnce(&[u8]) -> Result<()>>(
    rt: &(impl Input + Eprint),
    buffer: &mut [u8],
    longest: usize,
    answer: F,
)
    requires room { SeesLonger longest buffer.old }
    requires answered { F.IsAlwaysCallable answer }
{
    match read_input(&mut rt.reader(), buffer, longest) {
        Ok(n) => {
            if let Err(error) = answer(&buffer[..n]) {
                let _ = eprintln!(rt; "standard output: {error}");
            }
        }
        Err(error) => {
            let _ = eprintln!(rt; "standard input: {error}");
        }
    }
}

// Reads until the buffer is full, the input ends or a read fails. Answers how many bytes are at the start of the buffer.
pub fn read_full<R: Read>(reader: &mut R, buffer: &mut [u8]) -> usize
    ensures { result ≤ length buffer.new }
{
    let mut done = 0;
    // As above.
    while done < buffer.len() {
        match reader.read(&mut buffer[done..]) {
            Ok(0) | Err(_) => break,
            Ok(n) => done += n,
        }
    }
    done
}

// Opens a file for reading.
pub fn open<R: Files>(rt: &R, path: &[u8]) -> Result<R::File> {
    let name = str::from_utf8(path).map_err(|_| Error::from(ErrorKind::InvalidInput))?;
    fs::open(rt, name)
}

// The argument, at the start of the buffer: empty where it is missing, or longer than the buffer.
pub fn argument<'a>(rt: &impl Env, index: usize, buffer: &'a mut [u8]) -> &'a [u8]
    ensures { length result.now ≤ length buffer.old }
{
    let n = rt.arg(index, buffer).unwrap_or(0);
    &buffer[..n]
}

// How many arguments there are, the name of the program among them.
pub fn argument_count(rt: &impl Env) -> usize {
    for index in 0..usize::MAX {
        if let Err(FillError::NotPresent) = rt.arg(index, &mut []) {
            return index;
        }
    }
    usize::MAX
}
