// The lines of a file before its body.
ghost use Rattle.std.specs.Prelude.{◌≤◌, length};
ghost use Rattle.hoa_files.specs.Reading.{PassesLine, TellsFixed, TakesCount, TellsHead};

use crate::Head;
use crate::parts::numbered;
use causes::Cause;
use machine::Refusal;

// The place behind the line, where it stands at the place.
fn pass(file: &[u8], at: usize, line: &[u8]) -> Result<usize, Refusal>
    requires { at ≤ length file.now }
    ensures { PassesLine file.now at line.now result }
{
    match file[at..].strip_prefix(line) {
        Some(_) => Ok(at + line.len()),
        None => Err(Refusal {
            cause: Cause::BadLine,
            place: at,
        }),
    }
}

// The place behind the four lines before the body, which are the same in every file.
fn pass_fixed(file: &[u8], at: usize) -> Result<usize, Refusal>
    requires { at ≤ length file.now }
    ensures { TellsFixed file.now at result }
{
    let name = pass(file, at, b"AP: 0\n")?;
    let acceptance = pass(file, name, b"acc-name: Buchi\n")?;
    let body = pass(file, acceptance, b"Acceptance: 1 Inf(0)\n")?;
    pass(file, body, b"--BODY--\n")
}

// The head from the line of the start on.
fn read_start(file: &[u8], at: usize, states: u8) -> Result<Head, Refusal>
    requires { TakesCount file.now states at }
    ensures { TellsHead file.now result }
{
    let Some(start) = numbered(&file[at..], b"Start: ", b"\n") else {
        return Err(Refusal {
            cause: Cause::BadLine,
            place: at,
        });
    };
    if states <= start.number {
        return Err(Refusal {
            cause: Cause::BadNumber,
            place: at,
        });
    }
    let length = pass_fixed(file, at + start.length)?;
    Ok(Head {
        states,
        start: start.number,
        length,
    })
}

// The head of a file.
pub fn read_head(file: &[u8]) -> Result<Head, Refusal>
    ensures { TellsHead file.now result }
{
    let at = pass(file, 0, b"HOA: v1\n")?;
    let Some(states) = numbered(&file[at..], b"States: ", b"\n") else {
        return Err(Refusal {
            cause: Cause::BadLine,
            place: at,
        });
    };
    if states.number == 0 || 6 < states.number {
        return Err(Refusal {
            cause: Cause::BadNumber,
            place: at,
        });
    }
    read_start(file, at + states.length, states.number)
}
