// Calls that write a text into a buffer, by the function of a crate and by that of the library: into a long buffer, into one of exactly the
// text's length, and into one that is a byte shorter, which is refused.
use crate::returned::{Refused, Returned};
use crate::say_same;
use program_output::{beyond, first, same, say};
use sheet_lines::Line;
use texts::Written;

// More bytes than any stored text has.
const ROOM: usize = 16384;

// Are the bytes as they were lent?
fn is_untouched(bytes: &[u8]) -> bool {
    bytes.iter().all(|b| *b == 170)
}

// Is the text at the start of the buffer, and are the bytes beyond it as they were?
fn holds(buffer: &[u8], n: usize, text: &[u8]) -> bool {
    same(first(buffer, n), text) && is_untouched(beyond(buffer, n))
}

// Says whether a buffer of the length gets the text, or what is refused.
fn writes<F: Fn(&mut [u8]) -> Returned>(
    rt: &impl Print,
    ask: &F,
    text: &[u8],
    length: usize,
) -> bool
    requires { F.IsAlwaysCallable ask.now }
{
    let mut buffer = [170u8; ROOM];
    match ask(&mut buffer[..length.min(ROOM)]) {
        Ok(n) => {
            let is_same = holds(&buffer, n as usize, text);
            say_same(rt, is_same);
            is_same
        }
        Err(refused) => {
            let _ = rt.print(refused);
            false
        }
    }
}

// Is it the refusal of which the line tells? No line stands for any.
fn is_told(refused: Refused, line: &[u8]) -> bool {
    if line.is_empty() {
        return true;
    }
    let mut told = [0u8; 64];
    let n = Line::Refusal(refused.number, refused.place).put(&mut told);
    same(first(&told, n), line)
}

// Says what is refused with a buffer of the length. Is it what the line tells, and is the buffer as it was?
fn refuses<F: Fn(&mut [u8]) -> Returned>(
    rt: &impl Print,
    ask: &F,
    line: &[u8],
    length: usize,
) -> bool
    requires { F.IsAlwaysCallable ask.now }
{
    let mut buffer = [170u8; ROOM];
    match ask(&mut buffer[..length.min(ROOM)]) {
        Ok(_) => {
            say(rt, b"writes");
            false
        }
        Err(refused) => {
            let _ = rt.print(refused);
            is_told(refused, line) && is_untouched(&buffer)
        }
    }
}

// Says what becomes of an input that has the text.
pub(crate) fn tell_text<F: Fn(&mut [u8]) -> Returned>(rt: &impl Print, ask: F, text: &[u8]) -> bool
    requires { F.IsAlwaysCallable ask }
{
    let length = text.len();
    let long = writes(rt, &ask, text, ROOM);
    say(rt, b", exact ");
    let exact = writes(rt, &ask, text, length);
    say(rt, b", a byte less ");
    refuses(rt, &ask, b"refused 12 at 0\n", length.saturating_sub(1)) && long && exact
}

// Says what becomes of an input that has none, and is refused whatever the buffer, as the line tells.
pub(crate) fn tell_none<F: Fn(&mut [u8]) -> Returned>(rt: &impl Print, ask: F, line: &[u8]) -> bool
    requires { F.IsAlwaysCallable ask }
{
    let long = refuses(rt, &ask, line, ROOM);
    say(rt, b", no buffer ");
    refuses(rt, &ask, line, 0) && long
}
