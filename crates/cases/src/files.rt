// An HOA file and the stored batch of its rows, or the stored line of its refusal. The program `hoa` writes that; the call and the function of
// the library write the batch into a long buffer and into one of exactly its length, and refuse one that is a byte shorter; or they refuse the
// file whatever the buffer.
use crate::returned::Returned;
use crate::{asking, returned, say_same};
use program_output::{first, same, say};

// Says whether the program writes the text for the file.
fn shows(rt: &impl Print, file: &[u8], text: &[u8]) -> bool {
    let shown = hoa_files::shown(file);
    let written = shown.text;
    let is_same = same(first(&written, shown.length), text);
    say_same(rt, is_same);
    is_same
}

fn tell_way<F: Fn(&mut [u8]) -> Returned>(
    rt: &impl Print,
    ask: F,
    text: &[u8],
    is_refusal: bool,
) -> bool
    requires { F.IsAlwaysCallable ask }
{
    if is_refusal {
        return asking::tell_none(rt, ask, text);
    }
    asking::tell_text(rt, ask, text)
}

// Says what becomes of a file, and whether it is the text.
pub(crate) fn tell(rt: &impl Print, file: &[u8], text: &[u8], is_refusal: bool) -> bool {
    let by_program = shows(rt, file, text);
    say(rt, b", call ");
    let by_call = tell_way(
        rt,
        |buffer| returned::of_answer(hoa_files::convert(file, buffer)),
        text,
        is_refusal,
    );
    say(rt, b", library ");
    tell_way(rt, |buffer| returned::hoa(file, buffer), text, is_refusal) && by_program && by_call
}
