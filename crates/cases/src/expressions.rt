// A batch and its stored expression. The checker and the function of the library write it into a long buffer and into one of exactly its
// length, and refuse one that is a byte shorter; an empty file stands for a batch that has none, which is refused whatever the buffer.
use crate::returned::Returned;
use crate::{asking, returned};
use program_output::say;

fn tell_way<F: Fn(&mut [u8]) -> Returned>(rt: &impl Print, ask: F, text: &[u8]) -> bool
    requires { F.IsAlwaysCallable ask }
{
    if text.is_empty() {
        return asking::tell_none(rt, ask, b"");
    }
    asking::tell_text(rt, ask, text)
}

// Says what becomes of a batch that is asked for its expression, and whether it is the text.
pub(crate) fn tell(rt: &impl Print, batch: &[u8], text: &[u8]) -> bool {
    let by_checker = tell_way(
        rt,
        |buffer| returned::of_answer(checker::expression(batch, buffer)),
        text,
    );
    say(rt, b", library ");
    tell_way(rt, |buffer| returned::expression(batch, buffer), text) && by_checker
}
