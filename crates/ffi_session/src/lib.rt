// Lists of calls on one session for callers in C and Rust: what `ffi_session_c` exports as a static library, and what is timed of a session.
#![tactic(auto)]

ghost use Rattle.ffi_session.specs.Promise.{Makes, Answers, CalledSession};

use codes::code;
use machine::{Answer, Success};
use session::{Reply, Session};

// The call that the byte names; where it names none, all stays as it was.
fn make_call(before: Reply, byte: u8, batch: &[u8], buffer: &mut [u8]) -> Reply
    ensures { Makes batch.now byte before buffer.old buffer.new result }
{
    let session = before.session;
    match byte {
        b'l' => session.load(batch),
        b'w' => session.withdraw(batch),
        b'c' => session.close(),
        b'r' => session.round(),
        b'o' => session.reopen(),
        b'v' => session.verdict(),
        b'p' => session.print(buffer),
        b's' => session.save(buffer),
        b'e' => session.expression(buffer),
        b'1'..=b'4' => session.mark(&[byte + 48]),
        b'5'..=b'8' => session.return_to(&[byte + 44]),
        _ => before,
    }
}

// The calls that the bytes name, one after another on a fresh session, and the last answer.
fn make_calls(batch: &[u8], calls: &[u8], buffer: &mut [u8]) -> Answer
    ensures { Answers batch.now calls.now buffer.old buffer.new result }
{
    let mut reply = Reply {
        session: Session::fresh(),
        answer: Ok(Success::Done),
    };
    for byte in calls {
        reply = make_call(reply, *byte, batch, buffer);
    }
    reply.answer
}

// Makes calls on a fresh session, with one batch and one buffer of less than 2^32 bytes. Each byte of `calls` names one: l load, w withdraw,
// c close, r round, o reopen, v verdict, p print, s save, e expression; 1 to 4 mark under the names a to d, 5 to 8 return to them. Any other
// byte names none. Returns the code of the last answer, 0 where no call was made, and writes the place of a refusal to `place`.
pub fn gozhmerik_session(batch: &[u8], calls: &[u8], buffer: &mut [u8], place: &mut u64) -> u64
    ensures { CalledSession batch.now calls.now buffer.old buffer.new
        place.old place.new result }
{
    code(make_calls(batch, calls, buffer), place)
}
