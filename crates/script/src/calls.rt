// A line run on a session: the call that it asks for, and its answer.
ghost use Rattle.std.specs.Prelude.{◌≤◌};

use crate::answers::{say_answer, say_none};
use crate::checks::say_kept;
use commands::{Call, Change, EXPRESSION_ROOM, Move, Naming, Report};
use machine::{Answer, LONGEST_SHEET, Success};
use program_output::{first, say, say_number};
use session::{Reply, Session};

fn change(session: Session, call: Change, batch: &[u8]) -> Reply {
    match call {
        Change::Load => session.load(batch),
        Change::Withdraw => session.withdraw(batch),
    }
}

fn go(session: Session, call: Move) -> Reply {
    match call {
        Move::Close => session.close(),
        Move::Round => session.round(),
        Move::Reopen => session.reopen(),
        Move::Verdict => session.verdict(),
    }
}

fn by_name(session: Session, call: Naming, name: &[u8]) -> Reply {
    match call {
        Naming::Mark => session.mark(name),
        Naming::Return => session.return_to(name),
    }
}

fn report(session: Session, call: Report, buffer: &mut [u8]) -> Reply {
    match call {
        Report::Print => session.print(buffer),
        Report::Save => session.save(buffer),
        Report::Expression => session.expression(buffer),
    }
}

// Lends the first `n` bytes of the buffer.
fn lend(session: Session, call: Report, n: usize, buffer: &mut [u8]) -> Reply {
    let k = n.min(buffer.len());
    report(session, call, &mut buffer[..k])
}

// Makes the call that a line asks for.
fn act(session: Session, call: Call, batch: &[u8], buffer: &mut [u8]) -> Reply {
    match call {
        Call::Changes(call, n) => change(session, call, first(batch, n)),
        Call::Reports(call, n) => lend(session, call, n, buffer),
        Call::Moves(call) => go(session, call),
        Call::Names(call, n) => by_name(session, call, first(batch, n)),
    }
}

// Begins the line of the checks after a text, and ends the line of any other answer.
fn say_written(rt: &impl Print, answer: Answer, checks: bool) {
    match answer {
        Ok(Success::Wrote(n)) => {
            if checks {
                say(rt, b"wrote ");
                say_number(rt, n as u64);
            }
        }
        _ => {
            if !checks {
                say(rt, b"\n");
            }
        }
    }
}

// Ends the answer to a call, with the checks where they are asked for.
fn end(rt: &impl Print, before: Session, reply: Reply, buffer: &[u8], checks: bool) {
    let answer = reply.answer;
    say_written(rt, answer, checks);
    if checks {
        say_kept(rt, before, reply.session, answer, buffer);
        say(rt, b"\n");
    }
}

// Runs a call with a buffer, and writes its answer.
fn run_with(
    rt: &impl Print,
    session: Session,
    call: Call,
    batch: &[u8],
    buffer: &mut [u8],
    checks: bool,
) -> Session {
    let reply = act(session, call, batch, buffer);
    let after = reply.session;
    let phase = after.phase;
    let answer = reply.answer;
    say_answer(rt, call, answer, phase, buffer);
    end(rt, session, reply, buffer, checks);
    after
}

// Runs a call with a buffer of N bytes.
fn run_in<const N: usize>(
    rt: &impl Print,
    session: Session,
    call: Call,
    batch: &[u8],
    checks: bool,
) -> Session
    requires { N ≤ 1048576 }
{
    let mut buffer = [170u8; N];
    run_with(rt, session, call, batch, &mut buffer, checks)
}

// Runs a call: a megabyte is filled for those alone that ask for more room than a sheet has.
fn run_call(rt: &impl Print, session: Session, call: Call, batch: &[u8], checks: bool) -> Session {
    match call {
        Call::Reports(_, n) if n > LONGEST_SHEET => {
            run_in::<EXPRESSION_ROOM>(rt, session, call, batch, checks)
        }
        _ => run_in::<LONGEST_SHEET>(rt, session, call, batch, checks),
    }
}

// Runs a line: the call that it asks for, or none.
pub(crate) fn run_line(rt: &impl Print, session: Session, line: &[u8], checks: bool) -> Session {
    // Room for the batch of any line that is held; a name that has none is too long.
    let mut batch = [0u8; 70000];
    match commands::parse(line, &mut batch) {
        Ok(call) => run_call(rt, session, call, &batch, checks),
        Err(none) => {
            say_none(rt, none, line, checks);
            session
        }
    }
}
