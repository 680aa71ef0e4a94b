// What lines and their calls are answered. A sheet, rows and an expression end their line; other answers are ended by who asks for them.
use commands::{Call, NoCall, Report};
use machine::{Answer, Phase, Refusal, Success, Verdict};
use program_output::{first, say};

fn verdict_word(verdict: Verdict) -> &'static str {
    match verdict {
        Verdict::NonEmpty => "nonempty",
        Verdict::Empty => "empty",
    }
}

// Writes where an accepted call leads.
fn say_phase(rt: &impl Print, phase: Phase) {
    match phase {
        Phase::Open => say(rt, b"ok"),
        Phase::Running => say(rt, b"ok running"),
        Phase::Settled(verdict) => {
            let word = verdict_word(verdict);
            let _ = print!(rt; "ok {word}");
        }
    }
}

fn say_done(rt: &impl Print, answer: Answer, phase: Phase) {
    match answer {
        Ok(Success::Decided(verdict)) => {
            let word = verdict_word(verdict);
            let _ = print!(rt; "verdict {word}");
        }
        Err(Refusal { cause, place }) => {
            let number = cause as u8;
            let _ = print!(rt; "refused {number} at {place}");
        }
        Ok(_) => say_phase(rt, phase),
    }
}

fn say_rows(rt: &impl Print, rows: &[u8]) {
    say(rt, b"rows ");
    program_output::say_hex(rt, rows);
    say(rt, b"\n");
}

fn say_expression(rt: &impl Print, text: &[u8]) {
    say(rt, b"expression ");
    say(rt, text);
    say(rt, b"\n");
}

// Writes what a call put into its buffer: a sheet as it is, rows in hex, an expression as it is in a line.
fn say_text(rt: &impl Print, call: Report, text: &[u8]) {
    match call {
        Report::Print => say(rt, text),
        Report::Save => say_rows(rt, text),
        Report::Expression => say_expression(rt, text),
    }
}

fn say_report(rt: &impl Print, call: Report, answer: Answer, phase: Phase, buffer: &[u8]) {
    match answer {
        Ok(Success::Wrote(n)) => say_text(rt, call, first(buffer, n)),
        _ => say_done(rt, answer, phase),
    }
}

// Writes the answer to a call. A mark and a return are answered with `ok` in any phase: neither tells where rounds led.
pub(crate) fn say_answer(rt: &impl Print, call: Call, answer: Answer, phase: Phase, buffer: &[u8]) {
    match call {
        Call::Reports(call, _) => say_report(rt, call, answer, phase, buffer),
        Call::Names(_, _) => say_done(rt, answer, Phase::Open),
        _ => say_done(rt, answer, phase),
    }
}

// Writes a line where that is asked for.
fn say_line(rt: &impl Print, line: &[u8], asked: bool) {
    if asked {
        say(rt, line);
        say(rt, b"\n");
    }
}

// Says why a line asks for no call; where checks are asked for, what is passed over is written out.
pub(crate) fn say_none(rt: &impl Print, none: NoCall, line: &[u8], checks: bool) {
    match none {
        NoCall::Nothing => say_line(rt, line, checks),
        NoCall::BadHex => say(rt, b"bad hex\n"),
        NoCall::TooLong => say(rt, b"too long\n"),
        NoCall::Unknown => say(rt, b"unknown command\n"),
    }
}
