// Is all as it was after a call? Of records a digest of all fields is compared, of buffers every byte.
use machine::{Answer, LONGEST_SHEET, MOST_ROWS, Phase, Success, Verdict};
use marks::{Kept, Marks};
use program_output::{beyond, say};
use session::Session;

// The digest goes on with a word: Marsaglia's xorshift, in which no two words have one successor.
fn mixed(digest: u64, word: u64) -> u64 {
    let a = digest ^ word;
    let b = a ^ (a << 13);
    let c = b ^ (b >> 7);
    c ^ (c << 17)
}

// The digest goes on with bytes.
fn with_bytes(digest: u64, bytes: &[u8]) -> u64 {
    bytes
        .iter()
        .fold(digest, |found, b| mixed(found, u64::from(*b)))
}

// The digest goes on with sets.
fn with_sets(digest: u64, sets: &[u64]) -> u64 {
    sets.iter().fold(digest, |found, set| mixed(found, *set))
}

fn phase_number(phase: Phase) -> u64 {
    match phase {
        Phase::Open => 0,
        Phase::Running => 1,
        Phase::Settled(Verdict::NonEmpty) => 2,
        Phase::Settled(Verdict::Empty) => 3,
    }
}

// The digest of the rows: a save of them in a record that is else fresh shows every place, those too that are not used.
fn rows_digest(session: Session) -> u64 {
    let mut buffer = [0u8; LONGEST_SHEET];
    let rows = session.rows;
    let fresh = Session::fresh();
    let whole = Session {
        rows,
        row_count: MOST_ROWS,
        ..fresh
    };
    whole.save(&mut buffer);
    with_bytes(1, &buffer)
}

// The digest of what is no array.
fn numbers_digest(session: Session) -> u64 {
    let phase = session.phase;
    let counts = mixed(session.row_count as u64, session.set_count as u64);
    mixed(mixed(counts, session.rounds as u64), phase_number(phase))
}

// The digest of the sets and of the rounds of their claims.
fn sets_digest(session: Session) -> u64 {
    let sets = with_sets(1, &session.sets);
    let loops = with_bytes(sets, &session.loop_rounds);
    with_bytes(loops, &session.mix_rounds)
}

// The digest goes on with the keys of rows, those too that are not used.
fn with_keys(digest: u64, high: &[u64; MOST_ROWS], low: &[u16; MOST_ROWS]) -> u64 {
    let mut found = digest;
    for (h, l) in high.iter().zip(low) {
        found = mixed(mixed(found, *h), u64::from(*l));
    }
    found
}

// The digest of what is kept under a name.
fn kept_digest(kept: &Kept) -> u64 {
    let phase = kept.phase;
    let counts = mixed(kept.row_count as u64, kept.rounds as u64);
    with_keys(mixed(counts, phase_number(phase)), &kept.high, &kept.low)
}

// The digest of the marks: of every place, those too that are not used.
fn marks_digest(marks: &Marks) -> u64 {
    let mut found = marks.count as u64;
    for mark in &marks.marks {
        found = mixed(mixed(found, mark.name), kept_digest(&mark.kept));
    }
    found
}

fn digest(session: Session) -> u64 {
    let numbers = mixed(rows_digest(session), numbers_digest(session));
    mixed(
        mixed(numbers, sets_digest(session)),
        marks_digest(&session.marks),
    )
}

// Are the bytes as they were lent?
fn is_untouched(bytes: &[u8]) -> bool {
    bytes.iter().all(|b| *b == 170)
}

fn say_same(rt: &impl Print, kept: bool) {
    if kept {
        say(rt, b" unchanged");
    } else {
        say(rt, b" changed");
    }
}

// Says of a text in the buffer whether the bytes beyond it are as they were.
fn say_beyond(rt: &impl Print, answer: Answer, buffer: &[u8]) {
    match answer {
        Ok(Success::Wrote(n)) => {
            say(rt, b", beyond the text");
            say_same(rt, is_untouched(beyond(buffer, n)));
        }
        _ => {}
    }
}

// Says whether the session and the buffer are as they were.
pub(crate) fn say_kept(
    rt: &impl Print,
    before: Session,
    after: Session,
    answer: Answer,
    buffer: &[u8],
) {
    say(rt, b", session");
    say_same(rt, digest(before) == digest(after));
    say(rt, b", buffer");
    say_same(rt, is_untouched(buffer));
    say_beyond(rt, answer, buffer);
}
