// Records that no calls make. Where a count is outside the arrays, or more rounds are done than calls lead to, every call is refused as 24, and
// all is as it was; so is a return to a mark that keeps such a thing. On others the answer is free, and what is run is that each call ends.
use machine::{MOST_ROWS, MOST_SETS, Phase, Verdict};
use marks::{Kept, MOST_MARKS, Mark, Marks};
use program_output::say;
use session::Session;

// Runs a call on a record, and writes what is seen.
fn try_call(rt: &impl Print, record: Session, line: &[u8]) {
    say(rt, line);
    say(rt, b": ");
    script::run_line(rt, record, line);
}

// The calls with a name.
const NAMED: [&str; 2] = ["mark a", "return a"];

// Every call.
const ALL: [&str; 11] = [
    "load 020103006100",
    "withdraw 0100",
    "close",
    "round",
    "reopen",
    "verdict",
    "print",
    "save",
    "expression",
    "mark a",
    "return a",
];

// Every call on the record.
fn try_all(rt: &impl Print, name: &[u8], record: Session) {
    say(rt, name);
    for line in ALL {
        try_call(rt, record, line.as_bytes());
    }
}

// A record with these counts, and nothing else.
fn counted(row_count: usize, set_count: usize, phase: Phase, rounds: u8) -> Session {
    let fresh = Session::fresh();
    Session {
        row_count,
        set_count,
        phase,
        rounds,
        ..fresh
    }
}

// Counts outside the arrays, in each phase.
fn outside(rt: &impl Print) {
    try_all(rt, b"# 257 rows\n", counted(257, 0, Phase::Open, 0));
    try_all(rt, b"# 65 sets\n", counted(0, 65, Phase::Running, 0));
}

fn far_outside(rt: &impl Print) {
    try_all(
        rt,
        b"# 2^64 - 1 rows\n",
        counted(usize::MAX, 64, Phase::Settled(Verdict::NonEmpty), 1),
    );
    try_all(
        rt,
        b"# 2^64 - 1 sets\n",
        counted(256, usize::MAX, Phase::Settled(Verdict::Empty), 1),
    );
}

// More rounds than calls lead to, in each phase.
fn too_many_rounds(rt: &impl Print) {
    try_all(rt, b"# open after 1 round\n", counted(3, 2, Phase::Open, 1));
    try_all(
        rt,
        b"# running after 129 rounds\n",
        counted(3, 2, Phase::Running, 129),
    );
    try_all(
        rt,
        b"# settled after 130 rounds\n",
        counted(3, 2, Phase::Settled(Verdict::Empty), 130),
    );
}

// Counts within the arrays: rows that stand twice and more, and sets of no row.
fn within(rt: &impl Print) {
    try_all(
        rt,
        b"# open, a row 256 times, 64 times the set 0\n",
        counted(256, 64, Phase::Open, 0),
    );
    try_all(
        rt,
        b"# running after 128 rounds\n",
        counted(3, 2, Phase::Running, 128),
    );
}

// Rows that are not in order: those unused behind one of kind 5.
fn unsorted(rt: &impl Print) {
    let loaded = script::run_line(rt, Session::fresh(), b"load 05008000000000000000");
    let record = Session {
        row_count: 2,
        set_count: 2,
        phase: Phase::Running,
        ..loaded
    };
    try_all(rt, b"# running, with rows out of order\n", record);
}

fn settled(rt: &impl Print) {
    try_all(
        rt,
        b"# settled as non-empty, without a walk\n",
        counted(2, 1, Phase::Settled(Verdict::NonEmpty), 129),
    );
}

// The example shifts with rounds of its openings that no rounds give: all in the last, so that none is of an earlier one.
fn opened_at_once(rt: &impl Print) {
    let loaded = script::run_line(
        rt,
        Session::fresh(),
        b"load 01000202030072000400000000000000010103016e0004000000000000000302",
    );
    let loop_rounds = [129u8; MOST_SETS];
    let mix_rounds = [129u8; MOST_SETS];
    let record = Session {
        loop_rounds,
        mix_rounds,
        phase: Phase::Settled(Verdict::NonEmpty),
        rounds: 129,
        ..loaded
    };
    try_all(
        rt,
        b"# settled as non-empty, with all claims opened in round 129\n",
        record,
    );
}

// A record with so many marks, all of one name and with the same kept: keys of zeros, which no row has.
fn marked(count: usize, row_count: usize, phase: Phase, rounds: u8) -> Session {
    let fresh = Session::fresh();
    let high = [0u64; MOST_ROWS];
    let low = [0u16; MOST_ROWS];
    let kept = Kept {
        high,
        low,
        row_count,
        phase,
        rounds,
    };
    let name = u64::from(b'a');
    let marks = [Mark { name, kept }; MOST_MARKS];
    let marks = Marks { marks, count };
    Session { marks, ..fresh }
}

// More marks than a session has.
fn too_many_marks(rt: &impl Print) {
    try_all(rt, b"# 5 marks\n", marked(5, 0, Phase::Open, 0));
    try_all(
        rt,
        b"# 2^64 - 1 marks\n",
        marked(usize::MAX, 0, Phase::Open, 0),
    );
}

// The two calls on a record whose marks keep what no mark keeps.
fn try_kept(rt: &impl Print, name: &[u8], row_count: usize, phase: Phase, rounds: u8) {
    say(rt, name);
    let record = marked(4, row_count, phase, rounds);
    for line in NAMED {
        try_call(rt, record, line.as_bytes());
    }
}

// Returns that are refused as 24: more rows than there are keys, more rounds than any session has done.
fn kept_outside(rt: &impl Print) {
    try_kept(rt, b"# kept: 257 rows\n", 257, Phase::Open, 0);
    try_kept(
        rt,
        b"# kept: 2^64 - 1 rows\n",
        usize::MAX,
        Phase::Running,
        0,
    );
    try_kept(rt, b"# kept: 130 rounds\n", 0, Phase::Running, 130);
    try_kept(
        rt,
        b"# kept: 200 rounds\n",
        0,
        Phase::Settled(Verdict::Empty),
        200,
    );
}

// Returns that are answered freely: 256 keys of no row, rounds while open, more rounds than settle, another verdict.
fn kept_within(rt: &impl Print) {
    try_kept(rt, b"# kept: keys of no row\n", 256, Phase::Open, 0);
    try_kept(
        rt,
        b"# kept: keys of no row, running\n",
        256,
        Phase::Running,
        0,
    );
    try_kept(rt, b"# kept: open after 129 rounds\n", 0, Phase::Open, 129);
    try_kept(
        rt,
        b"# kept: running after 129 rounds\n",
        0,
        Phase::Running,
        129,
    );
    try_kept(
        rt,
        b"# kept: settled as non-empty, without rows\n",
        0,
        Phase::Settled(Verdict::NonEmpty),
        0,
    );
}

pub fn run(rt: &impl Print) {
    outside(rt);
    far_outside(rt);
    too_many_marks(rt);
    too_many_rounds(rt);
    within(rt);
    unsorted(rt);
    settled(rt);
    opened_at_once(rt);
    kept_outside(rt);
    kept_within(rt);
}
