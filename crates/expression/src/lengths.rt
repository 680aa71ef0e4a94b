// How long the texts are, as far as they fit the buffer: lengths grow beyond all numbers, and none is kept that is more than the buffer's.
ghost use Rattle.std.specs.Prelude.{◌≡◌, ℕ, ◌+◌, ◌≤◌, ◌<◌, length, IfSome};
ghost use Rattle.expression.specs.Frames.{LeadsOn};
ghost use Rattle.expression.specs.Texts.{before_text};
ghost use Rattle.expression.specs.Lengths.{Measured, Adds, AddsStep, MeasuresFrame, MeasuresPlace, NotesRound, NotesAll};

use crate::frames;
use crate::frames::{CLAIMS, Opened, place_of};
use machine::{Step, StepLabel};
use masks::PLACES;
use search::IndexedGraph;
use texts::number_len;
use tours::Frame;
use tours::legs::LAYERS;
use walks::Letters;

// The lengths of the texts within the claims, in the order of `Opened`; none for a text that is longer than the buffer.
pub type Bytes = [Option<usize>; CLAIMS];

// A length, and `n` bytes more, as far as they fit the buffer.
fn plus(length: Option<usize>, n: usize, most: usize) -> Option<usize>
    ensures { (x : ℕ) → Measured most x length → Measured most (x + n) result }
{
    let sum = length?.checked_add(n)?;
    if most < sum {
        return None;
    }
    Some(sum)
}

// A length, and another one.
fn plus_text(length: Option<usize>, text: Option<usize>, most: usize) -> Option<usize>
    ensures { (x y : ℕ) → Measured most x length → Measured most y text → Measured most (x + y) result }
{
    plus(length, text?, most)
}

// A length, and the byte before a part, if one stands there.
fn plus_before(length: Option<usize>, before: Option<u8>, most: usize) -> Option<usize>
    ensures { Adds most (before_text before) length result }
{
    match before {
        None => length,
        Some(_) => plus(length, 1, most),
    }
}

// A length, and what is written for a step: a letter, `e`, or a claim between what opens and what closes its text.
fn plus_step(
    length: Option<usize>,
    back: &IndexedGraph,
    set_count: usize,
    bytes: &Bytes,
    step: Option<Step>,
    most: usize,
) -> Option<usize>
    requires { set_count ≤ 64 }
    ensures { AddsStep back.now set_count bytes.now most step length result }
{
    match step {
        None => plus(length, 1, most),
        Some(step) => match step.label {
            StepLabel::Letter(a) => plus(length, number_len(a as u64), most),
            StepLabel::Omega(p) => {
                let i = place_of(back.sets(), set_count, p)?;
                plus_text(plus(length, b"()w".len(), most), bytes[i], most)
            }
            StepLabel::Back(p) => {
                let i = place_of(back.sets(), set_count, p)?;
                plus_text(plus(length, b"()v".len(), most), bytes[i], most)
            }
            StepLabel::Mix(p) => {
                let i = place_of(back.sets(), set_count, p)?;
                plus_text(plus(length, b"sh()".len(), most), bytes[PLACES + i], most)
            }
        },
    }
}

// Where a step leads to; without one, where it starts.
pub fn target(step: Option<Step>, a: u8) -> u8
    requires { (a < 64) × IfSome step (λ t. t.to < 64) }
    ensures low { result < 64 }
    ensures leads { LeadsOn a step result }
{
    match step {
        None => a,
        Some(step) => step.to,
    }
}

// How long the text of a frame is, where those of the claims opened before its round are known.
pub fn of_frame(
    letters: &Letters,
    back: &IndexedGraph,
    set_count: usize,
    bytes: &Bytes,
    frame: Frame,
    most: usize,
) -> Option<usize>
    requires { set_count ≤ 64 }
    ensures { MeasuresFrame letters.now.words.now letters.now.count back.now set_count bytes.now frame most result }
{
    let parts = back.parts();
    let mut layers = [0u64; LAYERS];
    let mut length = Some(0);
    let mut next = tours::begin(back, frame, &mut layers);
    while let Some(cursor) = next {
        let step = tours::step_at(letters, &parts, frame.force, cursor, &layers);
        length = plus_before(length, cursor.before, most);
        length = plus_step(length, back, set_count, bytes, step, most);
        let to = target(step, cursor.state);
        next = tours::advance(back, frame, cursor, to, &mut layers);
    }
    length
}

// Notes the lengths of the claims that opened in the round.
fn note_round(
    bytes: &mut Bytes,
    letters: &Letters,
    back: &IndexedGraph,
    opened: &Opened,
    set_count: usize,
    round: u8,
    most: usize,
)
    requires { (set_count ≤ 64) × (0 < round) × (length bytes.old ≡ 128) }
    ensures sized { length bytes.new ≡ 128 }
    ensures notes { NotesRound letters.now.words.now letters.now.count back.now set_count opened.now round most
        bytes.old bytes.new }
{
    for slot in 0..CLAIMS {
        if opened[slot] == round {
            bytes[slot] = of_slot(letters, back, opened, set_count, bytes, slot, most);
        }
    }
}

// How long the text of the claim at a place of the array is, where those of the claims opened before its round are known.
fn of_slot(
    letters: &Letters,
    back: &IndexedGraph,
    opened: &Opened,
    set_count: usize,
    bytes: &Bytes,
    slot: usize,
    most: usize,
) -> Option<usize>
    requires { (set_count ≤ 64) × (slot < 128) }
    ensures { MeasuresPlace letters.now.words.now letters.now.count back.now set_count opened.now bytes.now slot most
        result }
{
    let frame = frames::of_place(&back.parts(), opened, set_count, slot)?;
    of_frame(letters, back, set_count, bytes, frame, most)
}

// Notes the lengths of all claims that are open, round by round.
pub fn note_all(
    bytes: &mut Bytes,
    letters: &Letters,
    back: &IndexedGraph,
    opened: &Opened,
    set_count: usize,
    rounds: u8,
    most: usize,
)
    requires { (set_count ≤ 64) × (length bytes.old ≡ 128) }
    ensures { NotesAll letters.now.words.now letters.now.count back.now set_count opened.now rounds most bytes.new }
{
    for done in 0..rounds {
        note_round(bytes, letters, back, opened, set_count, done + 1, most);
    }
}
