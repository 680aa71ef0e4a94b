// The lines of the sheet and of a refusal, each written at the front of a lent buffer or from a place on, and how long each is.
#![tactic(auto)]

ghost use Rattle.std.specs.Prelude.{◌≡◌, ◌≤◌, ◌++◌, length};
ghost use Rattle.lists.specs.Writing.{Wrote};
ghost use Rattle.machine.specs.Sheet.{line, verdict_text, label_text, step_line};
ghost use Rattle.machine.specs.Labels.{label_of};
ghost use Rattle.sheet_lines.specs.Lines.{step_to, line_text};

use machine::{Claim, StepLabel, Verdict};
use texts::{Hex, Number, Text, Written, number_len};

// A line: a verdict and its count of rounds, what is opened in a round, where the walk starts, a step of it by its label and its target, a refusal
// and its place.
#[derive(Clone, Copy)]
pub enum Line {
    Verdict(Verdict, u64),
    Opening(u64, Claim),
    Start(u64),
    Step(StepLabel, u64),
    Refusal(u64, u64),
}

// Writes a line of one word. This and the next two are put into their callers, where the word is known.
#[inline(always)]
fn put_one<X: Written + Copy>(buf: &mut [u8], word: &[u8], x: X) -> usize
    requires { length (line (word.now ++ X.text_of x)) ≤ length buf.old }
    ensures { Wrote (line (word.now ++ X.text_of x)) buf.old buf.new result }
{
    ((Text(word), x), Text(b"\n")).put(buf)
}

// Writes a line of two words.
#[inline(always)]
fn put_two<X: Written + Copy, Y: Written + Copy>(
    buf: &mut [u8],
    first: &[u8],
    x: X,
    second: &[u8],
    y: Y,
) -> usize
    requires { length (line (first.now ++ (X.text_of x ++ (second.now ++ Y.text_of y)))) ≤ length buf.old }
    ensures { Wrote (line (first.now ++ (X.text_of x ++ (second.now ++ Y.text_of y)))) buf.old buf.new result }
{
    ((Text(first), (x, (Text(second), y))), Text(b"\n")).put(buf)
}

// Writes the line of a step.
#[inline(always)]
fn put_step(buf: &mut [u8], label: StepLabel, to: u64) -> usize
    requires { length (step_line (step_to label to)) ≤ length buf.old }
    ensures { Wrote (step_line (step_to label to)) buf.old buf.new result }
{
    let end = Number(to);
    match label {
        StepLabel::Letter(a) => put_two(buf, b"step letter ", Number(a as u64), b" to ", end),
        StepLabel::Omega(set) => put_two(buf, b"step omega ", Hex(set), b" to ", end),
        StepLabel::Back(set) => put_two(buf, b"step back ", Hex(set), b" to ", end),
        StepLabel::Mix(set) => put_two(buf, b"step mix ", Hex(set), b" to ", end),
    }
}

impl Written for Line {
    ghost text_of = { line_text };

    fn put(&self, buf: &mut [u8]) -> usize {
        match *self {
            Line::Verdict(Verdict::NonEmpty, k) => put_one(
                buf,
                b"verdict nonempty rounds ",
                Number(k),
            ),
            Line::Verdict(Verdict::Empty, k) => put_one(buf, b"verdict empty rounds ", Number(k)),
            Line::Opening(k, Claim::Loops(set)) => put_two(
                buf,
                b"open ",
                Number(k),
                b" loop ",
                Hex(set),
            ),
            Line::Opening(k, Claim::Mixes(set)) => put_two(
                buf,
                b"open ",
                Number(k),
                b" mix ",
                Hex(set),
            ),
            Line::Start(s) => put_one(buf, b"start ", Number(s)),
            Line::Step(label, to) => put_step(buf, label, to),
            Line::Refusal(n, place) => put_two(buf, b"refused ", Number(n), b" at ", Number(place)),
        }
    }
}

// How long the word of a verdict is.
fn verdict_len(v: Verdict) -> usize
    ensures { (result ≡ length (verdict_text v)) × (result ≤ 8) }
{
    match v {
        Verdict::NonEmpty => b"nonempty".len(),
        Verdict::Empty => b"empty".len(),
    }
}

// How long a label's word and its letter or set are.
fn label_len(label: StepLabel) -> usize
    ensures { (result ≡ length (label_text (label_of label))) × (result ≤ 27) }
{
    match label {
        StepLabel::Letter(a) => b"letter ".len() + number_len(a as u64),
        StepLabel::Omega(_) => b"omega ".len() + 16,
        StepLabel::Back(_) => b"back ".len() + 16,
        StepLabel::Mix(_) => b"mix ".len() + 16,
    }
}

impl Line {
    pub fn len(&self) -> usize
        ensures { result ≡ length (line_text self.now) }
    {
        match *self {
            Line::Verdict(v, k) => b"verdict  rounds \n".len() + verdict_len(v) + number_len(k),
            Line::Opening(k, Claim::Loops(_)) => b"open  loop \n".len() + number_len(k) + 16,
            Line::Opening(k, Claim::Mixes(_)) => b"open  mix \n".len() + number_len(k) + 16,
            Line::Start(s) => b"start \n".len() + number_len(s),
            Line::Step(label, to) => b"step  to \n".len() + label_len(label) + number_len(to),
            Line::Refusal(n, place) => b"refused  at \n".len() + number_len(n) + number_len(place),
        }
    }
}
