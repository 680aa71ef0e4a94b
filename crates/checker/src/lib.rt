// One batch in; its sheet, its verdict or the expression of its walk out.
#![tactic(auto)]

ghost use Rattle.std.specs.Prelude.{◌≡◌, ◌≤◌, true, length, Err};
ghost use Rattle.lists.specs.Writing.{Wrote};
ghost use Rattle.machine.specs.Program.{program};
ghost use Rattle.rounds.specs.Promises.{closed_as, Settles};
ghost use Rattle.checker.specs.Promise.{Finishes, Expresses, GivesAsked, AnswersAsked};
ghost use Rattle.checker.specs.Promise.{Checks, GivesVerdict, GivesExpression, Roomy, Told};

use causes::Cause;
use loader::LoadedGraph;
use machine::{Answer, LONGEST_BATCH, LONGEST_SHEET, MOST_ROWS, Phase, Refusal, Success, Verdict};
use rounds::Progress;
use search::graphs::MASKS;
use search::{IndexedGraph, TwoWayGraph};
use sheet_lines::Line;
use texts::{Text, Written as WrittenText};

// A text at the start of an array that has room for any that the program writes, and its length.
#[derive(Drop)]
pub struct Output {
    pub text: [u8; LONGEST_SHEET],
    pub length: usize,
}

// What the program writes.
pub type Written = Output;

// What is asked of a batch that is loaded into masks: its sheet, the expression of its walk, or its verdict.
#[derive(Clone, Copy)]
enum Asked {
    Sheet,
    Expression,
    Verdict,
}

// A batch that is loaded: its graph, the words of its letter rows, and what it has beside them.
#[derive(Drop)]
struct Loaded<'a> {
    graph: &'a IndexedGraph<'a>,
    letters: &'a [u64; MOST_ROWS],
    parts: LoadedGraph,
    ghost few_sets: { parts.set_count ≤ 64 },
    ghost few_letters: { parts.letter_count ≤ 256 },
}

// Refused, without a place.
fn refused(cause: Cause) -> Answer
    ensures { result ≡ Err (record { cause = cause; place = 0 }) }
{
    Err(Refusal { cause, place: 0 })
}

impl<'a> Loaded<'a> {
    // Closes the automaton and does rounds until it is settled; told at once where all sets are idle: then it is settled as it is closed.
    fn settle(&self, both: &TwoWayGraph, idle: bool) -> Progress
        requires same { both.now ≡ self.now.graph.now }
        requires closed { idle ≡ true → Settles self.now.graph.now
            self.now.parts.points.initials self.now.parts.points.finals self.now.parts.set_count (closed_as true) }
        ensures { Settles self.now.graph.now
            self.now.parts.points.initials self.now.parts.points.finals self.now.parts.set_count result }
    {
        if idle {
            return rounds::without_rounds(true);
        }
        rounds::settle(both, self.parts.points, self.parts.set_count)
    }

    // Closes the automaton, settles it and prints its sheet. Where the first round opens nothing, the graph is not turned round.
    fn finish(&self, buffer: &mut [u8]) -> Answer
        ensures { Finishes self.now.graph.now self.now.letters.now self.now.parts buffer.old buffer.new result }
    {
        let parts = self.parts;
        let idle = rounds::all_idle(&self.graph.parts(), parts.set_count);
        if rounds::is_vain(self.graph, parts.points, parts.set_count, idle) {
            return whole_sheet::print_vain(buffer);
        }
        let mut turned = [0u64; MASKS];
        self.graph.turn_into(&mut turned);
        let back = IndexedGraph::new(&turned);
        let both = TwoWayGraph::new(self.graph, &back);
        let done = self.settle(&both, idle);
        match done.phase {
            Phase::Open => refused(Cause::StillOpen),
            Phase::Running => refused(Cause::StillRunning),
            Phase::Settled(v) => whole_sheet::print(
                buffer,
                v,
                self.letters,
                parts.letter_count,
                parts.set_count,
                &both,
                parts.points,
                &done,
            ),
        }
    }

    // Closes the automaton, settles it and writes its walk as an expression; 17 where the verdict is empty.
    fn express(&self, buffer: &mut [u8]) -> Answer
        ensures { Expresses self.now.graph.now self.now.letters.now self.now.parts buffer.old buffer.new result }
    {
        let parts = self.parts;
        let idle = rounds::all_idle(&self.graph.parts(), parts.set_count);
        if rounds::is_vain(self.graph, parts.points, parts.set_count, idle) {
            return refused(Cause::VerdictEmpty);
        }
        let mut turned = [0u64; MASKS];
        self.graph.turn_into(&mut turned);
        let back = IndexedGraph::new(&turned);
        let both = TwoWayGraph::new(self.graph, &back);
        let done = self.settle(&both, idle);
        match done.phase {
            Phase::Open => refused(Cause::StillOpen),
            Phase::Running => refused(Cause::StillRunning),
            Phase::Settled(Verdict::Empty) => refused(Cause::VerdictEmpty),
            Phase::Settled(Verdict::NonEmpty) => expression::express(
                buffer,
                self.letters,
                parts.letter_count,
                parts.set_count,
                &both,
                parts.points,
                &done,
            ),
        }
    }

    // What is asked of it.
    fn give(&self, asked: Asked, buffer: &mut [u8]) -> Answer
        ensures { GivesAsked asked self.now.graph.now self.now.letters.now self.now.parts buffer.old buffer.new result }
    {
        match asked {
            Asked::Sheet => self.finish(buffer),
            Asked::Expression => self.express(buffer),
            Asked::Verdict => {
                let v = rising::verdict(self.graph, self.parts.points, self.parts.set_count);
                Ok(Success::Decided(v))
            }
        }
    }
}

// Loads one batch into masks, and gives what is asked of it; or the refusal, and the buffer as it was. All calls load here: a load that
// each of them called took longer on long batches.
fn answer(asked: Asked, batch: &[u8], buffer: &mut [u8]) -> Answer
    ensures { AnswersAsked asked batch.now buffer.old buffer.new result }
{
    let mut masks = [0u64; MASKS];
    let mut letters = [0u64; MOST_ROWS];
    // No `?`: the arm of a refusal is one that a wrong edit can turn.
    let parts = match loader::load(batch, &mut masks, &mut letters) {
        Ok(parts) => parts,
        Err(refusal) => return Err(refusal),
    };
    let graph = &IndexedGraph::new(&masks);
    let loaded = Loaded {
        graph,
        letters: &letters,
        parts,
    };
    loaded.give(asked, buffer)
}

// Loads one batch, closes it, settles it and prints its sheet; or the refusal, and the buffer as it was.
pub fn check(batch: &[u8], sheet: &mut [u8]) -> Answer
    ensures { Checks batch.now sheet.old sheet.new result }
{
    answer(Asked::Sheet, batch, sheet)
}

// Loads one batch, and gives its verdict; or the refusal.
#[tactic(auto, using(crate::proofs::Outcomes::verdict_told))]
pub fn verdict(batch: &[u8]) -> Answer
    ensures { GivesVerdict batch.now result }
{
    let mut none = [0u8; 0];
    answer(Asked::Verdict, batch, &mut none)
}

// Loads one batch, closes it, settles it and writes its walk as an expression; or the refusal, and the buffer as it was.
pub fn expression(batch: &[u8], text: &mut [u8]) -> Answer
    ensures { GivesExpression batch.now text.old text.new result }
{
    answer(Asked::Expression, batch, text)
}

// What the program `sheet` writes for its input, into a buffer that has room for it: the sheet, the line of the refusal, or `too long`.
fn show(input: &[u8], out: &mut [u8]) -> usize
    requires { Roomy out.old }
    ensures { Wrote (program input.now) out.old out.new result }
{
    if input.len() > LONGEST_BATCH {
        return Text(b"too long\n").put(out);
    }
    match check(input, out) {
        Ok(Success::Wrote(n)) => n,
        Ok(Success::Done) => 0,
        Ok(Success::Decided(_)) => 0,
        Err(Refusal { cause, place }) => {
            Line::Refusal(u8::from(cause) as u64, place as u64).put(out)
        }
    }
}

// What the program `sheet` writes for its input.
pub fn shown(input: &[u8]) -> Output
    ensures { Told input.now result }
{
    let mut text = [0u8; LONGEST_SHEET];
    let length = show(input, &mut text);
    Output { text, length }
}
