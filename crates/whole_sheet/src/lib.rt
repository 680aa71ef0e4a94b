// The sheet of a settled automaton, written from its letter rows, its graph and its rounds into a lent buffer; in `saved`, its rows.
#![tactic(auto)]

pub mod saved;
pub mod told;

ghost use Rattle.std.specs.Prelude.{◌≡◌, ◌⊎◌, ◌≤◌, ◌<◌, length, None};
ghost use Rattle.std.specs.Option.{option_copied};
ghost use Rattle.machine.specs.declared.Verdict.TheVariants.{NonEmpty};
ghost use Rattle.machine.specs.Sheet.{verdict_line};
ghost use Rattle.sheet_lines.specs.Lines.{line_text};
ghost use Rattle.sheet_parts.specs.Lines.{walk_text};
ghost use Rattle.whole_sheet.specs.Text.{sheet_text};
ghost use Rattle.whole_sheet.specs.Promise.{FindsWalk, PrintsSheet, PrintsVain};

use machine::{Answer, LONGEST_SHEET, MOST_ROWS, Verdict};
use rounds::Progress;
use search::{Claims, Endpoints, TwoWayGraph};
use sheet_lines::Line;
use sheet_parts::{OpeningLines, WalkLines};
use texts::Written;
use told::Told;
use walks::FoundWalk;

// No lines of openings are longer.
const LONGEST_OPENINGS: usize = 3968;

// The lines of the verdict, of the openings and of the walk, if there is one.
#[derive(Clone, Copy)]
struct Sheet<'a, 'w> {
    verdict: Verdict,
    openings: OpeningLines<'a>,
    walk: Option<&'w FoundWalk>,
}

impl<'a, 'w> Sheet<'a, 'w> {
    // The line of the verdict.
    fn line(&self) -> Line
        ensures text { line_text result ≡ verdict_line self.now.verdict self.now.openings.progress.now.rounds }
        ensures byte { self.now.openings.progress.now.rounds < 256 }
    {
        Line::Verdict(self.verdict, self.openings.progress.rounds as u64)
    }

    // How long the lines of the walk are.
    fn walk_len(&self) -> usize
        ensures { (result ≡ length (walk_text (option_copied self.now.walk))) × (result ≤ 2400) }
    {
        match self.walk {
            Some(walk) => WalkLines(walk).len(),
            None => 0,
        }
    }
}

impl<'a, 'w> Written for Sheet<'a, 'w> {
    ghost text_of = { λ s. sheet_text s.verdict
        s.openings.progress.now s.openings.sets.now s.openings.set_count (option_copied s.walk) };

    fn put(&self, buf: &mut [u8]) -> usize {
        let at = (self.line(), self.openings).put(buf);
        match self.walk {
            Some(walk) => WalkLines(walk).put_at(buf, at),
            None => at,
        }
    }
}

impl<'a, 'w> Told for Sheet<'a, 'w> {
    // No sheet is longer than 6,400 bytes: so much room is not measured. Where there is room for the longest openings, they are not measured.
    fn fits(&self, size: usize) -> bool {
        let line = self.line();
        if LONGEST_SHEET <= size {
            return true;
        }
        let others = line.len() + self.walk_len();
        LONGEST_OPENINGS + others <= size || self.openings.len() + others <= size
    }
}

// The walk of the sheet: of a non-empty automaton the first of the shortest from an initial to a final state, with the claims that are open.
fn last_walk(
    verdict: Verdict,
    words: &[u64; MOST_ROWS],
    count: usize,
    set_count: usize,
    graph: &TwoWayGraph,
    points: Endpoints,
    progress: &Progress,
) -> Option<FoundWalk>
    requires { (count ≤ 256) × (set_count ≤ 64) }
    ensures { FindsWalk verdict words.now count set_count graph.now points progress.now result }
{
    match verdict {
        Verdict::Empty => None,
        Verdict::NonEmpty => {
            let force = Claims {
                loops: rounds::open_mask(&progress.loop_rounds, set_count),
                mixes: rounds::open_mask(&progress.mix_rounds, set_count),
            };
            walks::first_walk(words, count, graph.back(), force, points)
        }
    }
}

// The walk that the sheet tells. Calls make no record that is non-empty without a walk; one that is tells the walk of no steps from 0.
fn told_walk(verdict: Verdict, found: Option<FoundWalk>) -> Option<FoundWalk>
    ensures { (result ≡ found) ⊎ ((verdict ≡ NonEmpty) × (found ≡ None)) }
{
    match found {
        Some(walk) => Some(walk),
        None => match verdict {
            Verdict::Empty => None,
            Verdict::NonEmpty => Some(FoundWalk::staying(0)),
        },
    }
}

// The sheet of one that a first round settled as empty, which opened nothing: the verdict alone.
pub fn print_vain(buffer: &mut [u8]) -> Answer
    ensures { PrintsVain buffer.old buffer.new result }
{
    Line::Verdict(Verdict::Empty, 1).tell(buffer)
}

// The sheet of the automaton, settled with the verdict, into the buffer; nothing where the buffer is too short. The letter rows are among the
// first `count` words, in any order.
pub fn print<'x>(
    buffer: &mut [u8],
    verdict: Verdict,
    words: &[u64; MOST_ROWS],
    count: usize,
    set_count: usize,
    graph: &TwoWayGraph<'x>,
    points: Endpoints,
    progress: &'x Progress,
) -> Answer
    requires { (count ≤ 256) × (set_count ≤ 64) }
    ensures { PrintsSheet verdict words.now count set_count graph.now points progress.now buffer.old buffer.new result }
{
    let found = last_walk(verdict, words, count, set_count, graph, points, progress);
    let told = told_walk(verdict, found);
    let walk = told.as_ref();
    let openings = OpeningLines {
        progress,
        sets: graph.forth().sets(),
        set_count,
    };
    let sheet = Sheet {
        verdict,
        openings,
        walk,
    };
    sheet.tell(buffer)
}
