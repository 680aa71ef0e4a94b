// The walk of an automaton settled as non-empty, as an expression in a lent buffer.
#![tactic(auto)]

pub mod frames;
pub mod lengths;
pub mod writing;

ghost use Rattle.std.specs.Prelude.{◌≡◌, ◌≤◌, ◌++◌, length};
ghost use Rattle.expression.specs.Promise.{ExpressesWalk};

use crate::frames::{CLAIMS, Opened};
use causes::Cause;
use machine::{Answer, MOST_ROWS, MOST_SETS, Refusal, Success};
use masks::PLACES;
use rounds::Progress;
use search::{Endpoints, TwoWayGraph};
use walks::Letters;

// The rounds of the loops, and then those of the mixes.
fn opened_in(looped: &[u8; MOST_SETS], mixed: &[u8; MOST_SETS]) -> Opened
    ensures { length looped.now ≡ 64 → length mixed.now ≡ 64
        → result ≡ looped.now ++ mixed.now }
{
    let mut opened = [0u8; CLAIMS];
    lists::write_over(&mut opened[..PLACES], looped);
    lists::write_over(&mut opened[PLACES..], mixed);
    opened
}

// The expression into the buffer; nothing where the buffer is too short: its length is known first, as far as it fits. The letter rows are among
// the first `count` words, in any order.
pub fn express(
    buffer: &mut [u8],
    words: &[u64; MOST_ROWS],
    count: usize,
    set_count: usize,
    graph: &TwoWayGraph,
    points: Endpoints,
    progress: &Progress,
) -> Answer
    requires { (count ≤ 256) × (set_count ≤ 64) }
    ensures sized { length buffer.new ≡ length buffer.old }
    ensures expresses { ExpressesWalk words.now count set_count graph.now points progress.now
        buffer.old buffer.new result }
{
    let back = graph.back();
    let opened = opened_in(&progress.loop_rounds, &progress.mix_rounds);
    let letters = Letters::new(words, count);
    let most = buffer.len();
    let mut bytes = [None; CLAIMS];
    lengths::note_all(
        &mut bytes,
        &letters,
        back,
        &opened,
        set_count,
        progress.rounds,
        most,
    );
    let walk = frames::of_walk(&opened, set_count, points);
    match lengths::of_frame(&letters, back, set_count, &bytes, walk, most) {
        None => Err(Refusal {
            cause: Cause::ShortBuffer,
            place: 0,
        }),
        Some(_) => {
            let wrote = writing::put(buffer, &letters, back, &opened, set_count, walk);
            Ok(Success::Wrote(wrote))
        }
    }
}
