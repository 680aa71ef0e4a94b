// Lists of calls, made by a caller: what is promised are the demands at them.
ghost use Rattle.std.specs.Prelude.{[], ◌∷◌};
ghost use Rattle.machine.specs.Calls.{load, close};
ghost use Rattle.machine.specs.Marks.{on};
ghost use Rattle.callers.specs.Handed.{HandedBack, FirstCall, RoundsOn, DoesRounds, RoundsAfter, PrintedAfter, ExpressedAfter};
ghost use Rattle.callers.specs.Handed.{AddsLate, RefusedFirst, VerdictFirst, SavedAgain, SettlesFile, TriesVariant};

use crate::calls::{
    call_close, call_expression, call_fresh, call_load, call_mark, call_print, call_reopen,
    call_return, call_round, call_save, call_verdict,
};
use crate::{Added, Expressed, FileSettled, Refusals, Tried, TwoVerdicts};
use machine::{MOST_ROUNDS, Success};
use session::{Reply, Session};

// Load into a fresh session.
fn loaded(batch: &[u8]) -> Reply
    ensures { FirstCall (on (load batch.now)) [] [] result }
{
    let s = call_fresh();
    call_load(s, batch)
}

// Load and close.
fn closed(batch: &[u8]) -> Reply
    ensures { HandedBack (on (load batch.now) ∷ on close ∷ []) result.session }
{
    let r = loaded(batch);
    call_close(r.session)
}

// One round more, after any calls: it is done while the machine runs, and is never the 130th.
pub fn round_on(session: Session) -> Reply
    ensures { RoundsOn session result }
{
    call_round(session)
}

// Rounds until one is refused, 129 at most.
fn rounds_until(session: Session) -> Session
    ensures { DoesRounds session result }
{
    let mut s = session;
    for _done in 0..MOST_ROUNDS {
        let r = call_round(s);
        s = r.session;
        match r.answer {
            Ok(Success::Done) => {}
            Ok(Success::Wrote(_)) => return s,
            Ok(Success::Decided(_)) => return s,
            Err(_) => return s,
        }
    }
    s
}

// Load, close, rounds until one is refused.
fn settled(batch: &[u8]) -> Session
    ensures { RoundsAfter (on (load batch.now) ∷ on close ∷ []) result }
{
    let r = closed(batch);
    rounds_until(r.session)
}

// Load, close, rounds until one is refused, print.
pub fn print_settled(batch: &[u8], buffer: &mut [u8]) -> Reply
    ensures { PrintedAfter batch.now buffer.old buffer.new result }
{
    let s = settled(batch);
    call_print(s, buffer)
}

// As `print_settled`, and then the walk of the sheet as an expression.
pub fn express_settled(batch: &[u8], sheet: &mut [u8], buffer: &mut [u8]) -> Expressed
    ensures { ExpressedAfter batch.now sheet.old sheet.new
        buffer.old buffer.new result }
{
    let p = print_settled(batch, sheet);
    let printed = p.answer;
    let told = call_expression(p.session, buffer);
    Expressed { printed, told }
}

// A sheet of any session, rows added late, and the sheet again.
pub fn add_late(session: Session, batch: &[u8], first: &mut [u8], second: &mut [u8]) -> Added
    ensures { AddsLate session batch.now first.old first.new
        second.old second.new result }
{
    let p = call_print(session, first);
    let printed = p.answer;
    let o = call_reopen(p.session);
    let l = call_load(o.session, batch);
    let c = call_close(l.session);
    let s = rounds_until(c.session);
    let again = call_print(s, second);
    Added { printed, again }
}

// Print and round of a fresh session, and a load.
pub fn refused_first(batch: &[u8], buffer: &mut [u8]) -> Refusals
    ensures { RefusedFirst batch.now buffer.old buffer.new result }
{
    let s = call_fresh();
    let p = call_print(s, buffer);
    let printed = p.answer;
    let q = call_round(p.session);
    let rounded = q.answer;
    let loaded = call_load(q.session, batch);
    Refusals {
        printed,
        rounded,
        loaded,
    }
}

// Load, and the verdict while open; close, rounds until one is refused, and the verdict again.
pub fn verdict_first(batch: &[u8]) -> TwoVerdicts
    ensures { VerdictFirst batch.now result }
{
    let l = loaded(batch);
    let v = call_verdict(l.session);
    let first = v.answer;
    let c = call_close(v.session);
    let s = rounds_until(c.session);
    let again = call_verdict(s);
    TwoVerdicts { first, again }
}

// Load, save, and what was saved loaded into a fresh session.
pub fn save_again(batch: &[u8], buffer: &mut [u8]) -> Reply
    ensures { SavedAgain batch.now buffer.old buffer.new result }
{
    let r = loaded(batch);
    let kept = call_save(r.session, buffer);
    match kept.answer {
        Ok(Success::Wrote(n)) => loaded(&buffer[..n]),
        Ok(Success::Done) => kept,
        Ok(Success::Decided(_)) => kept,
        Err(_) => kept,
    }
}

// The rows of a file, loaded into a fresh session; close, and rounds until one is refused.
pub fn settle_file(file: &[u8], batch: &mut [u8]) -> FileSettled
    ensures { SettlesFile file.now batch.old batch.new result }
{
    let converted = hoa_files::convert(file, batch);
    let session = match converted {
        Ok(Success::Wrote(n)) => settled(&batch[..n]),
        Ok(Success::Done) => call_fresh(),
        Ok(Success::Decided(_)) => call_fresh(),
        Err(_) => call_fresh(),
    };
    FileSettled { converted, session }
}

// A mark, rows that are loaded and then disliked, and a return.
pub fn try_variant(session: Session, name: &[u8], batch: &[u8]) -> Tried
    ensures { TriesVariant session name.now batch.now result }
{
    let m = call_mark(session, name);
    let marked = m.answer;
    let l = call_load(m.session, batch);
    let back = call_return(l.session, name);
    Tried { marked, back }
}
