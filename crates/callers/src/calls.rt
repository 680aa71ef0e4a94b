// Each call of a session, made by a caller: its promise is a link of a trace.
ghost use Rattle.std.specs.Prelude.{length, []};
ghost use Rattle.machine.specs.Calls.{load, withdraw, close, round, reopen, verdict, print, save, expression};
ghost use Rattle.machine.specs.Marks.{on, mark, return_to};
ghost use Rattle.session.specs.Promise.{Fresh};
ghost use Rattle.demands.specs.Trace.{Served, exchange};

use session::{Reply, Session};

pub fn call_fresh() -> Session
    ensures { Fresh result }
{
    Session::fresh()
}

pub fn call_load(s: Session, batch: &[u8]) -> Reply
    ensures { Served s (exchange (on (load batch.now)) [] [] result) }
{
    s.load(batch)
}

pub fn call_withdraw(s: Session, batch: &[u8]) -> Reply
    ensures { Served s (exchange (on (withdraw batch.now)) [] [] result) }
{
    s.withdraw(batch)
}

pub fn call_close(s: Session) -> Reply
    ensures { Served s (exchange (on close) [] [] result) }
{
    s.close()
}

pub fn call_round(s: Session) -> Reply
    ensures { Served s (exchange (on round) [] [] result) }
{
    s.round()
}

pub fn call_reopen(s: Session) -> Reply
    ensures { Served s (exchange (on reopen) [] [] result) }
{
    s.reopen()
}

pub fn call_verdict(s: Session) -> Reply
    ensures { Served s (exchange (on verdict) [] [] result) }
{
    s.verdict()
}

pub fn call_print(s: Session, buffer: &mut [u8]) -> Reply
    ensures { Served s (exchange (on (print (length buffer.old)))
        buffer.old buffer.new result) }
{
    s.print(buffer)
}

pub fn call_save(s: Session, buffer: &mut [u8]) -> Reply
    ensures { Served s (exchange (on (save (length buffer.old)))
        buffer.old buffer.new result) }
{
    s.save(buffer)
}

pub fn call_expression(s: Session, buffer: &mut [u8]) -> Reply
    ensures { Served s (exchange (on (expression (length buffer.old)))
        buffer.old buffer.new result) }
{
    s.expression(buffer)
}

pub fn call_mark(s: Session, name: &[u8]) -> Reply
    ensures { Served s (exchange (mark name.now) [] [] result) }
{
    s.mark(name)
}

pub fn call_return(s: Session, name: &[u8]) -> Reply
    ensures { Served s (exchange (return_to name.now) [] [] result) }
{
    s.return_to(name)
}
