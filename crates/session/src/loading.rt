// The calls load and withdraw.
ghost use Rattle.std.specs.Prelude.{[], Ok};
ghost use Rattle.machine.specs.declared.Phase.TheVariants.{Open};
ghost use Rattle.machine.specs.Calls.{load, withdraw};
ghost use Rattle.machine.specs.Marks.{on};
ghost use Rattle.session.specs.Promise.{HasPhase, Promised};

use crate::{Reply, Session};
use causes::Cause;
use machine::Phase;

impl Session {
    // The batch into the table of an open session: all its rows or none.
    fn load_open(self, batch: &[u8]) -> Reply
        requires { HasPhase self (Ok Open) }
        ensures { Promised self (on (load batch.now)) [] [] result }
    {
        let mut keys = self.keys();
        let mut sets = self.row_sets();
        match bulk_load::load_rows(&mut keys, &mut sets, batch) {
            Ok(()) => self.with_table(&keys, sets).done(),
            Err(refusal) => self.answered(Err(refusal)),
        }
    }

    // The batch out of the table of an open session: all its rows or none.
    fn withdraw_open(self, batch: &[u8]) -> Reply
        requires { HasPhase self (Ok Open) }
        ensures { Promised self (on (withdraw batch.now)) [] [] result }
    {
        let mut keys = self.keys();
        match row_table::withdraw_rows(&mut keys, batch) {
            Ok(()) => self
                .with_table(&keys, row_table::collect_sets(&keys))
                .done(),
            Err(refusal) => self.answered(Err(refusal)),
        }
    }

    // Load: the rows of the batch stand then too.
    pub fn load(self, batch: &[u8]) -> Reply
        ensures { Promised self (on (load batch.now)) [] [] result }
    {
        match self.ranged() {
            Ok(Phase::Open) => self.load_open(batch),
            Ok(Phase::Running) => self.refuse(Cause::NotOpen),
            Ok(Phase::Settled(_)) => self.refuse(Cause::NotOpen),
            Err(cause) => self.refuse(cause),
        }
    }

    // Withdraw: the rows of the batch stand no more.
    pub fn withdraw(self, batch: &[u8]) -> Reply
        ensures { Promised self (on (withdraw batch.now)) [] [] result }
    {
        match self.ranged() {
            Ok(Phase::Open) => self.withdraw_open(batch),
            Ok(Phase::Running) => self.refuse(Cause::NotOpen),
            Ok(Phase::Settled(_)) => self.refuse(Cause::NotOpen),
            Err(cause) => self.refuse(cause),
        }
    }
}
