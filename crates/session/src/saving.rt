// The call save.
ghost use Rattle.std.specs.Prelude.{length};
ghost use Rattle.machine.specs.Calls.{save};
ghost use Rattle.machine.specs.Marks.{on};
ghost use Rattle.session.specs.Promise.{Ranged, Promised};

use crate::{Reply, Session};

impl Session {
    // The standing rows of a session into the buffer; nothing where the buffer is too short.
    fn save_rows(self, buffer: &mut [u8]) -> Reply
        requires { Ranged self }
        ensures { Promised self (on (save (length buffer.old)))
            buffer.old buffer.new result }
    {
        let keys = self.keys();
        self.answered(whole_sheet::saved::save(buffer, &keys.keys[..keys.count]))
    }

    // Save: the standing rows, in any phase.
    pub fn save(self, buffer: &mut [u8]) -> Reply
        ensures { Promised self (on (save (length buffer.old)))
            buffer.old buffer.new result }
    {
        match self.ranged() {
            Ok(_) => self.save_rows(buffer),
            Err(cause) => self.refuse(cause),
        }
    }
}
