// A text into a lent buffer, or the refusal of a buffer that is too short for it.
ghost use Rattle.std.specs.Prelude.{◌≤◌, length};
ghost use Rattle.lists.specs.Tests.{Decides};
ghost use Rattle.machine.specs.Calls.{TellsText};

use causes::Cause;
use machine::{Answer, Refusal, Success};
use sheet_lines::Line;
use texts::Written;

// A text that is measured before it is written.
pub trait Told: Written {
    // Has a buffer of this size room for it?
    fn fits(&self, size: usize) -> bool
        ensures { Decides result (length (Self.text_of self.now) ≤ size) };

    // Into the buffer; nothing where the buffer is too short.
    final fn tell(&self, buffer: &mut [u8]) -> Answer
        ensures { TellsText (Self.text_of self.now) buffer.old buffer.new result }
    {
        if !self.fits(buffer.len()) {
            return Err(Refusal {
                cause: Cause::ShortBuffer,
                place: 0,
            });
        }
        Ok(Success::Wrote(self.put(buffer)))
    }
}

impl Told for Line {
    fn fits(&self, size: usize) -> bool {
        self.len() <= size
    }
}
