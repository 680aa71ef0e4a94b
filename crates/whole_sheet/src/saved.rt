// The rows of a table, written from their keys into a lent buffer as one batch.
ghost use Rattle.std.specs.Prelude.{◌≡◌, ◌≤◌, length};
ghost use Rattle.lists.specs.Writing.{Wrote};
ghost use Rattle.rows.specs.Rows.{batch_of};
ghost use Rattle.machine.specs.Calls.{TellsText};
ghost use Rattle.whole_sheet.specs.Saving.{rows_of};

use crate::told::Told;
use machine::Answer;
use rows::Row;
use sorted_keys::Key;
use texts::Written;

// Writes the rows of the keys one after another.
fn put_rows(buf: &mut [u8], keys: &[Key]) -> usize
    requires { length (batch_of (rows_of keys.now)) ≤ length buf.old }
    ensures { Wrote (batch_of (rows_of keys.now)) buf.old buf.new result }
{
    let mut at = 0;
    for key in keys {
        at = Row::of_key(*key).put_at(buf, at);
    }
    at
}

// The rows of keys, one after another.
#[derive(Clone, Copy)]
struct Batch<'a> {
    keys: &'a [Key],
    ghost few: { length keys.now ≤ 256 },
}

impl<'a> Written for Batch<'a> {
    ghost text_of = { λ b. batch_of (rows_of b.keys.now) };

    fn put(&self, buf: &mut [u8]) -> usize {
        put_rows(buf, self.keys)
    }
}

impl<'a> Told for Batch<'a> {
    fn fits(&self, size: usize) -> bool {
        let mut len = 0;
        for key in self.keys {
            len += Row::of_key(*key).len();
        }
        len <= size
    }
}

// The rows of the keys into the buffer; nothing where the buffer is too short.
pub fn save(buffer: &mut [u8], keys: &[Key]) -> Answer
    requires { length keys.now ≤ 256 }
    ensures { TellsText (batch_of (rows_of keys.now)) buffer.old buffer.new result }
{
    Batch { keys }.tell(buffer)
}
