// The checker for callers in C and Rust: what `ffi_c` exports as a static library.
#![tactic(auto)]

ghost use Rattle.std.specs.Prelude.{◌≤◌, ◌≡◌};
ghost use Rattle.ffi.specs.Promise.{Called, CalledVerdict, lent, CalledExpression, CalledHoa};

use codes::code;

// The most bytes of a buffer that are lent for an expression: values of 2^32 and above are refusals, so a longer text could not be told from one.
const MOST_LENT: usize = 4294967295;

// Checks one batch. Returns the length of its sheet, which it writes; or 2^32 times the number of the refusal, whose place it
// writes to `place`, and leaves the buffer as it was.
#[tactic(auto, using(crate::proofs::Calling::called))]
pub fn gozhmerik_sheet(batch: &[u8], sheet: &mut [u8], place: &mut u64) -> u64
    ensures { Called batch.now sheet.old sheet.new
        place.old place.new result }
{
    code(checker::check(batch, sheet), place)
}

// The verdict of one batch: 1 where it is non-empty, 0 where it is empty; or 2^32 times the number of the refusal, whose place it writes
// to `place`.
#[tactic(auto, using(crate::proofs::Calling::called_verdict))]
pub fn gozhmerik_verdict(batch: &[u8], place: &mut u64) -> u64
    ensures { CalledVerdict batch.now place.old place.new result }
{
    code(checker::verdict(batch), place)
}

// The bytes that are lent of a buffer of that length.
fn lent(size: usize) -> usize
    ensures { (result ≡ lent size) × (result ≤ size) }
{
    size.min(MOST_LENT)
}

// The walk of one batch as an expression. Returns the length of the text, which it writes; or 2^32 times the number of the refusal, whose
// place it writes to `place`, and leaves the buffer as it was. A text longer than the bytes that are lent is refused as 12.
pub fn gozhmerik_expression(batch: &[u8], text: &mut [u8], place: &mut u64) -> u64
    ensures { CalledExpression batch.now text.old text.new
        place.old place.new result }
{
    let n = lent(text.len());
    code(checker::expression(batch, &mut text[..n]), place)
}

// Converts one HOA file. Returns the length of the batch of its rows, which it writes; or 2^32 times the number of the refusal, whose place it
// writes to `place`, and leaves the buffer as it was.
pub fn gozhmerik_hoa(file: &[u8], batch: &mut [u8], place: &mut u64) -> u64
    ensures { CalledHoa file.now batch.old batch.new
        place.old place.new result }
{
    code(hoa_files::convert(file, batch), place)
}
