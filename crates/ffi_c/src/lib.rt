// The functions of `ffi` as a static library, for callers in C and Rust.
#![tactic(auto)]

ghost use Rattle.ffi.specs.Promise.{Called, CalledVerdict, CalledExpression, CalledHoa};

// Checks one batch. Returns the length of its sheet, which it writes; or 2^32 times the number of the refusal, whose place it
// writes to `place`, and leaves the buffer as it was.
#[unsafe(no_mangle)]
pub extern "C" fn gozhmerik_sheet(batch: &[u8], sheet: &mut [u8], place: &mut u64) -> u64
    ensures { Called batch.now sheet.old sheet.new
        place.old place.new result }
{
    ffi::gozhmerik_sheet(batch, sheet, place)
}

// The verdict of one batch: 1 where it is non-empty, 0 where it is empty; or 2^32 times the number of the refusal, whose place it writes
// to `place`.
#[unsafe(no_mangle)]
pub extern "C" fn gozhmerik_verdict(batch: &[u8], place: &mut u64) -> u64
    ensures { CalledVerdict batch.now place.old place.new result }
{
    ffi::gozhmerik_verdict(batch, place)
}

// The walk of one batch as an expression. Returns the length of the text, which it writes; or 2^32 times the number of the refusal, whose
// place it writes to `place`, and leaves the buffer as it was. A text longer than the bytes that are lent is refused as 12.
#[unsafe(no_mangle)]
pub extern "C" fn gozhmerik_expression(batch: &[u8], text: &mut [u8], place: &mut u64) -> u64
    ensures { CalledExpression batch.now text.old text.new
        place.old place.new result }
{
    ffi::gozhmerik_expression(batch, text, place)
}

// Converts one HOA file. Returns the length of the batch of its rows, which it writes; or 2^32 times the number of the refusal, whose place it
// writes to `place`, and leaves the buffer as it was.
#[unsafe(no_mangle)]
pub extern "C" fn gozhmerik_hoa(file: &[u8], batch: &mut [u8], place: &mut u64) -> u64
    ensures { CalledHoa file.now batch.old batch.new
        place.old place.new result }
{
    ffi::gozhmerik_hoa(file, batch, place)
}
