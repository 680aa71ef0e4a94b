// The function of `ffi_session` as a static library, for callers in C and Rust: what is timed of a session.
#![tactic(auto)]

ghost use Rattle.ffi_session.specs.Promise.{CalledSession};

// Makes calls on a fresh session, with one batch and one buffer of less than 2^32 bytes. Each byte of `calls` names one: l load, w withdraw,
// c close, r round, o reopen, v verdict, p print, s save, e expression; 1 to 4 mark under the names a to d, 5 to 8 return to them. Any other
// byte names none. Returns the code of the last answer, 0 where no call was made, and writes the place of a refusal to `place`.
#[unsafe(no_mangle)]
pub extern "C" fn gozhmerik_session(
    batch: &[u8],
    calls: &[u8],
    buffer: &mut [u8],
    place: &mut u64,
) -> u64
    ensures { CalledSession batch.now calls.now buffer.old buffer.new
        place.old place.new result }
{
    ffi_session::gozhmerik_session(batch, calls, buffer, place)
}
