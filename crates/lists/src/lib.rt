// Lists that are tested, kept without repeats and in order: definitions and their laws. Of code only what every crate above may copy with.
#![tactic(auto)]

ghost use Rattle.std.specs.Prelude.{◌≡◌, length};

// Writes elements over others. A loop: the library's `copy_from_slice` asks C for `memmove`, which the library for C does without.
pub fn write_over<T: Copy>(to: &mut [T], from: &[T])
    requires { length from.now ≡ length to.old }
    ensures len { length to.new ≡ length to.old }
    ensures after { to.new ≡ from.now }
{
    for i in 0..from.len() {
        to[i] = from[i];
    }
}
