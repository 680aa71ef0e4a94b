// What the programs share: texts and numbers on standard output, and texts compared.
#![tactic(auto)]

ghost use Rattle.std.specs.Prelude.{◌≡◌, take, drop};
ghost use Rattle.lists.specs.Tests.{Decides};

// Are the two texts the same? Place by place: at `==` no fact would refuse an order or a prefix that is taken for it.
pub fn same(a: &[u8], b: &[u8]) -> bool
    ensures { Decides result (a.now ≡ b.now) }
{
    if a.len() != b.len() {
        return false;
    }
    for i in 0..a.len() {
        if a[i] != b[i] {
            return false;
        }
    }
    true
}

// The first bytes of a text; all of it where it has fewer.
pub fn first(text: &[u8], n: usize) -> &[u8]
    ensures { result.now ≡ take n text.now }
{
    text.get(..n).unwrap_or(text)
}

// What stands behind the first bytes of a text; nothing where it has no more.
pub fn beyond(text: &[u8], n: usize) -> &[u8]
    ensures { result.now ≡ drop n text.now }
{
    text.get(n..).unwrap_or(&[])
}

// Writes a text. A write that fails is passed over, here and below.
pub fn say(rt: &impl Print, text: &[u8]) {
    let _ = rt.write_all(text);
}

// Writes a number.
pub fn say_number(rt: &impl Print, n: u64) {
    let _ = rt.print(n);
}

// Writes a line: a name and a number.
pub fn say_count(rt: &impl Print, name: &[u8], n: u64) {
    say(rt, name);
    say_number(rt, n);
    say(rt, b"\n");
}

// Writes bytes in hex, where they are 6,400 at most: no sheet, no save and no batch of random has more.
pub fn say_hex(rt: &impl Print, bytes: &[u8]) {
    let mut text = [0u8; 12800];
    let n = commands::encode(bytes, &mut text);
    say(rt, &text[..n]);
}
