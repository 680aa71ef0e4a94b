// What the program `sheet` does. It is a library so that the gate can run the program on more than one input.
#![tactic(auto)]

use machine::LONGEST_BATCH;
use std::io;

// Reads one batch from standard input and writes its sheet, the line of its refusal, or `too long`.
pub fn run(rt: &(impl io::Input + Print + Eprint)) {
    let mut buffer = [0u8; LONGEST_BATCH + 1];
    program_input::answer_input(rt, &mut buffer, LONGEST_BATCH, |input| {
        let shown = checker::shown(input);
        rt.write_all(&shown.text[..shown.length])
    });
}
