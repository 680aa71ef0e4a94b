// Runs stored scripts, each on a fresh session, and writes the name of each before its answers. Its arguments are the names of their files.
#![tactic(auto)]

use machine::LONGEST_BATCH;
use program_input::{LONGEST_PATH, argument, argument_count, open, read_full};
use program_output::say;
use std::rt::{Env, Files};

// Runs the script in the file that an argument names; of a file that cannot be read nothing is run.
fn run_script(rt: &(impl Env + Files + Print), index: usize) {
    let mut path = [0u8; LONGEST_PATH];
    let path = argument(rt, index, &mut path);
    say(rt, path);
    say(rt, b"\n");
    let mut text = [0u8; LONGEST_BATCH];
    let n = match open(rt, path) {
        Ok(mut file) => read_full(&mut file, &mut text),
        Err(_) => 0,
    };
    script::run_text(rt, &text[..n]);
}

fn main(rt: HostRuntime) {
    for index in 1..argument_count(&rt) {
        run_script(&rt, index);
    }
}
