// Reads one HOA file from standard input and writes its rows as a batch, the line of its refusal, or `too long`.
#![tactic(auto)]

use hoa_files::LONGEST_FILE;

fn main(rt: HostRuntime) {
    let mut buffer = [0u8; LONGEST_FILE + 1];
    program_input::answer_input(&rt, &mut buffer, LONGEST_FILE, |input| {
        let shown = hoa_files::shown(input);
        let text = shown.text;
        rt.write_all(&text[..shown.length])
    });
}
