// Reads one batch from standard input and writes its sheet, the line of its refusal, or `too long`.
#![tactic(auto)]

fn main(rt: HostRuntime) {
    sheet_run::run(&rt);
}
