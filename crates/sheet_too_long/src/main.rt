// The program `sheet` on input that is a byte longer than a batch may be.
#![tactic(auto)]

fn main(rt: HostRuntime) {
    sheet_run::run(&rt);
}
