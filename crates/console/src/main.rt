// A session at the keyboard or in a script.
#![tactic(auto)]

fn main(rt: HostRuntime) {
    script::run(&rt, false);
}
