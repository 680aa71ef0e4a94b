// The session at its limits, in every refusal of the table, and on records that no calls make.
#![tactic(auto)]

mod records;

fn main(rt: HostRuntime) {
    script::run(&rt, true);
    records::run(&rt);
}
