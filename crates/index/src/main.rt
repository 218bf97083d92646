// The indexing program: two rows as text in, the list of what they show out. `index --help` says how.
#![tactic(auto)]

fn main(rt: HostRuntime) {
    intake::index(&rt);
}
