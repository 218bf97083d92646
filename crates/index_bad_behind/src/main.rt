// The indexing program: 20,000 columns and a tab missing past the limit, in a later piece. A crate of its own, since rt runs a program crate on
// one input.
#![tactic(auto)]

fn main(rt: HostRuntime) {
    intake::index(&rt);
}
