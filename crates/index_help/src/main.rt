// The indexing program: asked for help. A crate of its own, since rt runs a program crate on one input.
#![tactic(auto)]

fn main(rt: HostRuntime) {
    intake::index(&rt);
}
