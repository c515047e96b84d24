// The run program without a rights.rbk.
#![tactic(auto)]

fn main(rt: HostRuntime) {
    serve::serve(&rt);
}
