// The run program on two events and five bytes of a third.
#![tactic(auto)]

fn main(rt: HostRuntime) {
    serve::serve(&rt);
}
