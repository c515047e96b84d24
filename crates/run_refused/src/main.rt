// The run program on a rights.rbk with an entry of kind 9, which is refused with 25.
#![tactic(auto)]

fn main(rt: HostRuntime) {
    serve::serve(&rt);
}
