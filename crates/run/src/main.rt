// The run program. Its stored case is the afternoon of document 01.
#![tactic(auto)]

fn main(rt: HostRuntime) {
    serve::serve(&rt);
}
