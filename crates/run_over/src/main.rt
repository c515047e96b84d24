// The run program on the book of `run_long` with one byte after it: 5,400 bytes, refused with 20, and no record is answered.
#![tactic(auto)]

fn main(rt: HostRuntime) {
    serve::serve(&rt);
}
