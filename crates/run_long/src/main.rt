// The run program on a book of the greatest size and an input that takes several reads, with a record split between two of them and
// resends of events from the read before; the last record is cut short.
#![tactic(auto)]

fn main(rt: HostRuntime) {
    serve::serve(&rt);
}
