// An event's six numbers as the 17 bytes of a record.
#![tactic(auto)]

ghost use Rattle.std.specs.Prelude.{◌≡◌};
ghost use Rattle.numbers.specs.Fields.{laid_out};
ghost use Rattle.model.specs.Record.{record_widths};
ghost use Rattle.encode.specs.Record.{record_values};

use book::RECORD_SIZE;

// An event as the numbers of its record, legal or not.
#[derive(Clone, Copy, Debug, PartialEq, Eq)]
pub struct RawEvent {
    pub player: u8,
    pub number: u64,
    pub operation: u8,
    pub asset: u16,
    pub kind: u8,
    pub time: u32,
}

// Rules out: two fields swapped, the bytes of a number in another order.
pub fn record_bytes(e: RawEvent) -> [u8; RECORD_SIZE]
    ensures { result ≡ laid_out record_widths
        (record_values e.player e.number e.operation e.asset e.kind e.time) }
{
    let [n0, n1, n2, n3, n4, n5, n6, n7] = e.number.to_be_bytes();
    let [a0, a1] = e.asset.to_be_bytes();
    let [t0, t1, t2, t3] = e.time.to_be_bytes();
    [
        e.player,
        n0,
        n1,
        n2,
        n3,
        n4,
        n5,
        n6,
        n7,
        e.operation,
        a0,
        a1,
        e.kind,
        t0,
        t1,
        t2,
        t3,
    ]
}
