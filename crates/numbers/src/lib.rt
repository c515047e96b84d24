// One of two values by a test, a test as a number, and the bits of a mask.
#![tactic(auto)]

ghost use Rattle.std.specs.Prelude.{◌≡◌, cond, ◌^◌, ◌<◌};
ghost use Rattle.numbers.specs.Bits.{ones, put_bit};
ghost use Rattle.numbers.specs.Count.{one};

// Rules out: the two swapped, the first whatever the test.
pub fn pick<T: Copy>(w: bool, a: T, b: T) -> T
    ensures { result ≡ cond w a b }
{
    if w { a } else { b }
}

// 1 if the test passes, 0 if it fails.
// Rules out: 0 and 1 swapped, always 1.
pub fn one(w: bool) -> u8
    ensures { result ≡ one w }
{
    u8::from(w)
}

// How many of the 16 bits of a mask are set.
// Rules out: bits above the 16 counted, the last bit left out.
pub fn ones(m: u32) -> u32
    ensures { result ≡ ones m }
{
    let mut n: u32 = 0;
    for p in 0..16u32 {
        n = n + (m >> p) % 2;
    }
    n
}

fn weight(p: u32) -> u32
    requires { p < 16 }
    ensures { result ≡ 2 ^ p }
{
    1 << p
}

// The 16 bits of a mask, with bit p as told.
// Rules out: a bit added that is set already, another bit lost, a bit above the 16.
pub fn with_bit(m: u32, p: u8, on: bool) -> u32
    ensures { result ≡ put_bit p on m }
{
    let low = m % 65536;
    let k = p as u32;
    if 16 <= k {
        return low;
    }
    let w = weight(k);
    let rest = low - pick(low / w % 2 == 1, w, 0);
    rest + pick(on, w, 0)
}
