// Writes the image of a book into a lent buffer: the header, then the assets, the entries and the players, record by record.
// A buffer that is too short is left untouched.
#![tactic(auto)]

ghost use Rattle.std.specs.Prelude.{◌≡◌, ℕ, List, ◌+◌, ◌*◌, ◌<◌, ◌≤◌, min, length, get_or, ◌++◌, MatchResult, OnErr};
ghost use Rattle.numbers.specs.Count.{joined};
ghost use Rattle.numbers.specs.Buffer.{lay};
ghost use Rattle.book.specs.Blank.{no_asset, no_entry, no_player};
ghost use Rattle.book.specs.declared.TheConstants.{NO_ROOM};
ghost use Rattle.image_pieces.specs.Pieces.{start_bytes, number_bytes, latest_bytes, asset-length, entry_length, player-length};
ghost use Rattle.model.specs.Image.{newest, header_size, asset_size, entry_size, player_size, asset_bytes, entry_bytes, player_bytes, image_length};
ghost use Rattle.model.specs.Image.{length_of, write_answer, write_buffer};

use book::{Asset, Book, Entry, Latest, NoRoom, Player, at_most_64};

// Copies src into buf at offset `at`, and returns the end offset.
fn put(buf: &mut [u8], at: usize, src: &[u8]) -> usize
    requires { at + length src.now ≤ length buf.old }
    ensures { (result ≡ at + length src.now) × (buf.new ≡ lay buf.old at src.now) }
{
    let end = at + src.len();
    buf[at..end].copy_from_slice(src);
    end
}

// The header, and then one record of each sort: the bytes, and the end offset.
fn put_header(buf: &mut [u8], assets: u8, entries: u8, time: u32, switch: u32, x: Latest) -> usize
    requires { header_size newest ≤ length buf.old }
    ensures value { result ≡ header_size newest }
    ensures buf_after { buf.new
        ≡ lay buf.old 0 (start_bytes assets entries time ++ number_bytes switch ++ latest_bytes x) }
{
    let start = image_pieces::header_bytes(assets, entries, time);
    let metered = image_pieces::number_bytes(switch);
    let latest = image_pieces::latest_bytes(x);
    let o = put(buf, 0, &start);
    let o = put(buf, o, &metered);
    put(buf, o, &latest)
}

fn put_asset(buf: &mut [u8], at: usize, a: Asset) -> usize
    requires { at + asset_size newest ≤ length buf.old }
    ensures { (result ≡ at + asset_size newest) × (buf.new ≡ lay buf.old at (asset_bytes a)) }
{
    let s = image_pieces::asset_bytes(a);
    put(buf, at, &s)
}

// Piece by piece: a further piece is a further `put`.
fn put_entry(buf: &mut [u8], at: usize, e: Entry) -> usize
    requires { at + entry_size newest ≤ length buf.old }
    ensures { (result ≡ at + entry_size newest) × (buf.new ≡ lay buf.old at (entry_bytes e)) }
{
    let l = e.limits;
    let m = e.meters;
    let limits = image_pieces::limits_bytes(l);
    let meters = image_pieces::meters_bytes(m);
    let track = image_pieces::track_bytes(l);
    let group = image_pieces::group_bytes(e);
    let o = put(buf, at, &limits);
    let o = put(buf, o, &meters);
    let o = put(buf, o, &track);
    put(buf, o, &group)
}

fn put_player(buf: &mut [u8], at: usize, p: Player) -> usize
    requires { at + player_size newest ≤ length buf.old }
    ensures { (result ≡ at + player_size newest) × (buf.new ≡ lay buf.old at (player_bytes p)) }
{
    let l = p.last;
    let c = p.current;
    let last = image_pieces::last_bytes(l);
    let current = image_pieces::open_bytes(c);
    let content = image_pieces::number_bytes(c.content);
    let o = put(buf, at, &last);
    let o = put(buf, o, &current);
    put(buf, o, &content)
}

// A record of a table: how many bytes it has, and which.
trait Record: Copy {
    ghost size: { ℕ };

    ghost bytes: { Self → List ℕ };

    ghost none: { Self };

    fn put(self, buf: &mut [u8], at: usize) -> usize
        requires { at + size ≤ length buf.old }
        ensures { (result ≡ at + size) × (buf.new ≡ lay buf.old at (bytes self)) };

    ghost even: { (x : Self) → length (bytes x) ≡ size };
}

impl Record for Asset {
    ghost size = { asset_size newest };

    ghost bytes = { asset_bytes };

    ghost none = { no_asset };

    fn put(self, buf: &mut [u8], at: usize) -> usize {
        put_asset(buf, at, self)
    }

    ghost even = { asset-length };
}

impl Record for Entry {
    ghost size = { entry_size newest };

    ghost bytes = { entry_bytes };

    ghost none = { no_entry };

    fn put(self, buf: &mut [u8], at: usize) -> usize {
        put_entry(buf, at, self)
    }

    ghost even = { entry_length };
}

impl Record for Player {
    ghost size = { player_size newest };

    ghost bytes = { player_bytes };

    ghost none = { no_player };

    fn put(self, buf: &mut [u8], at: usize) -> usize {
        put_player(buf, at, self)
    }

    ghost even = { player-length };
}

// A table: writes the first n records at offset `at`, and returns the end offset.
fn put_table<T: Record, const N: usize>(
    buf: &mut [u8],
    at: usize,
    table: &[T; N],
    n: usize,
) -> usize
    requires { (n ≤ N) × (at + T.size * n ≤ length buf.old) }
    ensures value { result ≡ at + T.size * n }
    ensures buf_after { buf.new ≡ lay buf.old at (joined (λ i. T.bytes (get_or table.now i T.none)) n) }
{
    let mut o = at;
    for i in 0..n {
        o = table[i].put(buf, o);
    }
    o
}

// How many bytes the image of a book with so many assets and entries has. The two counts stand for the book, which would be copied.
// Rules out: the room of a record left out, a count above 64 taken as it is.
pub fn image_length(assetcount: u8, entrycount: u8) -> usize
    ensures { result ≡ image_length newest (min assetcount 64) (min entrycount 64) }
{
    let a = at_most_64(assetcount);
    let n = at_most_64(entrycount);
    image_pieces::image_length(image_pieces::NEWEST, a as u8, n as u8)
}

// The length of the image, or Err if the buffer has no room for it. The contract rules out a writer that gives Err but
// has begun to write, and one that writes a byte past the image.
pub fn write(b: &Book, buf: &mut [u8]) -> Result<usize, NoRoom>
    ensures value { MatchResult result
        (λ n. (length_of b.now ≤ length buf.old) × (write_answer b.now (length buf.old) ≡ n))
        (λ _. (length buf.old < length_of b.now) × (write_answer b.now (length buf.old) ≡ NO_ROOM)) }
    ensures buf_after { buf.new ≡ write_buffer b.now buf.old }
    ensures kept { OnErr result (buf.new ≡ buf.old) }
{
    if buf.len() < image_length(b.assetcount, b.entrycount) {
        return Err(NoRoom);
    }
    let a = at_most_64(b.assetcount);
    let n = at_most_64(b.entrycount);
    let o = put_header(buf, a as u8, n as u8, b.time, b.switch, b.latest);
    let o = put_table(buf, o, &b.assets, a);
    let o = put_table(buf, o, &b.entries, n);
    Ok(put_table(buf, o, &b.players, 16))
}
