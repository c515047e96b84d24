// The library for servers written in C or Rust: the functions of crate `embed`, exported under their names. What each does stands there.
#![tactic(auto)]

ghost use Rattle.std.specs.Prelude.{◌≡◌, length};
ghost use Rattle.model.specs.Image.{read_code};
ghost use Rattle.encode.specs.Record.{record_bytes};
ghost use Rattle.fill.specs.Fill.{fill_code, filled};
ghost use Rattle.embed.specs.Calls.{answer_code, image_after, size_after, out_after, written_after, report_after};
ghost use Rattle.embed.specs.One.{one_result, one_image, one_size, one_code, one_entry, one_until, one_report};
ghost use Rattle.embed.specs.Seen.{book_code, book_out, asset_code, asset_out, entry_code, entry_out, player_code, player_out, left_code};
ghost use Rattle.embed.specs.Seen.{left_out, grounds_code, grounds_out};
ghost use Rattle.embed.specs.FromXml.{xml_code, xml_image, xml_size, xml_elements};

use book::Line;

#[unsafe(no_mangle)]
pub extern "C" fn rights_check(image: &[u8]) -> u8
    ensures { result ≡ read_code image.now }
{
    embed::rights_check(image)
}

#[unsafe(no_mangle)]
pub extern "C" fn rights_answer(
    image: &mut [u8],
    size: &mut u64,
    records: &[u8],
    out: &mut [u8],
    written: &mut u64,
    report: &mut [Line],
) -> u8
    ensures { (result ≡ answer_code
        image.old size.old report.old records.now (length out.old))
        × (image.new ≡ image_after
        image.old size.old report.old records.now (length out.old))
        × (size.new ≡ size_after
        image.old size.old report.old records.now (length out.old))
        × (out.new ≡ out_after
        image.old size.old report.old records.now out.old)
        × (written.new ≡ written_after
        image.old size.old report.old records.now (length out.old)
        written.old)
        × (report.new ≡ report_after
        image.old size.old report.old records.now (length out.old)) }
{
    embed::rights_answer(image, size, records, out, written, report)
}

#[unsafe(no_mangle)]
pub extern "C" fn rights_answer_one(
    image: &mut [u8],
    size: &mut u64,
    player: u8,
    number: u64,
    operation: u8,
    asset: u16,
    kind: u8,
    time: u32,
    code: &mut u8,
    entry: &mut u8,
    until: &mut u32,
    report: &mut [Line],
) -> u8
    ensures { (result ≡ one_result
        image.old size.old report.old (record_bytes player number operation asset kind time))
        × (image.new ≡ one_image
        image.old size.old report.old (record_bytes player number operation asset kind time))
        × (size.new ≡ one_size
        image.old size.old report.old (record_bytes player number operation asset kind time))
        × (code.new ≡ one_code
        image.old size.old report.old (record_bytes player number operation asset kind time)
        code.old)
        × (entry.new ≡ one_entry
        image.old size.old report.old (record_bytes player number operation asset kind time)
        entry.old)
        × (until.new ≡ one_until
        image.old size.old report.old (record_bytes player number operation asset kind time)
        until.old)
        × (report.new ≡ one_report
        image.old size.old report.old (record_bytes player number operation asset kind time)) }
{
    embed::rights_answer_one(
        image, size, player, number, operation, asset, kind, time, code, entry, until, report,
    )
}

#[unsafe(no_mangle)]
pub extern "C" fn rights_record(
    player: u8,
    number: u64,
    operation: u8,
    asset: u16,
    kind: u8,
    time: u32,
    out: &mut [u8],
) -> u8
    ensures value { result ≡ fill_code (record_bytes player number operation asset kind time) (length out.old) }
    ensures out_after { out.new ≡ filled (record_bytes player number operation asset kind time) out.old }
{
    embed::rights_record(player, number, operation, asset, kind, time, out)
}

#[unsafe(no_mangle)]
pub extern "C" fn rights_book(image: &[u8], out: &mut [u32]) -> u8
    ensures value { result ≡ book_code image.now (length out.old) }
    ensures out_after { out.new ≡ book_out image.now out.old }
{
    embed::rights_book(image, out)
}

#[unsafe(no_mangle)]
pub extern "C" fn rights_entry(image: &[u8], position: u32, out: &mut [u32]) -> u8
    ensures value { result ≡ entry_code image.now position (length out.old) }
    ensures out_after { out.new ≡ entry_out image.now position out.old }
{
    embed::rights_entry(image, position, out)
}

#[unsafe(no_mangle)]
pub extern "C" fn rights_asset(image: &[u8], position: u32, out: &mut [u32]) -> u8
    ensures value { result ≡ asset_code image.now position (length out.old) }
    ensures out_after { out.new ≡ asset_out image.now position out.old }
{
    embed::rights_asset(image, position, out)
}

#[unsafe(no_mangle)]
pub extern "C" fn rights_player(image: &[u8], player: u32, out: &mut [u32]) -> u8
    ensures value { result ≡ player_code image.now player (length out.old) }
    ensures out_after { out.new ≡ player_out image.now player out.old }
{
    embed::rights_player(image, player, out)
}

#[unsafe(no_mangle)]
pub extern "C" fn rights_left(image: &[u8], position: u32, time: u32, out: &mut [u32]) -> u8
    ensures value { result ≡ left_code image.now position time (length out.old) }
    ensures out_after { out.new ≡ left_out image.now position time out.old }
{
    embed::rights_left(image, position, time, out)
}

#[unsafe(no_mangle)]
pub extern "C" fn rights_grounds(
    image: &[u8],
    position: u32,
    player: u8,
    time: u32,
    out: &mut [u32],
) -> u8
    ensures value { result ≡ grounds_code image.now position player time (length out.old) }
    ensures out_after { out.new ≡ grounds_out image.now position player time out.old }
{
    embed::rights_grounds(image, position, player, time, out)
}

#[unsafe(no_mangle)]
pub extern "C" fn rights_from_xml(
    text: &[u8],
    image: &mut [u8],
    size: &mut u64,
    elements: &mut u64,
) -> u8
    ensures value { result ≡ xml_code text.now image.old }
    ensures image_after { image.new ≡ xml_image text.now image.old }
    ensures size_after { size.new ≡ xml_size text.now image.old size.old }
    ensures elements_after { elements.new ≡ xml_elements text.now image.old elements.old }
{
    embed::rights_from_xml(text, image, size, elements)
}
