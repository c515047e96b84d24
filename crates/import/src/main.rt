// The import program: a rights object in XML on standard input, the image of its fresh book on standard output, and the line
// `code elements` on standard error. A text that is refused leaves standard output empty.
#![tactic(auto)]

use std::io;
use std::rt::Clock;
use xml_image::{ImportError, Imported};

// One byte more than the longest text that the program takes: these bytes are enough to refuse a longer one.
const TEXT: usize = 4194305;

const IMAGE: usize = 5399;

fn explain(rt: &impl Eprint) {
    let _ = eprintln!(rt;
        "import takes no argument. It reads a rights object in XML from standard input: import < rights.xml > rights.rbk"
    );
}

fn too_long(rt: &impl Eprint) {
    let _ = eprintln!(rt; "import: the text is longer than 4194304 bytes");
}

// The line `code elements`.
fn report(rt: &impl Eprint, code: u8, elements: u16) {
    let _ = eprintln!(rt; "{code} {elements}");
}

// The first n bytes of the text, which are there.
fn import_first(text: &[u8], n: usize, image: &mut [u8]) -> Result<Imported, ImportError> {
    xml_image::import_text(text.get(..n).unwrap_or(text), image)
}

// Writes the image before the line, so that whoever reads the line has the image.
fn answer(rt: &(impl Clock + Eprint + Print), text: &[u8], n: usize) {
    let mut image = [0u8; IMAGE];
    match import_first(text, n, &mut image) {
        Ok(r) => {
            if stream::send_first(
                rt,
                &mut io::writer(rt),
                b"standard output",
                &image,
                r.length,
            ) {
                report(rt, 0, r.elements);
            }
        }
        Err(e) => report(rt, u8::from(e), 0),
    }
}

fn import_into(rt: &(impl Clock + Eprint + Input + Print), text: &mut [u8; TEXT]) {
    if let Some(n) = stream::read_all(rt, &mut rt.reader(), b"standard input", text) {
        if n < TEXT {
            answer(rt, text, n);
        } else {
            too_long(rt);
        }
    }
}

fn import(rt: &(impl Clock + Eprint + Input + Print)) {
    let mut text = [0u8; TEXT];
    import_into(rt, &mut text);
}

fn main(rt: HostRuntime) {
    if stream::has_argument(&rt) {
        explain(&rt);
        return;
    }
    import(&rt);
}
