// The scan of an XML text: bytes, runs of a class, attributes, tags and units, each proved equal to its definition in xml_model for
// every text and every place. A place behind the end of the text is allowed everywhere.
#![tactic(auto)]

ghost use Rattle.std.specs.Prelude.{◌≡◌, not, position, true, false, ◌-◌, ◌≤◌, ◌<◌, length, MatchOption};
ghost use Rattle.xml_model.specs.Bytes.{byte_at, part, is_name_start, in_class, run_end, bare, is_mark, stuck, looked};
ghost use Rattle.xml_model.specs.Tags.{value_at, equals_at, attribute_at, given, empty_tail, tail_of, look, end_tag, start_tag, tag_at};
ghost use Rattle.xml_model.specs.Tags.{unit_at};
ghost use Rattle.xml_model.specs.Codes.{IsFault, IsAttribute, IsTail, IsTag, no_range};
ghost use Rattle.xml_model.specs.State.{same_range};
ghost use Rattle.xml_scan.specs.Classes.{class_code, class_bit, is_quote};

mod class_table;

use class_table::{CLASSES, DIGIT, DOUBLE, NAME, NAME_START, SINGLE, SPACE, TEXT};
use numbers::pick;
use xml_model::{Attribute, Fault, Form, Range, Tag, Tail, TextError};

// A class of bytes that a run can have. The class of a quote is what may stand between two of them.
#[derive(Clone, Copy, Debug, PartialEq, Eq)]
pub enum Class {
    Spaces,
    Names,
    Texts,
    Digits,
    Double,
    Single,
}

// ## Bytes

// The byte at i, 256 at the end of the text.
// Rules out: a byte 0 behind the end, the byte before i.
#[tactic(auto, unfolding(xml_model::specs::Bytes::byte_at))]
pub fn byte_at(s: &[u8], i: usize) -> u16
    ensures { result ≡ byte_at s.now i }
{
    if i < s.len() { s[i] as u16 } else { 256 }
}

// The bit of a class in the table.
fn bit_of(class: Class) -> u8
    ensures { result ≡ class_bit class }
{
    match class {
        Class::Spaces => SPACE,
        Class::Names => NAME,
        Class::Texts => TEXT,
        Class::Digits => DIGIT,
        Class::Double => DOUBLE,
        Class::Single => SINGLE,
    }
}

fn in_class(class: Class, c: u8) -> bool
    ensures { result ≡ in_class (class_code class) c }
{
    CLASSES[c as usize] & bit_of(class) != 0
}

// Whether a name can start with the byte.
fn is_name_start(c: u8) -> bool
    ensures { result ≡ is_name_start c }
{
    CLASSES[c as usize] & NAME_START != 0
}

fn first_outside(class: Class, s: &[u8]) -> Option<usize>
    ensures { result ≡ position (λ x. not (in_class (class_code class) x)) s.now }
{
    s.iter().position(|c| !in_class(class, *c))
}

// The end of the run of bytes of a class that starts at `from`.
// Rules out: the place of the last byte of the run, a run that goes on behind a byte of another class.
pub fn run_end(s: &[u8], class: Class, from: usize) -> usize
    ensures { result ≡ run_end (class_code class) s.now from }
{
    let Some(rest) = s.get(from..) else {
        return from;
    };
    from + first_outside(class, rest).unwrap_or(rest.len())
}

// Whether only white space stands from a to b.
// Rules out: true if a letter stands there, false for no byte at all.
#[tactic(auto, unfolding(xml_model::specs::Bytes::bare))]
pub fn is_bare(s: &[u8], a: usize, b: usize) -> bool
    ensures { result ≡ bare s.now a b }
{
    let end = run_end(s, Class::Spaces, a);
    b <= end
}

#[tactic(auto, unfolding(xml_model::specs::Bytes::is_mark, xml_model::specs::Bytes::byte_at))]
fn is_mark(s: &[u8], i: usize) -> bool
    ensures { result ≡ is_mark s.now i }
{
    let c = byte_at(s, i);
    if i < s.len() {
        let d = byte_at(s, i + 1);
        (c == 38) | (c == 60) & ((d == 33) | (d == 63))
    } else {
        false
    }
}

// How far the text is looked at to tell what is wrong where no rule allows the byte at i.
#[tactic(auto, unfolding(xml_model::specs::Bytes::looked))]
fn looked(s: &[u8], i: usize) -> usize
    ensures { result ≡ looked s.now i }
{
    let n = s.len();
    if i < n {
        let c = byte_at(s, i);
        return pick(c == 60, i + 2, i + 1);
    }
    n + 1
}

// What is wrong where no rule allows the byte at i.
// Rules out: 40 for `&`, 41 for the end of the text; a place that grows with i behind the end.
#[tactic(auto, unfolding(xml_model::specs::Bytes::stuck))]
pub fn stuck(s: &[u8], i: usize) -> Fault
    ensures { IsFault result (stuck s.now i) (looked s.now i) }
{
    let error = pick(is_mark(s, i), TextError::Unaccepted, TextError::Malformed);
    let at = looked(s, i);
    Fault { error, at }
}

// Whether the bytes from a to b are those from x to y.
// Rules out: true for two ranges of which one is longer, false for a range with itself.
pub fn same_range(s: &[u8], a: usize, b: usize, x: usize, y: usize) -> bool
    ensures { result ≡ same_range s.now a b x y }
{
    let n = b.saturating_sub(a);
    if n != y.saturating_sub(x) {
        return false;
    }
    for i in 0..n {
        if byte_at(s, a + i) != byte_at(s, x + i) {
            return false;
        }
    }
    true
}

// ## Attributes

// A quote's class.
fn quote_of(c: u16) -> Option<Class>
    ensures { MatchOption result (is_quote c ≡ false) (λ k. (is_quote c ≡ true) × (class_code k ≡ c)) }
{
    match c {
        34 => Some(Class::Double),
        39 => Some(Class::Single),
        _ => None,
    }
}

#[tactic(auto, unfolding(xml_model::specs::Tags::value_at, xml_model::specs::Tags::stuck_attribute))]
fn value_at(s: &[u8], i: usize, e: usize, v: usize) -> Result<Attribute, Fault>
    ensures { IsAttribute result (value_at s.now i e v) }
{
    let q = byte_at(s, v);
    let Some(quote) = quote_of(q) else {
        return Err(stuck(s, v));
    };
    let z = run_end(s, quote, v + 1);
    if byte_at(s, z) != q {
        return Err(stuck(s, z));
    }
    Ok(Attribute {
        name: i,
        end: e,
        from: v + 1,
        to: z,
    })
}

#[tactic(auto, unfolding(xml_model::specs::Tags::equals_at, xml_model::specs::Tags::stuck_attribute))]
fn equals_at(s: &[u8], i: usize, e: usize, q: usize) -> Result<Attribute, Fault>
    ensures { IsAttribute result (equals_at s.now i e q) }
{
    if byte_at(s, q) != 61 {
        return Err(stuck(s, q));
    }
    let v = run_end(s, Class::Spaces, q + 1);
    value_at(s, i, e, v)
}

#[tactic(auto, unfolding(xml_model::specs::Bytes::byte_at))]
fn name_starts(s: &[u8], i: usize) -> bool
    ensures { result ≡ is_name_start (byte_at s.now i) }
{
    i < s.len() && is_name_start(s[i])
}

// Inlined for speed where a tag has many attributes, as `is_given` is kept apart for it (docs/LOOK-BACK.md, d5).
#[tactic(auto, unfolding(xml_model::specs::Tags::attribute_at, xml_model::specs::Tags::stuck_attribute))]
#[inline(always)]
fn attribute_at(s: &[u8], i: usize) -> Result<Attribute, Fault>
    ensures { IsAttribute result (attribute_at s.now i) }
{
    if !name_starts(s, i) {
        return Err(stuck(s, i));
    }
    let e = run_end(s, Class::Names, i);
    let q = run_end(s, Class::Spaces, e);
    equals_at(s, i, e, q)
}

// Whether one of the attributes from `first` on and before p has the name that stands from n to e.
#[inline(never)]
fn is_given(s: &[u8], first: usize, p: usize, n: usize, e: usize) -> bool
    requires { (n ≤ e) × (e ≤ length s.now) }
    ensures { result ≡ given s.now p (part s.now n e) first }
{
    let mut j = first;
    // Each turn goes on behind the attribute before it: nothing is counted.
    while j < p {
        let i = run_end(s, Class::Spaces, j);
        let Ok(a) = attribute_at(s, i) else {
            return false;
        };
        let x = a.name;
        let y = a.end;
        if &s[n..e] == &s[x..y] {
            return true;
        }
        j = a.to + 1;
    }
    false
}

// The value of the attribute `name` of a tag whose attributes start at `first`.
// Rules out: the value of an attribute whose name only starts like this one, that of another tag.
pub fn look<'a>(s: &'a [u8], name: &'a [u8], first: usize) -> Option<Range>
    ensures { MatchOption result (look s.now name.now first ≡ no_range) (λ r. (look s.now name.now first ≡ r) × (0 < r.from)) }
{
    let mut j = first;
    loop {
        let i = run_end(s, Class::Spaces, j);
        let Ok(a) = attribute_at(s, i) else {
            return None;
        };
        let x = a.name;
        let y = a.end;
        if name == &s[x..y] {
            return Some(Range {
                from: a.from,
                to: a.to,
            });
        }
        j = a.to + 1;
    }
}

// ## Tags

// A `/` stands at g.
#[tactic(auto, unfolding(xml_model::specs::Tags::empty_tail, xml_model::specs::Tags::tailed))]
fn empty_tail(s: &[u8], g: usize) -> Result<Tail, Fault>
    requires { g < length s.now }
    ensures { IsTail result (empty_tail s.now g) }
{
    if byte_at(s, g + 1) != 62 {
        return Err(stuck(s, g + 1));
    }
    Ok(Tail {
        form: Form::Empty,
        next: g + 2,
    })
}

// What follows a tag's name, which ends at `first`.
fn tail_of(s: &[u8], first: usize) -> Result<Tail, Fault>
    ensures { IsTail result (tail_of s.now first) }
{
    let mut j = first;
    loop {
        let g = run_end(s, Class::Spaces, j);
        let b = byte_at(s, g);
        if b == 62 {
            return Ok(Tail {
                form: Form::Open,
                next: g + 1,
            });
        }
        if b == 47 {
            return empty_tail(s, g);
        }
        if g == j {
            return Err(stuck(s, g));
        }
        let a = attribute_at(s, g)?;
        let next = a.to + 1;
        if is_given(s, first, j, a.name, a.end) {
            return Err(Fault {
                error: TextError::Malformed,
                at: next,
            });
        }
        j = next;
    }
}

// The name of the end tag at `at` ends at e.
#[tactic(auto, unfolding(xml_model::specs::Tags::end_tag, xml_model::specs::Tags::stuck_tag))]
fn end_tag(s: &[u8], from: usize, at: usize, e: usize) -> Result<Tag, Fault>
    requires { at < length s.now }
    ensures { IsTag result (end_tag s.now from at e) }
{
    let g = run_end(s, Class::Spaces, e);
    if byte_at(s, g) != 62 {
        return Err(stuck(s, g));
    }
    Ok(Tag {
        form: Form::End,
        from,
        at,
        name: at + 2,
        end: e,
        next: g + 1,
    })
}

// The name of the tag at `at` ends at e.
#[tactic(auto, unfolding(xml_model::specs::Tags::start_tag))]
fn start_tag(s: &[u8], from: usize, at: usize, e: usize) -> Result<Tag, Fault>
    requires { at < length s.now }
    ensures { IsTag result (start_tag s.now from at e) }
{
    let x = tail_of(s, e)?;
    Ok(Tag {
        form: x.form,
        from,
        at,
        name: at + 1,
        end: e,
        next: x.next,
    })
}

// A `<` stands at `at`.
fn tag_at(s: &[u8], from: usize, at: usize) -> Result<Tag, Fault>
    requires { at < length s.now }
    ensures { IsTag result (tag_at s.now from at) }
{
    let ends = byte_at(s, at + 1) == 47;
    let a = pick(ends, at + 2, at + 1);
    if !name_starts(s, a) {
        return Err(stuck(s, a));
    }
    let e = run_end(s, Class::Names, a);
    if ends {
        return end_tag(s, from, at, e);
    }
    start_tag(s, from, at, e)
}

// The unit that starts at i: the text up to the next `<`, and the tag there.
// Rules out: a tag for one with an attribute twice, a comment read as a tag, a unit that ends within an attribute's value.
#[tactic(auto, unfolding(xml_model::specs::Tags::unit_at, xml_model::specs::Tags::stuck_tag))]
pub fn unit_at(s: &[u8], i: usize) -> Result<Tag, Fault>
    ensures { IsTag result (unit_at s.now i) }
{
    let at = run_end(s, Class::Texts, i);
    if (byte_at(s, at) != 60) | is_mark(s, at) {
        return Err(stuck(s, at));
    }
    tag_at(s, i, at)
}
