// The reading of a text by two functions that call each other, the element reader and the contents reader: the remaining depth
// falls with every level.
#![tactic(auto)]

ghost use Rattle.std.specs.Prelude.{◌≡◌, ◌≤◌, false, length, Ok, MatchOption, OnErr};
ghost use Rattle.xml_model.specs.Codes.{as_tag};
ghost use Rattle.xml_model.specs.State.{as_done, closing, counted};
ghost use Rattle.xml_model.specs.Tags.{unit_at};
ghost use Rattle.xml_model.specs.Text.{frame, ended, finish, root, progress_of, reading_of};
ghost use Rattle.xml_table.specs.Codes.{role_code};
ghost use Rattle.xml_read.specs.Nesting.{child_at, entering, opening_tag, empty_tag, reached, Element, Contents};
ghost use Rattle.xml_read.specs.Results.{accepts, as_place, as_progress, as_reading};

use book::Book;
use xml_model::{Fault, Form, State, Tag, TextError};
use xml_scan::{Class, byte_at, is_bare, run_end, same_range, stuck, unit_at};
use xml_state::{closing, opening};
use xml_steps::{blank_state, counted};
use xml_table::{Child, Name, Role, child_of, holds_anything, name_of};

// "to depth 12, rights being 1"
const MOST_DEEP: u8 = 12;

// A place up to which the text is read, and what has been read.
#[derive(Clone, Copy)]
struct Progress {
    at: usize,
    state: State,
}

// What an accepted text holds: the number of its elements, and the book.
#[derive(Clone, Copy, Debug, PartialEq, Eq)]
pub struct Reading {
    pub elements: u16,
    pub book: Book,
}

// What a step gives at a tag that ends at `at`. The state is put where it is lent, and a fault leaves that as it was.
#[tactic(auto, unfolding(crate::specs::Nesting::reached, xml_model::specs::State::ok, xml_model::specs::State::no))]
fn reached(at: usize, done: Result<State, TextError>, st: &mut State) -> Result<usize, Fault>
    ensures value { as_place result st.new ≡ reached at (as_done done) }
    ensures kept { OnErr result (st.new ≡ st.old) }
{
    match done {
        Ok(state) => {
            *st = state;
            Ok(at)
        }
        Err(error) => Err(Fault { error, at }),
    }
}

// The child whose first tag is t, in an open element of that role and state.
#[tactic(auto, unfolding(crate::specs::Nesting::child_at))]
fn child_at(s: &[u8], t: Tag, role: Role, state: u8) -> Option<Child>
    requires { (t.name ≤ t.end) × (t.end ≤ length s.now) }
    ensures { MatchOption result
        ((child_at s.now (as_tag t) (role_code role) state).accepted ≡ false)
        (λ c. child_at s.now (as_tag t) (role_code role) state ≡ accepts (role_code c.role) c.state) }
{
    if holds_anything(role) {
        return Some(Child {
            role: Role::Skipped,
            state,
        });
    }
    if !is_bare(s, t.from, t.at) {
        return None;
    }
    child_of(role, state, name_of(&s[t.name..t.end]))
}

// The first tag of an element, but for its count. What a KeyInfo holds is only counted.
#[tactic(auto, unfolding(crate::specs::Nesting::entering))]
fn entering(s: &[u8], t: Tag, role: Role, st: State) -> Result<State, TextError>
    ensures { as_done result ≡ entering s.now (as_tag t) (role_code role) st }
{
    if role == Role::Skipped {
        return Ok(st);
    }
    opening(s, t, u8::from(role), st)
}

// The same, on the state where it is lent. This and the next function are not inlined: the state is large, and their copies of it are
// off the stack again before the next level of elements.
#[inline(never)]
fn enter(s: &[u8], t: Tag, role: Role, st: &mut State) -> Result<usize, Fault>
    ensures { as_place result st.new ≡ reached t.next (entering s.now (as_tag t) (role_code role) st.old) }
{
    reached(t.next, entering(s, t, role, *st), st)
}

// The last tag of an element, which ends at `at`, with the text from a to b in front of it; its children have led to that state.
#[inline(never)]
fn close(
    s: &[u8],
    a: usize,
    b: usize,
    at: usize,
    role: Role,
    state: u8,
    st: &mut State,
) -> Result<usize, Fault>
    ensures { as_place result st.new ≡ reached at (closing s.now a b (role_code role) state st.old) }
{
    reached(at, closing(s, a, b, u8::from(role), state, *st), st)
}

// One element more, at a tag that ends at `at`.
fn count(at: usize, st: &mut State) -> Result<usize, Fault>
    ensures { as_place result st.new ≡ reached at (counted st.old) }
{
    reached(at, counted(*st), st)
}

// An opening tag.
fn opening_tag(s: &[u8], t: Tag, role: Role, st: &mut State) -> Result<usize, Fault>
    ensures { as_place result st.new ≡ reached t.next (opening_tag s.now (as_tag t) (role_code role) st.old) }
{
    enter(s, t, role, st)?;
    count(t.next, st)
}

// An empty-element tag: also the element's last tag, with no text in front of it.
fn empty_tag(s: &[u8], t: Tag, role: Role, st: &mut State) -> Result<usize, Fault>
    ensures { as_place result st.new ≡ reached t.next (empty_tag s.now (as_tag t) (role_code role) st.old) }
{
    enter(s, t, role, st)?;
    close(s, t.next, t.next, t.next, role, 0, st)?;
    count(t.next, st)
}

// An end tag, in the element whose name stands from `name` to `end`.
#[tactic(auto, unfolding(xml_model::specs::Text::ended, crate::specs::Nesting::reached, xml_model::specs::State::no))]
fn end_tag(
    s: &[u8],
    t: Tag,
    name: usize,
    end: usize,
    role: Role,
    state: u8,
    st: &mut State,
) -> Result<usize, Fault>
    ensures { as_place result st.new ≡ reached t.next (ended s.now (as_tag t) (frame name end (role_code role) state) st.old) }
{
    if !same_range(s, t.name, t.end, name, end) {
        return Err(Fault {
            error: TextError::Malformed,
            at: t.next,
        });
    }
    close(s, t.from, t.at, t.next, role, state, st)
}

// The element reader: the element whose first tag is t, with `left` levels for it and what it holds. All levels are lent one state.
#[cycle(contents_element)]
fn element(s: &[u8], t: Tag, role: Role, left: u8, st: &mut State) -> Result<usize, Fault>
    requires { t.next ≤ length s.now }
    ensures { Element s.now (as_tag t) (role_code role) left st.old (as_place result st.new) }
{
    if left == 0 {
        return Err(Fault {
            error: TextError::Unaccepted,
            at: t.next,
        });
    }
    if t.form != Form::Open {
        return empty_tag(s, t, role, st);
    }
    let inside = opening_tag(s, t, role, st)?;
    contents(s, inside, t.name, t.end, role, left - 1, st)
}

// The contents reader: what stands from `at` on in the element whose name stands from `name` to `end`, with its end tag.
#[cycle(contents_element)]
fn contents(
    s: &[u8],
    at: usize,
    name: usize,
    end: usize,
    role: Role,
    left: u8,
    st: &mut State,
) -> Result<usize, Fault>
    ensures { Contents s.now at name end (role_code role) left st.old (as_place result st.new) }
{
    let mut here = at;
    let mut state: u8 = 0;
    loop {
        let t = unit_at(s, here)?;
        if t.form == Form::End {
            return end_tag(s, t, name, end, role, state, st);
        }
        let Some(child) = child_at(s, t, role, state) else {
            return Err(Fault {
                error: TextError::Unaccepted,
                at: t.next,
            });
        };
        here = element(s, t, child.role, left, st)?;
        state = child.state;
    }
}

// Behind the outermost element.
#[tactic(auto, unfolding(xml_model::specs::Text::finish))]
fn finished(s: &[u8], here: Progress) -> Result<Progress, Fault>
    ensures { as_progress result ≡ finish s.now (as_progress (Ok here)) }
{
    let at = run_end(s, Class::Spaces, here.at);
    if at < s.len() {
        return Err(stuck(s, at));
    }
    Ok(Progress {
        at,
        state: here.state,
    })
}

// The outermost element, whose first tag is the unit at i.
#[tactic(auto, unfolding(xml_model::specs::Text::root))]
fn root_at(s: &[u8], i: usize) -> Result<Progress, Fault>
    ensures { as_progress result ≡ root s.now (unit_at s.now i) }
{
    let t = unit_at(s, i)?;
    if name_of(&s[t.name..t.end]) != Some(Name::Rights) {
        return Err(Fault {
            error: TextError::Unaccepted,
            at: t.next,
        });
    }
    let mut state = blank_state();
    let at = element(s, t, Role::Rights, MOST_DEEP, &mut state)?;
    finished(s, Progress { at, state })
}

// The whole text, with the state that it leads to.
#[tactic(auto, unfolding(xml_model::specs::Text::progress_of, xml_model::specs::Text::refusal))]
fn progress_of(s: &[u8]) -> Result<Progress, Fault>
    ensures { as_progress result ≡ progress_of s.now }
{
    let i = run_end(s, Class::Spaces, 0);
    if byte_at(s, i) != 60 {
        return Err(stuck(s, i));
    }
    if byte_at(s, i + 1) == 47 {
        return Err(Fault {
            error: TextError::Malformed,
            at: i + 2,
        });
    }
    root_at(s, i)
}

// The whole text: the number of its elements and the book, or why it is refused.
// Rules out: a 13th level or a 257th element accepted, an end tag of another name.
#[tactic(auto, unfolding(xml_model::specs::Text::reading_of, xml_model::specs::Text::refusal, xml_model::specs::State::blank))]
pub fn read(s: &[u8]) -> Result<Reading, TextError>
    ensures { as_reading result ≡ reading_of s.now }
{
    match progress_of(s) {
        Ok(r) => Ok(Reading {
            elements: r.state.elements,
            book: r.state.book,
        }),
        Err(fault) => Err(fault.error),
    }
}
