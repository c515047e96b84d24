// What the first tag and the last tag of an element do to what has been read so far. An id, and every other value of an attribute,
// is a range of the text. No function here asks anything of the tables' counts.
#![tactic(auto)]

ghost use Rattle.std.specs.Prelude.{◌≡◌, false, cond, ◌+◌, ◌<◌, ◌≤◌, IfSome, MatchOption};
ghost use Rattle.xml_model.specs.Bytes.{part};
ghost use Rattle.xml_model.specs.Codes.{as_range, as_tag};
ghost use Rattle.xml_model.specs.Elements.{object_uid_role, inherit_uid_role};
ghost use Rattle.xml_table.specs.Codes.{role_code};
ghost use Rattle.xml_model.specs.State.{as_done, ids_in, id_position, new_id, asset_named, object_alone, flag_of, with_flag};
ghost use Rattle.xml_model.specs.State.{with_limit, begun, with_idref, with_timer_of, opening, stored, text_done, key_done};
ghost use Rattle.xml_model.specs.State.{container_done, closing};

use book::{Limits, MOST_TIMES, blank_asset};
use rules::flags_of;
use xml_entries::{asset_done, kind_done};
use xml_model::{Ids, Range, State, Tag, TextError};
use xml_scan::{is_bare, look, same_range};
use xml_steps::NO_POSITION;
use xml_table::{Role, closes_from, holds_text, kind_of};
use xml_values::{number_in, value_of};

// The position of the value among the ids.
#[tactic(auto, unfolding(xml_model::specs::State::id_position, xml_model::specs::State::is_id, xml_model::specs::State::ids_in))]
fn id_position(s: &[u8], ids: &Ids, value: Range) -> Option<usize>
    ensures { MatchOption result
        (id_position s.now ids.now value ≡ ids_in ids.now)
        (λ i. (i < ids_in ids.now) × (id_position s.now ids.now value ≡ i)) }
{
    ids.as_slice()
        .iter()
        .position(|d| same_range(s, value.from, value.to, d.from, d.to))
}

// An id, if there is one, is given for the first time.
#[tactic(auto, unfolding(xml_model::specs::State::new_id, xml_model::specs::State::is_given, xml_model::specs::State::with_ids))]
fn new_id(s: &[u8], id: Option<Range>, mut st: State) -> Result<State, TextError>
    requires { IfSome id (λ r. 0 < r.from) }
    ensures { as_done result ≡ new_id s.now (as_range id) st }
{
    if let Some(id) = id {
        if id_position(s, &st.ids, id).is_some() {
            return Err(TextError::Unaccepted);
        }
        st.ids.push(id);
    }
    Ok(st)
}

// The number of the asset whose id the value is; 0 if there is none, or it is still open.
#[tactic(auto, unfolding(xml_model::specs::State::asset_named, xml_model::specs::State::ids_in))]
fn asset_named(s: &[u8], ids: &Ids, value: Range) -> u16
    ensures { result ≡ asset_named s.now ids.now value }
{
    match id_position(s, ids, value) {
        Some(i) => ids.table[i].asset,
        None => 0,
    }
}

// No limits yet, but the rights object's number.
#[tactic(auto, unfolding(xml_model::specs::State::object_alone))]
fn object_alone(x: u16) -> Limits
    ensures { result ≡ object_alone x }
{
    Limits {
        object: x,
        asset: 0,
        kind: 0,
        flags: 0,
        count: 0,
        timed: 0,
        timer: 0,
        start: 0,
        end: 0,
        interval: 0,
        accumulated: 0,
        tracked: 0,
        timedvalue: 0,
        mark: 0,
        threshold: 0,
    }
}

// The flags with flag w, unless it is set.
fn added(set: bool, w: u8, flags: u8) -> u8
    requires { set ≡ false → flags + w < 256 }
    ensures { result ≡ cond set flags (flags + w) }
{
    if set {
        return flags;
    }
    flags + w
}

// The flags with that of the role.
#[tactic(auto, unfolding(xml_model::specs::State::with_flag, xml_model::specs::State::flag_of, rules::specs::Rules::flags_of, model::specs::Book::flagged))]
fn with_flag(role: Role, l: Limits) -> u8
    ensures { result ≡ with_flag (flag_of (role_code role)) l }
{
    let f = flags_of(l);
    match role {
        Role::Count => added(f.count, 1, l.flags),
        Role::TimedCount => added(f.timed, 2, l.flags),
        Role::Start => added(f.start, 4, l.flags),
        Role::End => added(f.end, 8, l.flags),
        Role::Interval => added(f.interval, 16, l.flags),
        _ => added(f.accumulated, 32, l.flags),
    }
}

// The limit of that role, with its flag.
#[tactic(auto, unfolding(xml_model::specs::State::with_limit))]
fn with_limit(role: Role, x: u32, mut l: Limits) -> Limits
    ensures { result ≡ with_limit (role_code role) x l }
{
    l.flags = with_flag(role, l);
    match role {
        Role::Count => l.count = x,
        Role::TimedCount => l.timed = x,
        Role::Start => l.start = x,
        Role::End => l.end = x,
        Role::Interval => l.interval = x,
        Role::Accumulated => l.accumulated = x,
        _ => {}
    }
    l
}

// An asset, a permission and a kind start anew.
#[tactic(auto, unfolding(xml_model::specs::State::begun, xml_model::specs::State::is_given, xml_model::specs::State::with_asset, xml_model::specs::State::with_references, xml_model::specs::State::with_limits, xml_model::specs::State::ids_in))]
fn begun(role: Role, id: Option<Range>, mut st: State) -> State
    requires { IfSome id (λ r. 0 < r.from) }
    ensures { result ≡ begun (role_code role) (as_range id) st }
{
    if role == Role::Asset {
        let n = st.ids.as_slice().len() as u16;
        st.asset = blank_asset();
        st.assetid = if id.is_some() { n } else { NO_POSITION };
    } else if role == Role::Permission {
        st.references.count = 0;
    } else if kind_of(role).is_some() {
        st.limits = object_alone(st.limits.object);
    }
    st
}

// An idref, if there is one, is the id of an asset that is closed; an asset reference has one.
#[tactic(auto, unfolding(xml_model::specs::State::with_idref, xml_model::specs::State::is_given, xml_model::specs::State::with_references))]
fn with_idref(s: &[u8], idref: Option<Range>, role: Role, mut st: State) -> Result<State, TextError>
    requires { IfSome idref (λ r. 0 < r.from) }
    ensures { as_done result ≡ with_idref s.now (as_range idref) (role_code role) st }
{
    if let Some(idref) = idref {
        let asset = asset_named(s, &st.ids, idref);
        if asset == 0 {
            return Err(TextError::Unaccepted);
        }
        if role == Role::Reference {
            st.references.push(asset);
        }
    } else if role == Role::Reference {
        return Err(TextError::Unaccepted);
    }
    Ok(st)
}

// The bytes from a to b, of those that the text has.
fn part(s: &[u8], a: usize, b: usize) -> &[u8]
    ensures { result.now ≡ part s.now a b }
{
    let to = b.min(s.len());
    &s[a.min(to)..to]
}

// The timer of a timed count.
#[tactic(auto, unfolding(xml_model::specs::State::with_timer_of, xml_model::specs::State::is_given, xml_model::specs::State::with_limits, xml_model::specs::State::with_timer))]
fn with_timer_of(
    s: &[u8],
    timer: Option<Range>,
    role: Role,
    mut st: State,
) -> Result<State, TextError>
    requires { IfSome timer (λ r. 0 < r.from) }
    ensures { as_done result ≡ with_timer_of s.now (as_range timer) (role_code role) st }
{
    if role == Role::TimedCount {
        if let Some(timer) = timer {
            let v = part(s, timer.from, timer.to);
            st.limits.timer = number_in(0, MOST_TIMES, v).ok_or(TextError::Unaccepted)?;
        }
    }
    Ok(st)
}

// The first tag of an element.
#[tactic(auto, unfolding(xml_model::specs::State::opening, xml_model::specs::State::and_then))]
fn open_element(s: &[u8], t: Tag, role: Role, st: State) -> Result<State, TextError>
    ensures { as_done result ≡ opening s.now (as_tag t) (role_code role) st }
{
    let id = look(s, b"o-ex:id", t.end);
    let idref = look(s, b"o-ex:idref", t.end);
    let timer = look(s, b"oma-dd:timer", t.end);
    let st = new_id(s, id, begun(role, id, st))?;
    let st = with_idref(s, idref, role, st)?;
    with_timer_of(s, timer, role, st)
}

// The first tag of an element, by its role's number.
// Rules out: an id taken that was given before, an idref of an asset that is still open, a kind that keeps the limits of the one
// before it.
#[tactic(auto, using(crate::proofs::Unnamed::opening_by_role))]
pub fn opening(s: &[u8], t: Tag, role: u8, st: State) -> Result<State, TextError>
    ensures { as_done result ≡ opening s.now (as_tag t) role st }
{
    // a number that no role has opens as a constraint does
    open_element(s, t, Role::try_from(role).unwrap_or(Role::Constraint), st)
}

// A text value in its place. The fields of a uid have 16 bits.
#[tactic(auto, unfolding(xml_model::specs::State::stored, xml_model::specs::State::with_limits, xml_model::specs::State::with_asset))]
fn stored(role: Role, x: u32, mut st: State) -> State
    requires { object_uid_role ≤ role_code role → role_code role ≤ inherit_uid_role → x ≤ 65535 }
    ensures { result ≡ stored (role_code role) x st }
{
    if role == Role::Version {
        return st;
    }
    if role == Role::ObjectUid {
        st.limits = object_alone(x as u16);
    } else if role == Role::AssetUid {
        st.asset.number = x as u16;
    } else if role == Role::InheritUid {
        st.asset.inherit = x as u16;
    } else {
        st.limits = with_limit(role, x, st.limits);
    }
    st
}

// The last tag of an element that holds a text.
#[tactic(auto, unfolding(xml_model::specs::State::text_done))]
fn text_done(role: Role, v: &[u8], st: State) -> Result<State, TextError>
    ensures { as_done result ≡ text_done (role_code role) v.now st }
{
    let x = value_of(u8::from(role), v).ok_or(TextError::Unaccepted)?;
    Ok(stored(role, x, st))
}

// The last tag of a KeyInfo: the asset has a key.
#[tactic(auto, unfolding(xml_model::specs::State::key_done, xml_model::specs::State::with_asset))]
fn key_done(mut st: State) -> State
    ensures { result ≡ key_done st }
{
    st.asset.key = 1;
    st
}

// The last tag of an element that holds elements.
#[tactic(auto, unfolding(xml_model::specs::State::container_done, xml_model::specs::Elements::is_kind))]
fn container_done(role: Role, st: State) -> Result<State, TextError>
    ensures { as_done result ≡ container_done (role_code role) st }
{
    if role == Role::Asset {
        return asset_done(st);
    }
    if let Some(kind) = kind_of(role) {
        return kind_done(u8::from(kind), st);
    }
    Ok(st)
}

// The last tag of an element, with the text from a to b in front of it; its children have led to that state.
#[tactic(auto, unfolding(xml_model::specs::State::closing))]
fn close_element(
    s: &[u8],
    a: usize,
    b: usize,
    role: Role,
    state: u8,
    st: State,
) -> Result<State, TextError>
    ensures { as_done result ≡ closing s.now a b (role_code role) state st }
{
    if role == Role::Skipped {
        return Ok(st);
    }
    if role == Role::KeyInfo {
        return Ok(key_done(st));
    }
    if holds_text(role) {
        return text_done(role, part(s, a, b), st);
    }
    if !is_bare(s, a, b) | (state < closes_from(role)) {
        return Err(TextError::Unaccepted);
    }
    container_done(role, st)
}

// The last tag of an element, by its role's number, with the text from a to b in front of it; its children have led to that state.
// Rules out: text between elements passed over, an element accepted though a required child is missing.
#[tactic(auto, using(crate::proofs::Unnamed::closing_by_role))]
pub fn closing(
    s: &[u8],
    a: usize,
    b: usize,
    role: u8,
    state: u8,
    st: State,
) -> Result<State, TextError>
    ensures { as_done result ≡ closing s.now a b role state st }
{
    // a number that no role has closes as a constraint does
    let role = Role::try_from(role).unwrap_or(Role::Constraint);
    close_element(s, a, b, role, state, st)
}
