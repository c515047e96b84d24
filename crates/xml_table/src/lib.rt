// The elements that order 1 accepts: their names, their roles, and the rows that say which element may hold which.
#![tactic(auto)]

ghost use Rattle.std.specs.Prelude.{◌≡◌, ◌||◌, nat_lt, IsTrue, MatchResult};
ghost use Rattle.xml_model.specs.Elements.{name_of, row_of, holds_text, closes_from, holds_anything};
ghost use Rattle.xml_table.specs.Codes.{role_code, name_number, name_text};
ghost use Rattle.xml_table.specs.Rows.{row_fits, IsChild, IsKind};

use book::Kind;

// An element by its name and by what holds it, by the number that the definitions have for it.
#[derive(Clone, Copy, Debug, PartialEq, Eq)]
pub enum Role {
    Rights = 1,
    RightsContext = 2,
    AssetContext = 3,
    InheritContext = 4,
    Version = 5,
    ObjectUid = 6,
    AssetUid = 7,
    InheritUid = 8,
    Agreement = 9,
    Asset = 10,
    Inherit = 11,
    KeyInfo = 12,
    Skipped = 13,
    Permission = 14,
    Reference = 15,
    Play = 16,
    Display = 17,
    Execute = 18,
    Print = 19,
    Export = 20,
    Constraint = 21,
    Count = 22,
    TimedCount = 23,
    Datetime = 24,
    Start = 25,
    End = 26,
    Interval = 27,
    Accumulated = 28,
}

// A number that no role has.
#[derive(Clone, Copy, Debug, PartialEq, Eq)]
pub struct NoRole;

// Rules out: two roles with the same number, numbers from 0.
impl From<Role> for u8 {
    ghost from_gives = { λ r n. n ≡ role_code r };

    fn from(r: Role) -> u8 {
        r as u8
    }
}

// Rules out: a role for 0 or 29, a role for another role's number.
impl TryFrom<u8> for Role {
    type Error = NoRole;

    ghost try_from_gives = { λ n r. MatchResult r (λ x. n ≡ role_code x) (λ _. IsTrue (nat_lt n 1 || nat_lt 28 n)) };

    fn try_from(n: u8) -> Result<Role, NoRole> {
        match n {
            1 => Ok(Role::Rights),
            2 => Ok(Role::RightsContext),
            3 => Ok(Role::AssetContext),
            4 => Ok(Role::InheritContext),
            5 => Ok(Role::Version),
            6 => Ok(Role::ObjectUid),
            7 => Ok(Role::AssetUid),
            8 => Ok(Role::InheritUid),
            9 => Ok(Role::Agreement),
            10 => Ok(Role::Asset),
            11 => Ok(Role::Inherit),
            12 => Ok(Role::KeyInfo),
            13 => Ok(Role::Skipped),
            14 => Ok(Role::Permission),
            15 => Ok(Role::Reference),
            16 => Ok(Role::Play),
            17 => Ok(Role::Display),
            18 => Ok(Role::Execute),
            19 => Ok(Role::Print),
            20 => Ok(Role::Export),
            21 => Ok(Role::Constraint),
            22 => Ok(Role::Count),
            23 => Ok(Role::TimedCount),
            24 => Ok(Role::Datetime),
            25 => Ok(Role::Start),
            26 => Ok(Role::End),
            27 => Ok(Role::Interval),
            28 => Ok(Role::Accumulated),
            _ => Err(NoRole),
        }
    }
}

// An element by its name.
#[derive(Clone, Copy, Debug, PartialEq, Eq)]
pub enum Name {
    Rights,
    Context,
    Version,
    Uid,
    Agreement,
    Asset,
    Inherit,
    KeyInfo,
    Permission,
    Play,
    Display,
    Execute,
    Print,
    Export,
    Constraint,
    Count,
    TimedCount,
    Datetime,
    Start,
    End,
    Interval,
    Accumulated,
}

// An element's role, the lowest and the highest state in which a child is accepted, the child's name, its role, the state that
// follows.
#[derive(Clone, Copy, Debug, PartialEq, Eq)]
struct Row {
    holder: Role,
    lowest: u8,
    highest: u8,
    name: Name,
    child: Role,
    next: u8,
}

#[rattlefmt::skip]
const ROWS: [Row; 32] = [
    Row { holder: Role::Rights, lowest: 0, highest: 0, name: Name::Context, child: Role::RightsContext, next: 1 },
    Row { holder: Role::Rights, lowest: 1, highest: 1, name: Name::Agreement, child: Role::Agreement, next: 2 },
    Row { holder: Role::RightsContext, lowest: 0, highest: 0, name: Name::Version, child: Role::Version, next: 1 },
    Row { holder: Role::RightsContext, lowest: 0, highest: 1, name: Name::Uid, child: Role::ObjectUid, next: 2 },
    Row { holder: Role::AssetContext, lowest: 0, highest: 0, name: Name::Version, child: Role::Version, next: 1 },
    Row { holder: Role::AssetContext, lowest: 0, highest: 1, name: Name::Uid, child: Role::AssetUid, next: 2 },
    Row { holder: Role::InheritContext, lowest: 0, highest: 0, name: Name::Version, child: Role::Version, next: 1 },
    Row { holder: Role::InheritContext, lowest: 0, highest: 1, name: Name::Uid, child: Role::InheritUid, next: 2 },
    Row { holder: Role::Agreement, lowest: 0, highest: 1, name: Name::Asset, child: Role::Asset, next: 1 },
    Row { holder: Role::Agreement, lowest: 1, highest: 2, name: Name::Permission, child: Role::Permission, next: 2 },
    Row { holder: Role::Asset, lowest: 0, highest: 0, name: Name::Context, child: Role::AssetContext, next: 1 },
    Row { holder: Role::Asset, lowest: 1, highest: 1, name: Name::Inherit, child: Role::Inherit, next: 2 },
    Row { holder: Role::Asset, lowest: 1, highest: 2, name: Name::KeyInfo, child: Role::KeyInfo, next: 3 },
    Row { holder: Role::Inherit, lowest: 0, highest: 0, name: Name::Context, child: Role::InheritContext, next: 1 },
    Row { holder: Role::Permission, lowest: 0, highest: 0, name: Name::Asset, child: Role::Reference, next: 0 },
    Row { holder: Role::Permission, lowest: 0, highest: 0, name: Name::Play, child: Role::Play, next: 1 },
    Row { holder: Role::Permission, lowest: 0, highest: 1, name: Name::Display, child: Role::Display, next: 2 },
    Row { holder: Role::Permission, lowest: 0, highest: 2, name: Name::Execute, child: Role::Execute, next: 3 },
    Row { holder: Role::Permission, lowest: 0, highest: 3, name: Name::Print, child: Role::Print, next: 4 },
    Row { holder: Role::Permission, lowest: 0, highest: 4, name: Name::Export, child: Role::Export, next: 5 },
    Row { holder: Role::Play, lowest: 0, highest: 0, name: Name::Constraint, child: Role::Constraint, next: 1 },
    Row { holder: Role::Display, lowest: 0, highest: 0, name: Name::Constraint, child: Role::Constraint, next: 1 },
    Row { holder: Role::Execute, lowest: 0, highest: 0, name: Name::Constraint, child: Role::Constraint, next: 1 },
    Row { holder: Role::Print, lowest: 0, highest: 0, name: Name::Constraint, child: Role::Constraint, next: 1 },
    Row { holder: Role::Export, lowest: 0, highest: 0, name: Name::Constraint, child: Role::Constraint, next: 1 },
    Row { holder: Role::Constraint, lowest: 0, highest: 0, name: Name::Count, child: Role::Count, next: 1 },
    Row { holder: Role::Constraint, lowest: 0, highest: 1, name: Name::TimedCount, child: Role::TimedCount, next: 2 },
    Row { holder: Role::Constraint, lowest: 0, highest: 2, name: Name::Datetime, child: Role::Datetime, next: 3 },
    Row { holder: Role::Constraint, lowest: 0, highest: 3, name: Name::Interval, child: Role::Interval, next: 4 },
    Row { holder: Role::Constraint, lowest: 0, highest: 4, name: Name::Accumulated, child: Role::Accumulated, next: 5 },
    Row { holder: Role::Datetime, lowest: 0, highest: 0, name: Name::Start, child: Role::Start, next: 1 },
    Row { holder: Role::Datetime, lowest: 0, highest: 1, name: Name::End, child: Role::End, next: 2 },
];

// What an open element makes of a child that it accepts: the child's role, and the state to which it leads its parent.
#[derive(Clone, Copy, Debug, PartialEq, Eq)]
pub struct Child {
    pub role: Role,
    pub state: u8,
}

const NAMES: [Name; 22] = [
    Name::Rights,
    Name::Context,
    Name::Version,
    Name::Uid,
    Name::Agreement,
    Name::Asset,
    Name::Inherit,
    Name::KeyInfo,
    Name::Permission,
    Name::Play,
    Name::Display,
    Name::Execute,
    Name::Print,
    Name::Export,
    Name::Constraint,
    Name::Count,
    Name::TimedCount,
    Name::Datetime,
    Name::Start,
    Name::End,
    Name::Interval,
    Name::Accumulated,
];

fn text_of(name: Name) -> &'static [u8]
    ensures { result.now ≡ name_text name }
{
    match name {
        Name::Rights => b"o-ex:rights",
        Name::Context => b"o-ex:context",
        Name::Version => b"o-dd:version",
        Name::Uid => b"o-dd:uid",
        Name::Agreement => b"o-ex:agreement",
        Name::Asset => b"o-ex:asset",
        Name::Inherit => b"o-ex:inherit",
        Name::KeyInfo => b"ds:KeyInfo",
        Name::Permission => b"o-ex:permission",
        Name::Play => b"o-dd:play",
        Name::Display => b"o-dd:display",
        Name::Execute => b"o-dd:execute",
        Name::Print => b"o-dd:print",
        Name::Export => b"oma-dd:export",
        Name::Constraint => b"o-ex:constraint",
        Name::Count => b"o-dd:count",
        Name::TimedCount => b"oma-dd:timed-count",
        Name::Datetime => b"o-dd:datetime",
        Name::Start => b"o-dd:start",
        Name::End => b"o-dd:end",
        Name::Interval => b"o-dd:interval",
        Name::Accumulated => b"o-dd:accumulated",
    }
}

// The element of that name, if there is one.
// Rules out: a name that only starts like one of these, a name with another prefix.
pub fn name_of(v: &[u8]) -> Option<Name>
    ensures { name_number result ≡ name_of v.now }
{
    for name in &NAMES {
        if v == text_of(*name) {
            return Some(*name);
        }
    }
    None
}

fn row_fits(row: &Row, role: Role, state: u8, name: Option<Name>) -> bool
    ensures { result ≡ row_fits row.now (role_code role) state (name_number name) }
{
    (row.holder == role) & (row.lowest <= state) & (state <= row.highest) & (Some(row.name) == name)
}

// What an element of that role, led to that state, makes of a child of that name: by the first row that accepts it.
// Rules out: a child that is passed over in document 004's order, a later row where an earlier one accepts, the role of the next row's
// child, the highest state in which it is accepted.
pub fn child_of(role: Role, state: u8, name: Option<Name>) -> Option<Child>
    ensures { IsChild result (row_of (role_code role) state (name_number name)) }
{
    for row in &ROWS {
        if row_fits(row, role, state, name) {
            return Some(Child {
                role: row.child,
                state: row.next,
            });
        }
    }
    None
}

// Whether an element holds a text and no elements.
// Rules out: true for a context or a constraint, false for a version.
#[tactic(auto, unfolding(xml_model::specs::Elements::holds_text))]
pub fn holds_text(role: Role) -> bool
    ensures { result ≡ holds_text (role_code role) }
{
    match role {
        Role::Version | Role::ObjectUid | Role::AssetUid | Role::InheritUid => true,
        Role::Count | Role::TimedCount => true,
        Role::Start | Role::End | Role::Interval | Role::Accumulated => true,
        _ => false,
    }
}

// The kind of use that an element stands for, if it stands for one.
// Rules out: a kind for a constraint, none for an export, the kind of another element.
#[tactic(auto, unfolding(xml_model::specs::Elements::is_kind))]
pub fn kind_of(role: Role) -> Option<Kind>
    ensures { IsKind result (role_code role) }
{
    match role {
        Role::Play => Some(Kind::Play),
        Role::Display => Some(Kind::Display),
        Role::Execute => Some(Kind::Execute),
        Role::Print => Some(Kind::Print),
        Role::Export => Some(Kind::Export),
        _ => None,
    }
}

// The state that an element must have reached to close.
// Rules out: 0 for an asset without its context, 1 for a context without its uid.
#[tactic(auto, unfolding(xml_model::specs::Elements::closes_from))]
pub fn closes_from(role: Role) -> u8
    ensures { result ≡ closes_from (role_code role) }
{
    match role {
        Role::Rights | Role::RightsContext | Role::AssetContext | Role::InheritContext => 2,
        Role::Agreement | Role::Asset | Role::Inherit => 1,
        _ => 0,
    }
}

// Whether any elements and any text may stand in an element.
// Rules out: true for an asset, false for what stands in a KeyInfo.
#[tactic(auto, unfolding(xml_model::specs::Elements::holds_anything))]
pub fn holds_anything(role: Role) -> bool
    ensures { result ≡ holds_anything (role_code role) }
{
    (role == Role::KeyInfo) | (role == Role::Skipped)
}
