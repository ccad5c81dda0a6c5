//! Where in a line a value is.
ghost use Rattle.std.specs.Prelude.{◌≡◌};
ghost use Rattle.driver_json.specs.Texts.{key_name, member_key_name};

use std::fmt;

/// A key of a line.
#[derive(Clone, Copy, Debug, PartialEq, Eq)]
pub enum Key {
    ConfState,
    ConfIndex,
    Lead,
    Commit,
    PendingConfIndex,
    Progress,
    Running,
    Retired,
    MaxLag,
    Target,
    Strategy,
    Down,
}

impl Key {
    /// The key as it is written.
    pub fn name(self) -> &'static str
        ensures { result.now ≡ key_name self }
    {
        match self {
            Key::ConfState => "conf_state",
            Key::ConfIndex => "conf_index",
            Key::Lead => "lead",
            Key::Commit => "commit",
            Key::PendingConfIndex => "pending_conf_index",
            Key::Progress => "progress",
            Key::Running => "running",
            Key::Retired => "retired",
            Key::MaxLag => "max_lag",
            Key::Target => "target",
            Key::Strategy => "strategy",
            Key::Down => "down",
        }
    }
}

/// A key of a member in `progress`.
#[derive(Clone, Copy, Debug, PartialEq, Eq)]
pub enum MemberKey {
    Id,
    Match,
    RecentActive,
}

impl MemberKey {
    /// The key as it is written.
    pub fn name(self) -> &'static str
        ensures { result.now ≡ member_key_name self }
    {
        match self {
            MemberKey::Id => "id",
            MemberKey::Match => "match",
            MemberKey::RecentActive => "recent_active",
        }
    }
}

/// A place in a line.
#[derive(Clone, Copy, Debug, PartialEq, Eq)]
pub enum Place {
    /// The value at a key.
    AtKey(Key),
    /// A member in `progress`, by its index.
    AtMember(usize),
    /// The value at a key of a member.
    InMember(usize, MemberKey),
}

impl fmt::Display for Place {
    ghost use Rattle.std.specs.Prelude.{Some};
    ghost use Rattle.driver_json.specs.Texts.{place_text};

    ghost output = { λ place. Some (place_text place) };

    fn fmt<W: fmt::Write>(&self, f: &mut fmt::Formatter<W>) -> fmt::Result {
        match self {
            Place::AtKey(key) => f.write_str(key.name()),
            Place::AtMember(index) => write!(f, "progress[{index}]"),
            Place::InMember(index, key) => {
                let name = key.name();
                write!(f, "progress[{index}].{name}")
            }
        }
    }
}
