ghost use Rattle.std.specs.Prelude.{◌≡◌, is_some, option_map};
ghost use Rattle.gl_check.specs.Functions.{preset_value, asked};

use crate::kind::Kind;
use crate::preset::Preset;

/// What a function asks of an argument. `specs/Functions` has the name, kind and default of each.
#[derive(Clone, Copy)]
pub enum Parameter {
    Field,
    /// `value`, of each kind.
    Value,
    /// `value`, of each kind, which may be missing.
    ValueOrMissing,
    TextValue,
    NumberValue,
    /// `default`, without which it is the empty text.
    DefaultText,
    /// `default`, without which it is 0.
    DefaultNumber,
    Search,
    IgnoreCase,
    Pattern,
    Group,
    First,
    Second,
    Replacement,
    Start,
    End,
    By,
    Index,
    LookupTable,
    Key,
    /// `id`, which has to be given.
    Id,
    /// `id`, which may be left out.
    StreamId,
    /// `name`, which may be left out.
    StreamName,
    OldField,
    NewField,
    RemoveFromDefault,
}

impl Parameter {
    pub fn name(self) -> &'static str
        ensures { result.now ≡ (asked self).name }
    {
        match self {
            Parameter::Field => "field",
            Parameter::Value | Parameter::ValueOrMissing => "value",
            Parameter::TextValue | Parameter::NumberValue => "value",
            Parameter::DefaultText | Parameter::DefaultNumber => "default",
            Parameter::Search => "search",
            Parameter::IgnoreCase => "ignore_case",
            Parameter::Pattern => "pattern",
            Parameter::Group => "group",
            Parameter::First => "first",
            Parameter::Second => "second",
            Parameter::Replacement => "replacement",
            Parameter::Start => "start",
            Parameter::End => "end",
            Parameter::By => "by",
            Parameter::Index => "index",
            Parameter::LookupTable => "lookup_table",
            Parameter::Key => "key",
            Parameter::Id | Parameter::StreamId => "id",
            Parameter::StreamName => "name",
            Parameter::OldField => "old_field",
            Parameter::NewField => "new_field",
            Parameter::RemoveFromDefault => "remove_from_default",
        }
    }

    /// Of which kind an argument has to be; `Any` takes each.
    pub fn kind(self) -> Kind
        ensures { result ≡ (asked self).kind }
    {
        match self {
            Parameter::Value | Parameter::ValueOrMissing => Kind::Any,
            Parameter::NumberValue | Parameter::DefaultNumber | Parameter::Group => Kind::Whole,
            Parameter::Start | Parameter::End | Parameter::Index => Kind::Whole,
            Parameter::IgnoreCase | Parameter::RemoveFromDefault => Kind::Bool,
            Parameter::Field | Parameter::OldField | Parameter::NewField => Kind::Text,
            Parameter::TextValue | Parameter::DefaultText | Parameter::Search => Kind::Text,
            Parameter::Pattern | Parameter::First | Parameter::Second => Kind::Text,
            Parameter::Replacement | Parameter::By | Parameter::LookupTable => Kind::Text,
            Parameter::Key | Parameter::Id => Kind::Text,
            Parameter::StreamId | Parameter::StreamName => Kind::Text,
        }
    }

    /// What stands for an argument that isn't given; without one it must be.
    pub fn default(self) -> Option<Preset>
        ensures { option_map preset_value result ≡ (asked self).default }
    {
        match self {
            Parameter::DefaultText | Parameter::StreamId | Parameter::StreamName => {
                Some(Preset::Empty)
            }
            Parameter::DefaultNumber => Some(Preset::Number(0)),
            Parameter::Group => Some(Preset::Number(1)),
            Parameter::IgnoreCase | Parameter::RemoveFromDefault => Some(Preset::No),
            _ => None,
        }
    }

    /// Whether the argument is a pattern, and stands in the rule as a string.
    pub fn is_pattern(self) -> bool
        ensures { result ≡ (asked self).is_pattern }
    {
        matches!(self, Parameter::Pattern)
    }

    /// Whether the argument may be missing.
    pub fn may_miss(self) -> bool
        ensures { result ≡ (asked self).may_miss }
    {
        matches!(self, Parameter::ValueOrMissing)
    }
}
