ghost use Rattle.std.specs.Prelude.{◌≡◌, map};
ghost use Rattle.gl_check.specs.Functions.{asked, row_of, function_named};

use crate::kind::Kind;
use crate::named::named;
use crate::parameter::Parameter;

/// The functions of rules, and behind them the actions. `specs/Functions` has their names, parameters and results.
#[derive(Clone, Copy)]
pub enum Function {
    /// Whether the field is there.
    HasField,
    IsNull,
    IsNotNull,
    IsString,
    IsNumber,
    /// The text of a value, or the default where it is missing.
    ToString,
    /// The whole number that a value is or writes, or else the default.
    ToLong,
    Contains,
    StartsWith,
    EndsWith,
    RegexMatches,
    /// What a group of the first match spans.
    RegexGroup,
    Lowercase,
    Uppercase,
    /// Without the spaces at both ends.
    Trim,
    Concat,
    Replace,
    /// The characters from one number to before another, from 0.
    Substring,
    /// One of the pieces between separators, from 1.
    SplitItem,
    /// How many characters.
    Length,
    Abs,
    LookupValue,
    SyslogLevel,
    SyslogFacility,
    InStream,
    SetField,
    RemoveField,
    RenameField,
    RouteToStream,
    RemoveFromStream,
    DropMessage,
}

impl Function {
    /// The function or action of this name.
    pub fn named(name: &str) -> Option<Function>
        ensures { result ≡ function_named name.now }
    {
        named(name)
    }

    /// What it asks of its arguments, in the order of their places.
    pub fn parameters(self) -> &'static [Parameter]
        ensures { map asked result.now ≡ (row_of self).parameters }
    {
        match self {
            Function::HasField => &[Parameter::Field],
            Function::IsNull => &[Parameter::ValueOrMissing],
            Function::IsNotNull => &[Parameter::ValueOrMissing],
            Function::IsString => &[Parameter::Value],
            Function::IsNumber => &[Parameter::Value],
            Function::ToString => &[Parameter::ValueOrMissing, Parameter::DefaultText],
            Function::ToLong => &[Parameter::ValueOrMissing, Parameter::DefaultNumber],
            Function::Contains => &[
                Parameter::TextValue,
                Parameter::Search,
                Parameter::IgnoreCase,
            ],
            Function::StartsWith => &[
                Parameter::TextValue,
                Parameter::Search,
                Parameter::IgnoreCase,
            ],
            Function::EndsWith => &[
                Parameter::TextValue,
                Parameter::Search,
                Parameter::IgnoreCase,
            ],
            Function::RegexMatches => &[Parameter::Pattern, Parameter::TextValue],
            Function::RegexGroup => &[Parameter::Pattern, Parameter::TextValue, Parameter::Group],
            Function::Lowercase => &[Parameter::TextValue],
            Function::Uppercase => &[Parameter::TextValue],
            Function::Trim => &[Parameter::TextValue],
            Function::Concat => &[Parameter::First, Parameter::Second],
            Function::Replace => &[
                Parameter::TextValue,
                Parameter::Search,
                Parameter::Replacement,
            ],
            Function::Substring => &[Parameter::TextValue, Parameter::Start, Parameter::End],
            Function::SplitItem => &[Parameter::TextValue, Parameter::By, Parameter::Index],
            Function::Length => &[Parameter::TextValue],
            Function::Abs => &[Parameter::NumberValue],
            Function::LookupValue => &[
                Parameter::LookupTable,
                Parameter::Key,
                Parameter::DefaultText,
            ],
            Function::SyslogLevel => &[Parameter::NumberValue],
            Function::SyslogFacility => &[Parameter::NumberValue],
            Function::InStream => &[Parameter::Id],
            Function::SetField => &[Parameter::Field, Parameter::Value],
            Function::RemoveField => &[Parameter::Field],
            Function::RenameField => &[Parameter::OldField, Parameter::NewField],
            Function::RouteToStream => &[
                Parameter::StreamId,
                Parameter::StreamName,
                Parameter::RemoveFromDefault,
            ],
            Function::RemoveFromStream => &[Parameter::StreamId, Parameter::StreamName],
            Function::DropMessage => &[],
        }
    }

    /// The kind of its values; none of an action.
    pub fn gives(self) -> Option<Kind>
        ensures { result ≡ (row_of self).gives }
    {
        match self {
            Function::HasField | Function::IsNull | Function::IsNotNull => Some(Kind::Bool),
            Function::IsString | Function::IsNumber | Function::InStream => Some(Kind::Bool),
            Function::Contains | Function::StartsWith | Function::EndsWith => Some(Kind::Bool),
            Function::RegexMatches => Some(Kind::Bool),
            Function::ToLong | Function::Length | Function::Abs => Some(Kind::Whole),
            Function::ToString | Function::RegexGroup | Function::LookupValue => Some(Kind::Text),
            Function::Lowercase | Function::Uppercase | Function::Trim => Some(Kind::Text),
            Function::Concat | Function::Replace => Some(Kind::Text),
            Function::Substring | Function::SplitItem => Some(Kind::Text),
            Function::SyslogLevel | Function::SyslogFacility => Some(Kind::Text),
            Function::SetField | Function::RemoveField | Function::RenameField => None,
            Function::RouteToStream | Function::RemoveFromStream => None,
            Function::DropMessage => None,
        }
    }
}
