// The names of what an enumeration has.
ghost use Rattle.std.specs.Prelude.{◌≡◌};
ghost use Rattle.gl_commands.specs.Texts.{kind_name, test_name, converter_name};
ghost use Rattle.gl_commands.specs.CommandReading.{kind_named, test_named, converter_named};

use crate::TestKind;
use gl_extract::Converter;
use gl_fields::InputKind;

pub fn kind_name(kind: InputKind) -> &'static str
    ensures { result.now ≡ kind_name kind }
{
    match kind {
        InputKind::Raw => "raw",
        InputKind::Gelf => "gelf",
        InputKind::Syslog => "syslog",
    }
}

pub fn test_name(test: TestKind) -> &'static str
    ensures { result.now ≡ test_name test }
{
    match test {
        TestKind::Exact => "exact",
        TestKind::Regex => "regex",
        TestKind::Greater => "greater",
        TestKind::Smaller => "smaller",
        TestKind::Presence => "presence",
        TestKind::Contains => "contains",
        TestKind::Always => "always",
    }
}

pub fn converter_name(converter: Converter) -> &'static str
    ensures { result.now ≡ converter_name converter }
{
    match converter {
        Converter::Numeric => "numeric",
        Converter::Lowercase => "lowercase",
        Converter::Uppercase => "uppercase",
        Converter::SyslogLevel => "syslog_level",
        Converter::SyslogFacility => "syslog_facility",
    }
}

#[tactic(auto, unfolding(crate::specs::CommandReading::kind_named))]
pub fn kind_named(name: &str) -> Option<InputKind>
    ensures { result ≡ kind_named name.now }
{
    match name {
        "raw" => Some(InputKind::Raw),
        "gelf" => Some(InputKind::Gelf),
        "syslog" => Some(InputKind::Syslog),
        _ => None,
    }
}

#[tactic(auto, unfolding(crate::specs::CommandReading::test_named))]
pub fn test_named(name: &str) -> Option<TestKind>
    ensures { result ≡ test_named name.now }
{
    match name {
        "exact" => Some(TestKind::Exact),
        "regex" => Some(TestKind::Regex),
        "greater" => Some(TestKind::Greater),
        "smaller" => Some(TestKind::Smaller),
        "presence" => Some(TestKind::Presence),
        "contains" => Some(TestKind::Contains),
        "always" => Some(TestKind::Always),
        _ => None,
    }
}

#[tactic(auto, unfolding(crate::specs::CommandReading::converter_named))]
pub fn converter_named(name: &str) -> Option<Converter>
    ensures { result ≡ converter_named name.now }
{
    match name {
        "numeric" => Some(Converter::Numeric),
        "lowercase" => Some(Converter::Lowercase),
        "uppercase" => Some(Converter::Uppercase),
        "syslog_level" => Some(Converter::SyslogLevel),
        "syslog_facility" => Some(Converter::SyslogFacility),
        _ => None,
    }
}
