// The function of a name, by its first letter.
ghost use Rattle.std.specs.Prelude.{◌≡◌, find};
ghost use Rattle.gl_check.specs.Functions.{has_name, function_named};
ghost use Rattle.gl_check.specs.Letters.{beginning_with};

use crate::function::Function;

pub fn named(name: &str) -> Option<Function>
    ensures { result ≡ function_named name.now }
{
    match name.as_bytes() {
        [] => None,
        [letter, ..] => named_from(*letter, name),
    }
}

/// Of those whose names begin with this letter.
fn named_from(letter: u8, name: &str) -> Option<Function>
    ensures { result ≡ find (has_name name.now) (beginning_with letter) }
{
    match letter {
        b'a' => named_a(name),
        b'c' => named_c(name),
        b'd' => named_d(name),
        b'e' => named_e(name),
        b'h' => named_h(name),
        b'i' => named_i(name),
        b'l' => named_l(name),
        b'r' => named_r(name),
        b's' => named_s(name),
        b't' => named_t(name),
        b'u' => named_u(name),
        _ => None,
    }
}

fn named_a(name: &str) -> Option<Function>
    ensures { result ≡ find (has_name name.now) (beginning_with 97) }
{
    match name {
        "abs" => Some(Function::Abs),
        _ => None,
    }
}

fn named_c(name: &str) -> Option<Function>
    ensures { result ≡ find (has_name name.now) (beginning_with 99) }
{
    match name {
        "contains" => Some(Function::Contains),
        "concat" => Some(Function::Concat),
        _ => None,
    }
}

fn named_d(name: &str) -> Option<Function>
    ensures { result ≡ find (has_name name.now) (beginning_with 100) }
{
    match name {
        "drop_message" => Some(Function::DropMessage),
        _ => None,
    }
}

fn named_e(name: &str) -> Option<Function>
    ensures { result ≡ find (has_name name.now) (beginning_with 101) }
{
    match name {
        "ends_with" => Some(Function::EndsWith),
        _ => None,
    }
}

fn named_h(name: &str) -> Option<Function>
    ensures { result ≡ find (has_name name.now) (beginning_with 104) }
{
    match name {
        "has_field" => Some(Function::HasField),
        _ => None,
    }
}

fn named_i(name: &str) -> Option<Function>
    ensures { result ≡ find (has_name name.now) (beginning_with 105) }
{
    match name {
        "is_null" => Some(Function::IsNull),
        "is_not_null" => Some(Function::IsNotNull),
        "is_string" => Some(Function::IsString),
        "is_number" => Some(Function::IsNumber),
        "in_stream" => Some(Function::InStream),
        _ => None,
    }
}

fn named_l(name: &str) -> Option<Function>
    ensures { result ≡ find (has_name name.now) (beginning_with 108) }
{
    match name {
        "lowercase" => Some(Function::Lowercase),
        "length" => Some(Function::Length),
        "lookup_value" => Some(Function::LookupValue),
        _ => None,
    }
}

fn named_r(name: &str) -> Option<Function>
    ensures { result ≡ find (has_name name.now) (beginning_with 114) }
{
    match name {
        "regex_matches" => Some(Function::RegexMatches),
        "regex_group" => Some(Function::RegexGroup),
        "replace" => Some(Function::Replace),
        "remove_field" => Some(Function::RemoveField),
        "rename_field" => Some(Function::RenameField),
        "route_to_stream" => Some(Function::RouteToStream),
        "remove_from_stream" => Some(Function::RemoveFromStream),
        _ => None,
    }
}

fn named_s(name: &str) -> Option<Function>
    ensures { result ≡ find (has_name name.now) (beginning_with 115) }
{
    match name {
        "starts_with" => Some(Function::StartsWith),
        "substring" => Some(Function::Substring),
        "split_item" => Some(Function::SplitItem),
        "syslog_level" => Some(Function::SyslogLevel),
        "syslog_facility" => Some(Function::SyslogFacility),
        "set_field" => Some(Function::SetField),
        _ => None,
    }
}

fn named_t(name: &str) -> Option<Function>
    ensures { result ≡ find (has_name name.now) (beginning_with 116) }
{
    match name {
        "to_string" => Some(Function::ToString),
        "to_long" => Some(Function::ToLong),
        "trim" => Some(Function::Trim),
        _ => None,
    }
}

fn named_u(name: &str) -> Option<Function>
    ensures { result ≡ find (has_name name.now) (beginning_with 117) }
{
    match name {
        "uppercase" => Some(Function::Uppercase),
        _ => None,
    }
}
