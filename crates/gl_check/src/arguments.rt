ghost use Rattle.std.specs.Prelude.{◌≡◌, ◌&&◌, nat_le, length, map, slice_get, option_map};
ghost use Rattle.std.specs.List.{list_any, list_all, position_from};
ghost use Rattle.gl_rulelang.specs.Tree.{tree_of, args_view, row};
ghost use Rattle.gl_check.specs.Functions.{asked};
ghost use Rattle.gl_check.specs.Arguments.{names_in, trees_in, names_view, trees_view, are_positional, are_named, is_called, place_for as place_of, argument_for, in_places, comes_again, are_once_each, is_one_of, is_served, are_in_form, are_fitting};

use crate::parameter::Parameter;
use gl_base::Text;
use gl_rulelang::Expr;

fn are_positional(arguments: &[(Option<Text>, Expr)]) -> bool
    ensures { result ≡ are_positional (names_view arguments.now) }
{
    for (name, _) in arguments {
        if name.is_some() {
            return false;
        }
    }
    true
}

fn are_named(arguments: &[(Option<Text>, Expr)]) -> bool
    ensures { result ≡ are_named (names_view arguments.now) }
{
    for (name, _) in arguments {
        if name.is_none() {
            return false;
        }
    }
    true
}

/// Whether the argument has this name.
fn is_called(wanted: &str, name: &Option<Text>) -> bool
    ensures { result ≡ is_called wanted.now name.now }
{
    match name {
        None => false,
        Some(name) => wanted == name.as_str(),
    }
}

/// The place of the first argument of this name.
fn place_called(arguments: &[(Option<Text>, Expr)], wanted: &str) -> Option<usize>
    ensures { result ≡ position_from (is_called wanted.now) 0 (names_view arguments.now) }
{
    for (place, (name, _)) in arguments.iter().enumerate() {
        if is_called(wanted, name) {
            return Some(place);
        }
    }
    None
}

/// The place of the argument that the parameter at a place of its function gets: the same place where no argument has a name,
/// else that of the first argument of the parameter's name. It takes a time that grows with the number of arguments.
pub fn place_for(
    arguments: &[(Option<Text>, Expr)],
    place: usize,
    parameter: Parameter,
) -> Option<usize>
    ensures { result ≡ place_of (names_view arguments.now) (place, asked parameter) }
{
    if !are_positional(arguments) {
        return place_called(arguments, parameter.name());
    }
    if place < arguments.len() {
        return Some(place);
    }
    None
}

/// The argument that a parameter gets.
pub fn argument_for<'a>(
    arguments: &'a [(Option<Text>, Expr)],
    place: usize,
    parameter: Parameter,
) -> Option<&'a Expr>
    ensures { option_map (λ e. tree_of e.now) result ≡ argument_for (trees_in (row (args_view arguments.now))) (names_in (row (args_view arguments.now))) (place, asked parameter) }
{
    match place_for(arguments, place, parameter) {
        None => None,
        Some(at) => argument_at(arguments, at),
    }
}

fn argument_at(arguments: &[(Option<Text>, Expr)], at: usize) -> Option<&Expr>
    ensures { option_map (λ e. tree_of e.now) result ≡ slice_get (trees_view arguments.now) at }
{
    match arguments.get(at) {
        None => None,
        Some((_, argument)) => Some(argument),
    }
}

/// Whether one of them has this name.
fn has_one(arguments: &[(Option<Text>, Expr)], wanted: &str) -> bool
    ensures { result ≡ list_any (is_called wanted.now) (names_view arguments.now) }
{
    for (name, _) in arguments {
        if is_called(wanted, name) {
            return true;
        }
    }
    false
}

/// Whether the name comes again among those behind it.
fn comes_again(name: &Option<Text>, behind: &[(Option<Text>, Expr)]) -> bool
    ensures { result ≡ comes_again name.now (names_view behind.now) }
{
    match name {
        None => false,
        Some(name) => has_one(behind, name.as_str()),
    }
}

fn are_once_each(arguments: &[(Option<Text>, Expr)]) -> bool
    ensures { result ≡ are_once_each (names_view arguments.now) }
{
    let mut left = arguments;
    while let [(name, _), behind @ ..] = left {
        if comes_again(name, behind) {
            return false;
        }
        left = behind;
    }
    true
}

/// Whether a parameter has this name.
fn is_one_of(parameters: &[Parameter], name: &Option<Text>) -> bool
    ensures { result ≡ is_one_of (map asked parameters.now) name.now }
{
    for parameter in parameters {
        if is_called(parameter.name(), name) {
            return true;
        }
    }
    false
}

fn are_known(parameters: &[Parameter], arguments: &[(Option<Text>, Expr)]) -> bool
    ensures { result ≡ list_all (is_one_of (map asked parameters.now)) (names_view arguments.now) }
{
    for (name, _) in arguments {
        if !is_one_of(parameters, name) {
            return false;
        }
    }
    true
}

/// Whether none has a name, and there are no more than parameters.
fn are_few(parameters: &[Parameter], arguments: &[(Option<Text>, Expr)]) -> bool
    ensures { result ≡ (are_positional (names_view arguments.now) && nat_le (length (names_view arguments.now)) (length (map asked parameters.now))) }
{
    if !are_positional(arguments) {
        return false;
    }
    arguments.len() <= parameters.len()
}

/// Whether each is named as a parameter, no two alike.
fn are_well_named(parameters: &[Parameter], arguments: &[(Option<Text>, Expr)]) -> bool
    ensures { result ≡ (are_named (names_view arguments.now) && list_all (is_one_of (map asked parameters.now)) (names_view arguments.now) && are_once_each (names_view arguments.now)) }
{
    if !are_named(arguments) {
        return false;
    }
    if !are_known(parameters, arguments) {
        return false;
    }
    are_once_each(arguments)
}

/// Whether none has a name and there are no more than parameters, or each is well named.
fn are_in_form(parameters: &[Parameter], arguments: &[(Option<Text>, Expr)]) -> bool
    ensures { result ≡ are_in_form (map asked parameters.now) (names_view arguments.now) }
{
    if are_few(parameters, arguments) {
        return true;
    }
    are_well_named(parameters, arguments)
}

fn is_served(arguments: &[(Option<Text>, Expr)], place: usize, parameter: Parameter) -> bool
    ensures { result ≡ is_served (names_view arguments.now) (place, asked parameter) }
{
    if parameter.default().is_some() {
        return true;
    }
    place_for(arguments, place, parameter).is_some()
}

/// Whether each parameter without a default gets an argument.
fn are_served(parameters: &[Parameter], arguments: &[(Option<Text>, Expr)]) -> bool
    ensures { result ≡ list_all (is_served (names_view arguments.now)) (in_places (map asked parameters.now)) }
{
    for (place, parameter) in parameters.iter().enumerate() {
        if !is_served(arguments, place, *parameter) {
            return false;
        }
    }
    true
}

/// Whether a function with these parameters takes the arguments, whatever they are.
pub fn are_fitting(parameters: &[Parameter], arguments: &[(Option<Text>, Expr)]) -> bool
    ensures { result ≡ are_fitting (map asked parameters.now) (names_in (row (args_view arguments.now))) }
{
    if !are_in_form(parameters, arguments) {
        return false;
    }
    are_served(parameters, arguments)
}
