// What is faulty at a node, looked at alone.
ghost use Rattle.std.specs.Prelude.{◌≡◌, map, reverse, Some, None, option_map, if◌then◌else◌};
ghost use Rattle.std.specs.List.{list_any};
ghost use Rattle.gl_rulelang.specs.Tree.{tree_of, call_of, args_view, row, call_tree, variable};
ghost use Rattle.gl_check.specs.Functions.{asked, function_named};
ghost use Rattle.gl_check.specs.declared.refusal.CheckRefusal.TheVariants.{WrongType};
ghost use Rattle.gl_check.specs.Arguments.{in_places};
ghost use Rattle.gl_check.specs.Checking.{node, is_misplaced, string_in, pattern_given, lacks_pattern, has_bad_arguments, is_wrongly_given, has_wrong_operands, is_wrong_condition, fault_at};

use crate::arguments::{are_fitting, argument_for};
use crate::call::{arguments_of, function_of};
use crate::function::Function;
use crate::kind::{Kind, is_wrong};
use crate::kinds::{infix_kind, kind_in, kind_of, operand_kind, prefix_kind};
use crate::parameter::Parameter;
use crate::refusal::CheckRefusal;
use crate::stand::Stand;
use gl_base::Text;
use gl_rulelang::{Call, Expr};

/// Whether an action stands where a function does, or a function where an action does.
fn is_misplaced(stand: Stand, gives: Option<Kind>) -> bool
    ensures { result ≡ is_misplaced stand gives }
{
    match stand {
        Stand::Condition | Stand::Operand => gives.is_none(),
        Stand::Action => gives.is_some(),
    }
}

/// The text that an expression writes out.
fn string_in(e: &Expr) -> Option<&Text>
    ensures { option_map (λ t. t.now) result ≡ string_in (tree_of e.now) }
{
    match e {
        Expr::Text(text) => Some(text),
        _ => None,
    }
}

/// The string that is given for a parameter that takes a pattern.
pub fn pattern_given<'a>(
    arguments: &'a [(Option<Text>, Expr)],
    place: usize,
    parameter: Parameter,
) -> Option<&'a Text>
    ensures { option_map (λ t. t.now) result ≡ pattern_given (row (args_view arguments.now)) (place, asked parameter) }
{
    if !parameter.is_pattern() {
        return None;
    }
    match argument_for(arguments, place, parameter) {
        None => None,
        Some(argument) => string_in(argument),
    }
}

/// Whether a pattern is no string of the rule.
fn lacks_pattern(arguments: &[(Option<Text>, Expr)], place: usize, parameter: Parameter) -> bool
    ensures { result ≡ lacks_pattern (row (args_view arguments.now)) (place, asked parameter) }
{
    if !parameter.is_pattern() {
        return false;
    }
    pattern_given(arguments, place, parameter).is_none()
}

fn lack_pattern(parameters: &[Parameter], arguments: &[(Option<Text>, Expr)]) -> bool
    ensures { result ≡ list_any (lacks_pattern (row (args_view arguments.now))) (in_places (map asked parameters.now)) }
{
    for (place, parameter) in parameters.iter().enumerate() {
        if lacks_pattern(arguments, place, *parameter) {
            return true;
        }
    }
    false
}

fn has_bad_arguments(stand: Stand, function: Function, arguments: &[(Option<Text>, Expr)]) -> bool
    ensures { result ≡ has_bad_arguments stand (row (args_view arguments.now)) (Some function) }
{
    let parameters = function.parameters();
    if !are_fitting(parameters, arguments) {
        return true;
    }
    if is_misplaced(stand, function.gives()) {
        return true;
    }
    lack_pattern(parameters, arguments)
}

/// Whether an argument has a kind, which isn't that of its parameter.
fn is_wrongly_given(
    known: &[(Text, Kind)],
    arguments: &[(Option<Text>, Expr)],
    place: usize,
    parameter: Parameter,
) -> bool
    ensures { result ≡ is_wrongly_given (reverse known.now) (row (args_view arguments.now)) (place, asked parameter) }
{
    let wanted = parameter.kind();
    if matches!(wanted, Kind::Any) {
        return false;
    }
    match argument_for(arguments, place, parameter) {
        None => false,
        Some(argument) => is_wrong(wanted, kind_of(known, argument)),
    }
}

fn are_wrongly_given(
    known: &[(Text, Kind)],
    parameters: &[Parameter],
    arguments: &[(Option<Text>, Expr)],
) -> bool
    ensures { result ≡ list_any (is_wrongly_given (reverse known.now) (row (args_view arguments.now))) (in_places (map asked parameters.now)) }
{
    for (place, parameter) in parameters.iter().enumerate() {
        if is_wrongly_given(known, arguments, place, *parameter) {
            return true;
        }
    }
    false
}

fn is_wrong_condition(stand: Stand, kind: Option<Kind>) -> bool
    ensures { result ≡ is_wrong_condition stand kind }
{
    match stand {
        Stand::Condition => is_wrong(Kind::Bool, kind),
        Stand::Operand | Stand::Action => false,
    }
}

/// Whether both operands have to be of a kind, and one has another.
fn has_wrong_operands(
    known: &[(Text, Kind)],
    wanted: Option<Kind>,
    first: &Expr,
    second: &Expr,
) -> bool
    ensures { result ≡ has_wrong_operands (reverse known.now) wanted (tree_of first.now) (tree_of second.now) }
{
    match wanted {
        None => false,
        Some(wanted) => {
            is_wrong(wanted, kind_of(known, first)) || is_wrong(wanted, kind_of(known, second))
        }
    }
}

/// The fault of a call that is the node of this number.
pub fn fault_of_call(
    known: &[(Text, Kind)],
    stand: Stand,
    call: &Call,
    at: u64,
) -> Option<CheckRefusal>
    ensures { result ≡ fault_at (at, node stand (reverse known.now) (call_tree (call_of call.now))) }
{
    match function_of(call) {
        None => Some(CheckRefusal::UnknownFunction { at }),
        Some(function) => fault_of_called(known, stand, function, call, at),
    }
}

/// The fault of a call of a known function.
fn fault_of_called(
    known: &[(Text, Kind)],
    stand: Stand,
    function: Function,
    call: &Call,
    at: u64,
) -> Option<CheckRefusal>
    requires { function_named (call_of call.now).0 ≡ Some function }
    ensures { result ≡ fault_at (at, node stand (reverse known.now) (call_tree (call_of call.now))) }
{
    let arguments = arguments_of(call);
    if has_bad_arguments(stand, function, arguments) {
        return Some(CheckRefusal::BadArguments { at });
    }
    if are_wrongly_given(known, function.parameters(), arguments) {
        return Some(CheckRefusal::WrongType { at });
    }
    if is_wrong_condition(stand, function.gives()) {
        return Some(CheckRefusal::WrongType { at });
    }
    None
}

/// The fault of a variable.
fn fault_of_variable(
    known: &[(Text, Kind)],
    stand: Stand,
    name: &Text,
    at: u64,
) -> Option<CheckRefusal>
    ensures { result ≡ fault_at (at, node stand (reverse known.now) (variable name.now)) }
{
    match kind_in(name, known) {
        None => Some(CheckRefusal::UnknownVariable { at }),
        Some(kind) => fault_of_kind(is_wrong_condition(stand, Some(kind)), at),
    }
}

fn fault_of_kind(is_wrong: bool, at: u64) -> Option<CheckRefusal>
    ensures { result ≡ (if is_wrong then Some (WrongType at) else None) }
{
    if is_wrong {
        Some(CheckRefusal::WrongType { at })
    } else {
        None
    }
}

/// The fault of an expression that is the node of this number.
pub fn fault_at(known: &[(Text, Kind)], stand: Stand, e: &Expr, at: u64) -> Option<CheckRefusal>
    ensures { result ≡ fault_at (at, node stand (reverse known.now) (tree_of e.now)) }
{
    match e {
        Expr::Var(name) => fault_of_variable(known, stand, name, at),
        Expr::Call(call) => fault_of_call(known, stand, call, at),
        Expr::Unary(sign, operand) => {
            let is_wrong = is_wrong(prefix_kind(*sign), kind_of(known, operand));
            fault_of_kind(
                is_wrong || is_wrong_condition(stand, Some(prefix_kind(*sign))),
                at,
            )
        }
        Expr::Binary(sign, first, second) => {
            let is_wrong = has_wrong_operands(known, operand_kind(*sign), first, second);
            fault_of_kind(
                is_wrong || is_wrong_condition(stand, Some(infix_kind(*sign))),
                at,
            )
        }
        Expr::Text(_) => fault_of_kind(is_wrong_condition(stand, Some(Kind::Text)), at),
        Expr::Whole(_) => fault_of_kind(is_wrong_condition(stand, Some(Kind::Whole)), at),
        Expr::Bool(_) => fault_of_kind(is_wrong_condition(stand, Some(Kind::Bool)), at),
        Expr::Field(_) => fault_of_kind(is_wrong_condition(stand, Some(Kind::Any)), at),
    }
}
