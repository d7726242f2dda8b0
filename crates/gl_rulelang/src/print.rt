ghost use Rattle.std.specs.Prelude.{ℕ, List, Ok, ◌≡◌, ◌++◌, ◌∷◌, [], OnOk, IfOk, map, codes, length, slice_index_or, false, ◌<◌, ◌≤◌};
ghost use Rattle.std.specs.List.{flat_map};
ghost use Rattle.std.specs.Fmt.{decimal as decimal_text, signed_decimal};
ghost use Rattle.gl_rulelang.specs.declared.text.Class.TheVariants as Class;
ghost use Rattle.gl_rulelang.specs.Bytes.{in_class};
ghost use Rattle.std.specs.String.{string_bytes};
ghost use Rattle.gl_rulelang.specs.Tree.{is_operation, tree_of, call_of, args_view, row, action_of, rule_of};
ghost use Rattle.gl_rulelang.specs.Rules.{rule_text};
ghost use Rattle.gl_rulelang.specs.Pipelines.{pipeline_text};
ghost use Rattle.gl_rulelang.specs.Printing.{spelled_byte, quote, prefix_text, infix_text, operand, name_text, tree_text, listed, call_text, step_text, rule_print, mode_text, rule_line, stage_text, pipeline_print};

use crate::pipeline::{Mode, Pipeline, Stage};
use crate::rule::{Action, Binary, Call, Expr, Rule, Unary};
use crate::text::{Class, behind, run_len};
use gl_base::Text;
use std::alloc::{AllocError, Global};

/// The letter behind a backslash that spells this byte.
fn letter(byte: u8) -> char
    requires { in_class Class.Bare byte ≡ false }
    ensures letter { spelled_byte byte ≡ 92 ∷ result ∷ [] }
    ensures ascii { result < 128 }
{
    match byte {
        b'\n' => 'n',
        b'\r' => 'r',
        b'\t' => 't',
        b'"' => '"',
        _ => '\\',
    }
}

/// What stands before the first byte that a backslash spells, and the text from there on.
fn split_bare(text: &str) -> (&str, &str)
    ensures bare { flat_map spelled_byte text.now ≡ result.0.now ++ flat_map spelled_byte result.1.now }
    ensures special { in_class Class.Bare (slice_index_or result.1.now 0 34) ≡ false }
    ensures shorter { length result.1.now ≤ length text.now }
{
    text.split_at(run_len(Class::Bare, text.as_bytes()))
}

/// The first byte of a text that isn't empty.
fn first_byte(text: &str) -> u8
    requires { 0 < length text.now }
    ensures { result ≡ slice_index_or text.now 0 34 }
{
    text.as_bytes()[0]
}

/// Writes what stands between the quotes of a string.
fn push_spelled(out: &mut String, text: &str) -> Result<(), AllocError>
    ensures { OnOk result (string_bytes out.new ≡ string_bytes out.old ++ flat_map spelled_byte text.now) }
{
    let mut rest = text;
    while !rest.is_empty() {
        let (bare, special) = split_bare(rest);
        out.push_str(bare)?;
        if special.is_empty() {
            return Ok(());
        }
        out.push('\\')?;
        out.push(letter(first_byte(special)))?;
        rest = behind(special, 1);
    }
    Ok(())
}

/// Writes a string in its quotes.
fn push_quoted(out: &mut String, text: &str) -> Result<(), AllocError>
    ensures { OnOk result (string_bytes out.new ≡ string_bytes out.old ++ quote text.now) }
{
    out.push_str("\"")?;
    push_spelled(out, text)?;
    out.push_str("\"")
}

fn prefix_sign(sign: Unary) -> &'static str
    ensures { result.now ≡ prefix_text sign }
{
    match sign {
        Unary::Minus => "-",
        Unary::Not => "!",
    }
}

fn infix_sign(sign: Binary) -> &'static str
    ensures { result.now ≡ infix_text sign }
{
    match sign {
        Binary::Or => " || ",
        Binary::And => " && ",
        Binary::Equal => " == ",
        Binary::NotEqual => " != ",
        Binary::Less => " < ",
        Binary::AtMost => " <= ",
        Binary::Greater => " > ",
        Binary::AtLeast => " >= ",
        Binary::Plus => " + ",
        Binary::Minus => " - ",
        Binary::Times => " * ",
        Binary::Divide => " / ",
        Binary::Remainder => " % ",
    }
}

fn is_operation(e: &Expr) -> bool
    ensures { result ≡ is_operation (tree_of e.now) }
{
    match e {
        Expr::Unary(_, _) | Expr::Binary(_, _, _) => true,
        _ => false,
    }
}

fn push_whole(out: &mut String, number: i64) -> Result<(), AllocError>
    ensures { OnOk result (string_bytes out.new ≡ string_bytes out.old ++ signed_decimal number) }
{
    write!(out, "{number}")
}

#[cycle(print)]
fn push_tree(out: &mut String, e: &Expr) -> Result<(), AllocError>
    ensures { OnOk result (string_bytes out.new ≡ string_bytes out.old ++ tree_text (tree_of e.now)) }
{
    match e {
        Expr::Text(text) => push_quoted(out, text.as_str()),
        Expr::Whole(number) => push_whole(out, *number),
        Expr::Bool(true) => out.push_str("true"),
        Expr::Bool(false) => out.push_str("false"),
        Expr::Field(name) => {
            out.push_str("$message.")?;
            out.push_str(name.as_str())
        }
        Expr::Var(name) => out.push_str(name.as_str()),
        Expr::Unary(sign, operand) => {
            out.push_str(prefix_sign(*sign))?;
            push_operand(out, operand)
        }
        Expr::Binary(sign, first, second) => {
            push_operand(out, first)?;
            out.push_str(infix_sign(*sign))?;
            push_operand(out, second)
        }
        Expr::Call(call) => push_call(out, call),
    }
}

/// An operand, in parentheses where it is itself an operation.
#[cycle(print)]
fn push_operand(out: &mut String, e: &Expr) -> Result<(), AllocError>
    ensures { OnOk result (string_bytes out.new
        ≡ string_bytes out.old ++ operand (is_operation (tree_of e.now)) (tree_text (tree_of e.now))) }
{
    if is_operation(e) {
        out.push_str("(")?;
        push_tree(out, e)?;
        return out.push_str(")");
    }
    push_tree(out, e)
}

#[cycle(print)]
fn push_call(out: &mut String, call: &Call) -> Result<(), AllocError>
    ensures { OnOk result (string_bytes out.new ≡ string_bytes out.old ++ call_text (call_of call.now).0 (call_of call.now).1) }
{
    push_parts(out, &call.name, &call.arguments)
}

#[cycle(print)]
fn push_parts(
    out: &mut String,
    name: &Text,
    arguments: &[(Option<Text>, Expr)],
) -> Result<(), AllocError>
    ensures { OnOk result (string_bytes out.new
        ≡ string_bytes out.old ++ call_text name.now (row (args_view arguments.now))) }
{
    out.push_str(name.as_str())?;
    out.push_str("(")?;
    push_arguments(out, arguments)?;
    out.push_str(")")
}

#[cycle(print)]
fn push_arguments(out: &mut String, arguments: &[(Option<Text>, Expr)]) -> Result<(), AllocError>
    ensures { OnOk result (string_bytes out.new ≡ string_bytes out.old ++ listed [] (row (args_view arguments.now))) }
{
    let mut before = "";
    for (name, e) in arguments {
        out.push_str(before)?;
        push_name(out, name)?;
        push_tree(out, e)?;
        before = ", ";
    }
    Ok(())
}

/// The name of an argument, where it has one.
fn push_name(out: &mut String, name: &Option<Text>) -> Result<(), AllocError>
    ensures { OnOk result (string_bytes out.new ≡ string_bytes out.old ++ name_text name.now) }
{
    match name {
        Some(name) => {
            out.push_str(name.as_str())?;
            out.push_str(": ")
        }
        None => Ok(()),
    }
}

fn push_action(out: &mut String, action: &Action) -> Result<(), AllocError>
    ensures { OnOk result (string_bytes out.new ≡ string_bytes out.old ++ step_text (action_of action.now)) }
{
    match action {
        Action::Let(name, value) => {
            out.push_str("  let ")?;
            out.push_str(name.as_str())?;
            out.push_str(" = ")?;
            push_tree(out, value)?;
            out.push_str(";\n")
        }
        Action::Do(call) => {
            out.push_str("  ")?;
            push_call(out, call)?;
            out.push_str(";\n")
        }
    }
}

fn push_actions(out: &mut String, actions: &[Action]) -> Result<(), AllocError>
    ensures { OnOk result (string_bytes out.new ≡ string_bytes out.old ++ flat_map step_text (map action_of actions.now)) }
{
    for action in actions {
        push_action(out, action)?;
    }
    Ok(())
}

/// The text of a rule, in the one layout in which rules are shown.
pub fn print_rule(alloc: Global, rule: &Rule) -> Result<Text, AllocError>
    ensures printed { IfOk result (λ text. text ≡ rule_print (rule_of rule.now)) }
    // What a text says is printed so that it reads back to the same rule.
    ensures reads_back { IfOk result (λ text. (source : List ℕ) → rule_text source ≡ Ok (rule_of rule.now)
        → rule_text text ≡ Ok (rule_of rule.now)) }
{
    rule_printed(alloc, rule)
}

fn rule_printed(alloc: Global, rule: &Rule) -> Result<Text, AllocError>
    ensures { IfOk result (λ text. text ≡ rule_print (rule_of rule.now)) }
{
    let mut out = String::new(alloc);
    out.push_str("rule ")?;
    push_quoted(&mut out, rule.name.as_str())?;
    out.push_str("\nwhen\n  ")?;
    push_tree(&mut out, &rule.condition)?;
    out.push_str("\nthen\n")?;
    push_actions(&mut out, &rule.actions)?;
    out.push_str("end\n")?;
    Ok(Text::from_string(out))
}

fn mode_word(mode: Mode) -> &'static str
    ensures { result.now ≡ mode_text mode }
{
    match mode {
        Mode::All => "all",
        Mode::Either => "either",
        Mode::Pass => "pass",
    }
}

fn push_number(out: &mut String, number: u32) -> Result<(), AllocError>
    ensures { OnOk result (string_bytes out.new ≡ string_bytes out.old ++ decimal_text number) }
{
    write!(out, "{number}")
}

fn push_rules(out: &mut String, rules: &[Text]) -> Result<(), AllocError>
    ensures { OnOk result (string_bytes out.new ≡ string_bytes out.old ++ flat_map rule_line rules.now) }
{
    for rule in rules {
        out.push_str("  rule ")?;
        push_quoted(out, rule.as_str())?;
        out.push_str(";\n")?;
    }
    Ok(())
}

fn push_stage(out: &mut String, stage: &Stage) -> Result<(), AllocError>
    ensures { OnOk result (string_bytes out.new ≡ string_bytes out.old ++ stage_text stage.now) }
{
    out.push_str("stage ")?;
    push_number(out, stage.number)?;
    out.push_str(" match ")?;
    out.push_str(mode_word(stage.mode))?;
    out.push_str("\n")?;
    push_rules(out, stage.rules.as_slice())
}

fn push_stages(out: &mut String, stages: &[Stage]) -> Result<(), AllocError>
    ensures { OnOk result (string_bytes out.new ≡ string_bytes out.old ++ flat_map stage_text stages.now) }
{
    for stage in stages {
        push_stage(out, stage)?;
    }
    Ok(())
}

/// The text of a pipeline, in the one layout in which pipelines are shown.
pub fn print_pipeline(alloc: Global, pipeline: &Pipeline) -> Result<Text, AllocError>
    ensures printed { IfOk result (λ text. text ≡ pipeline_print pipeline.now) }
    // What a text says is printed so that it reads back to the same pipeline.
    ensures reads_back { IfOk result (λ text. (source : List ℕ) → pipeline_text source ≡ Ok pipeline.now
        → pipeline_text text ≡ Ok pipeline.now) }
{
    pipeline_printed(alloc, pipeline)
}

fn pipeline_printed(alloc: Global, pipeline: &Pipeline) -> Result<Text, AllocError>
    ensures { IfOk result (λ text. text ≡ pipeline_print pipeline.now) }
{
    let mut out = String::new(alloc);
    out.push_str("pipeline ")?;
    push_quoted(&mut out, pipeline.name.as_str())?;
    out.push_str("\n")?;
    push_stages(&mut out, pipeline.stages.as_slice())?;
    out.push_str("end\n")?;
    Ok(Text::from_string(out))
}
