ghost use Rattle.std.specs.Prelude.{◌≡◌, ◌↔◌, IsTrue, map, None, MatchOption};
ghost use Rattle.gl_rulelang.specs.Tree.{tree_of, call_of, args_view, row, action_of, rule_of, unary, binary, call_tree, unary_parts, binary_parts, call_parts};

use crate::pipeline::{Pipeline, Stage};
use crate::rule::{Action, Binary, Call, Expr, Rule, Unary};
use gl_base::Text;

/// The sign and the operand of an operation on one.
fn unary_in(e: &Expr) -> Option<(Unary, &Expr)>
    ensures { MatchOption result (unary_parts (tree_of e.now) ≡ None) (λ parts. tree_of e.now ≡ unary parts.0 (tree_of parts.1.now)) }
{
    match e {
        Expr::Unary(sign, operand) => Some((*sign, operand)),
        _ => None,
    }
}

/// The sign and the operands of an operation on two.
fn binary_in(e: &Expr) -> Option<(Binary, &Expr, &Expr)>
    ensures { MatchOption result (binary_parts (tree_of e.now) ≡ None)
        (λ parts. tree_of e.now ≡ binary parts.0 (tree_of parts.1.now) (tree_of parts.2.now)) }
{
    match e {
        Expr::Binary(sign, first, second) => Some((*sign, first, second)),
        _ => None,
    }
}

fn call_in(e: &Expr) -> Option<&Call>
    ensures { MatchOption result (call_parts (tree_of e.now) ≡ None) (λ call. tree_of e.now ≡ call_tree (call_of call.now)) }
{
    match e {
        Expr::Call(call) => Some(call),
        _ => None,
    }
}

/// Whether both are the same text, number, truth, field or variable.
fn same_leaf(one: &Expr, other: &Expr) -> bool
    requires unary { unary_parts (tree_of one.now) ≡ None }
    requires binary { binary_parts (tree_of one.now) ≡ None }
    requires call { call_parts (tree_of one.now) ≡ None }
    ensures { IsTrue result ↔ (tree_of one.now ≡ tree_of other.now) }
{
    match (one, other) {
        (Expr::Text(text), Expr::Text(other_text)) => text.same(other_text),
        (Expr::Whole(number), Expr::Whole(other_number)) => *number == *other_number,
        (Expr::Bool(truth), Expr::Bool(other_truth)) => *truth == *other_truth,
        (Expr::Field(name), Expr::Field(other_name)) => name.same(other_name),
        (Expr::Var(name), Expr::Var(other_name)) => name.same(other_name),
        _ => false,
    }
}

#[cycle(same)]
fn same_tree(one: &Expr, other: &Expr) -> bool
    ensures { IsTrue result ↔ (tree_of one.now ≡ tree_of other.now) }
{
    match one {
        Expr::Unary(sign, operand) => match unary_in(other) {
            None => false,
            Some((other_sign, other_operand)) => {
                *sign == other_sign && same_tree(operand, other_operand)
            }
        },
        Expr::Binary(sign, first, second) => match binary_in(other) {
            None => false,
            Some((other_sign, other_first, other_second)) => {
                *sign == other_sign
                    && same_tree(first, other_first)
                    && same_tree(second, other_second)
            }
        },
        Expr::Call(call) => match call_in(other) {
            None => false,
            Some(other_call) => same_call(call, other_call),
        },
        Expr::Text(_) | Expr::Whole(_) | Expr::Bool(_) | Expr::Field(_) | Expr::Var(_) => {
            same_leaf(one, other)
        }
    }
}

#[cycle(same)]
fn same_call(one: &Call, other: &Call) -> bool
    ensures { IsTrue result ↔ (call_of one.now ≡ call_of other.now) }
{
    one.name.same(&other.name) && same_arguments(&one.arguments, &other.arguments)
}

#[cycle(same)]
fn same_arguments(one: &[(Option<Text>, Expr)], other: &[(Option<Text>, Expr)]) -> bool
    ensures { IsTrue result ↔ (row (args_view one.now) ≡ row (args_view other.now)) }
{
    let mut left = other;
    for (name, e) in one {
        match left {
            [] => return false,
            [(other_name, other_e), rest @ ..] => {
                if !same_name(name, other_name) || !same_tree(e, other_e) {
                    return false;
                }
                left = rest;
            }
        }
    }
    left.is_empty()
}

/// Whether both arguments have the same name, or none.
fn same_name(one: &Option<Text>, other: &Option<Text>) -> bool
    ensures { IsTrue result ↔ (one.now ≡ other.now) }
{
    match (one, other) {
        (Some(name), Some(other_name)) => name.same(other_name),
        (None, None) => true,
        _ => false,
    }
}

fn same_action(one: &Action, other: &Action) -> bool
    ensures { IsTrue result ↔ (action_of one.now ≡ action_of other.now) }
{
    match (one, other) {
        (Action::Let(name, value), Action::Let(other_name, other_value)) => {
            name.same(other_name) && same_tree(value, other_value)
        }
        (Action::Do(call), Action::Do(other_call)) => same_call(call, other_call),
        _ => false,
    }
}

fn same_actions(one: &[Action], other: &[Action]) -> bool
    ensures { IsTrue result ↔ (map action_of one.now ≡ map action_of other.now) }
{
    if one.len() != other.len() {
        return false;
    }
    for (index, action) in one.iter().enumerate() {
        if !same_action(action, &other[index]) {
            return false;
        }
    }
    true
}

impl Rule {
    /// Whether both are equal. It takes no memory.
    pub fn same(&self, other: &Rule) -> bool
        ensures { IsTrue result ↔ (rule_of self.now ≡ rule_of other.now) }
    {
        self.name.same(&other.name)
            && same_tree(&self.condition, &other.condition)
            && same_actions(&self.actions, &other.actions)
    }
}

fn same_texts(one: &[Text], other: &[Text]) -> bool
    ensures { IsTrue result ↔ (one.now ≡ other.now) }
{
    if one.len() != other.len() {
        return false;
    }
    for (index, text) in one.iter().enumerate() {
        if !text.same(&other[index]) {
            return false;
        }
    }
    true
}

impl Stage {
    /// Whether both are equal. It takes no memory.
    pub fn same(&self, other: &Stage) -> bool
        ensures { IsTrue result ↔ (self.now ≡ other.now) }
    {
        self.number == other.number
            && self.mode == other.mode
            && same_texts(self.rules.as_slice(), other.rules.as_slice())
    }
}

fn same_stages(one: &[Stage], other: &[Stage]) -> bool
    ensures { IsTrue result ↔ (one.now ≡ other.now) }
{
    if one.len() != other.len() {
        return false;
    }
    for (index, stage) in one.iter().enumerate() {
        if !stage.same(&other[index]) {
            return false;
        }
    }
    true
}

impl Pipeline {
    /// Whether both are equal. It takes no memory.
    pub fn same(&self, other: &Pipeline) -> bool
        ensures { IsTrue result ↔ (self.now ≡ other.now) }
    {
        self.name.same(&other.name) && same_stages(self.stages.as_slice(), other.stages.as_slice())
    }
}
