ghost use Rattle.std.specs.Prelude.{◌≡◌, map, IfOk};
ghost use Rattle.gl_rulelang.specs.Tree.{tree_of, call_of, args_view, action_of, rule_of};

use crate::pipeline::{Pipeline, Stage};
use crate::rule::{Action, Call, Expr, Rule};
use gl_base::{Items, Text};
use std::alloc::{AllocError, Global};

#[cycle(copy)]
fn copy_tree(alloc: Global, e: &Expr) -> Result<Expr, AllocError>
    ensures { IfOk result (λ copy. tree_of copy ≡ tree_of e.now) }
{
    match e {
        Expr::Text(text) => Ok(Expr::Text(text.copy()?)),
        Expr::Whole(number) => Ok(Expr::Whole(*number)),
        Expr::Bool(truth) => Ok(Expr::Bool(*truth)),
        Expr::Field(name) => Ok(Expr::Field(name.copy()?)),
        Expr::Var(name) => Ok(Expr::Var(name.copy()?)),
        Expr::Unary(sign, operand) => {
            let operand = copy_tree(alloc, operand)?;
            Ok(Expr::Unary(*sign, Box::new(alloc, operand)?))
        }
        Expr::Binary(sign, first, second) => {
            let first = copy_tree(alloc, first)?;
            let second = copy_tree(alloc, second)?;
            let first = Box::new(alloc, first)?;
            Ok(Expr::Binary(*sign, first, Box::new(alloc, second)?))
        }
        Expr::Call(call) => {
            let call = copy_call(alloc, call)?;
            Ok(Expr::Call(call))
        }
    }
}

#[cycle(copy)]
fn copy_call(alloc: Global, call: &Call) -> Result<Call, AllocError>
    ensures { IfOk result (λ copy. call_of copy ≡ call_of call.now) }
{
    let name = call.name.copy()?;
    let arguments = copy_arguments(alloc, &call.arguments)?;
    Ok(Call { name, arguments })
}

#[cycle(copy)]
fn copy_arguments(
    alloc: Global,
    arguments: &[(Option<Text>, Expr)],
) -> Result<Vec<(Option<Text>, Expr)>, AllocError>
    ensures { IfOk result (λ copies. args_view copies.items ≡ args_view arguments.now) }
{
    let mut copies = Vec::with_capacity(alloc, arguments.len())?;
    for (name, e) in arguments {
        let name = copy_name(name)?;
        let e = copy_tree(alloc, e)?;
        copies.push((name, e))?;
    }
    Ok(copies)
}

/// The name of an argument, where it has one.
fn copy_name(name: &Option<Text>) -> Result<Option<Text>, AllocError>
    ensures { IfOk result (λ copy. copy ≡ name.now) }
{
    match name {
        Some(name) => Ok(Some(name.copy()?)),
        None => Ok(None),
    }
}

fn copy_action(alloc: Global, action: &Action) -> Result<Action, AllocError>
    ensures { IfOk result (λ copy. action_of copy ≡ action_of action.now) }
{
    match action {
        Action::Let(name, value) => {
            let name = name.copy()?;
            Ok(Action::Let(name, copy_tree(alloc, value)?))
        }
        Action::Do(call) => Ok(Action::Do(copy_call(alloc, call)?)),
    }
}

fn copy_actions(alloc: Global, actions: &[Action]) -> Result<Vec<Action>, AllocError>
    ensures { IfOk result (λ copies. map action_of copies.items ≡ map action_of actions.now) }
{
    let mut copies = Vec::with_capacity(alloc, actions.len())?;
    for action in actions {
        copies.push(copy_action(alloc, action)?)?;
    }
    Ok(copies)
}

impl Rule {
    /// An equal rule.
    pub fn copy(&self, alloc: Global) -> Result<Rule, AllocError>
        ensures { IfOk result (λ copy. rule_of copy ≡ rule_of self.now) }
    {
        let name = self.name.copy()?;
        let condition = copy_tree(alloc, &self.condition)?;
        let actions = copy_actions(alloc, &self.actions)?;
        Ok(Rule {
            name,
            condition,
            actions,
        })
    }
}

fn copy_texts(alloc: Global, texts: &[Text]) -> Result<Items<Text>, AllocError>
    ensures { IfOk result (λ copies. copies ≡ texts.now) }
{
    let mut copies = Items::with_capacity(alloc, texts.len())?;
    for text in texts {
        copies.push(text.copy()?)?;
    }
    Ok(copies)
}

impl Stage {
    /// An equal stage.
    pub fn copy(&self, alloc: Global) -> Result<Stage, AllocError>
        ensures { IfOk result (λ copy. copy ≡ self.now) }
    {
        Ok(Stage {
            number: self.number,
            mode: self.mode,
            rules: copy_texts(alloc, self.rules.as_slice())?,
        })
    }
}

fn copy_stages(alloc: Global, stages: &[Stage]) -> Result<Items<Stage>, AllocError>
    ensures { IfOk result (λ copies. copies ≡ stages.now) }
{
    let mut copies = Items::with_capacity(alloc, stages.len())?;
    for stage in stages {
        copies.push(stage.copy(alloc)?)?;
    }
    Ok(copies)
}

impl Pipeline {
    /// An equal pipeline.
    pub fn copy(&self, alloc: Global) -> Result<Pipeline, AllocError>
        ensures { IfOk result (λ copy. copy ≡ self.now) }
    {
        Ok(Pipeline {
            name: self.name.copy()?,
            stages: copy_stages(alloc, self.stages.as_slice())?,
        })
    }
}
