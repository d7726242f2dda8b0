ghost use Rattle.std.specs.Prelude.{◌≡◌, ◌<◌, ◌≤◌, ◌+◌, [], ◌∷◌, map, IfOk, OnOk, nat_lt, sum_by, MatchOption, pos};
ghost use Rattle.gl_rulelang.specs.Tree.{tree_of, args_view, height};
ghost use Rattle.gl_rulelang.specs.Nesting.{deepest, open_view, level_of, parenthesis_of, levels, parentheses, precedence, prefix_precedence, threshold, is_comparison, takes_not, binds, top_binds, top_compares, completed, reduced};

use crate::rule::{Binary, Call, Expr, Unary};
use gl_base::Text;
use std::alloc::{AllocError, Global};
use std::collections::LinkedList;

/// How many parentheses may be open, and how many expressions may stand inside one another.
pub const DEEPEST: usize = 64;

/// A call whose arguments are still to be read.
#[derive(Debug, Drop)]
pub struct Pending {
    pub name: Text,
    pub arguments: Vec<(Option<Text>, Expr)>,
    /// The name of the argument that is being read.
    pub argument: Option<Text>,
}

/// What is open round a place of an expression.
#[derive(Debug, Drop)]
pub enum Open {
    /// A sign before its operand.
    Prefix(Unary),
    /// A left operand and the sign behind it.
    Infix(Binary, Expr),
    Paren,
    Call(Pending),
    /// A call that is an action, and so is no expression.
    Action(Pending),
}

/// What is open, the innermost first, and how much of it.
#[derive(Drop)]
pub struct Nest {
    pub stack: LinkedList<Open>,
    level_count: usize,
    parenthesis_count: usize,
    ghost levels_counted: { level_count ≡ levels (map open_view stack) },
    ghost parentheses_counted: { parenthesis_count ≡ parentheses (map open_view stack) },
    ghost levels_bounded: { level_count ≤ deepest },
    ghost parentheses_bounded: { parenthesis_count ≤ deepest },
}

impl Open {
    fn levels(&self) -> usize
        ensures { result ≡ level_of (open_view self.now) }
    {
        match self {
            Open::Prefix(_) | Open::Infix(_, _) | Open::Call(_) => 1,
            Open::Paren | Open::Action(_) => 0,
        }
    }

    fn parentheses(&self) -> usize
        ensures { result ≡ parenthesis_of (open_view self.now) }
    {
        match self {
            Open::Paren | Open::Call(_) | Open::Action(_) => 1,
            Open::Prefix(_) | Open::Infix(_, _) => 0,
        }
    }

    /// Whether this is an operation that is complete where a sign with this threshold follows.
    fn binds(&self, least: u32) -> bool
        ensures { result ≡ binds least (open_view self.now) }
    {
        match self {
            Open::Prefix(sign) => least <= prefix_precedence_of(*sign),
            Open::Infix(sign, _) => least <= precedence_of(*sign),
            _ => false,
        }
    }
}

impl Nest {
    pub fn new(alloc: Global) -> Nest
        ensures { map open_view result.stack ≡ [] }
    {
        Nest {
            stack: LinkedList::new(alloc),
            level_count: 0,
            parenthesis_count: 0,
        }
    }

    /// How many expressions stand round the place.
    pub fn levels(&self) -> usize
        ensures { result ≡ levels (map open_view self.now.stack) }
    {
        self.level_count
    }

    /// Whether an expression may stand here.
    pub fn has_level(&self) -> bool
        ensures { result ≡ nat_lt (levels (map open_view self.now.stack)) deepest }
    {
        self.level_count < DEEPEST
    }

    /// Whether a parenthesis may be opened here.
    pub fn has_parenthesis(&self) -> bool
        ensures { result ≡ nat_lt (parentheses (map open_view self.now.stack)) deepest }
    {
        self.parenthesis_count < DEEPEST
    }

    pub fn push(&mut self, one: Open) -> Result<(), AllocError>
        requires levels { levels (map open_view self.old.stack) + level_of (open_view one) ≤ deepest }
        requires parentheses { parentheses (map open_view self.old.stack) + parenthesis_of (open_view one) ≤ deepest }
        ensures { OnOk result (self.new.stack ≡ one ∷ self.old.stack) }
    {
        let levels = one.levels();
        let parentheses = one.parentheses();
        self.stack.push_front(one)?;
        self.level_count += levels;
        self.parenthesis_count += parentheses;
        Ok(())
    }
}

impl Nest {
    pub fn pop(&mut self) -> Option<Open>
        ensures { MatchOption result ((self.old.stack ≡ []) × (self.new.stack ≡ []))
            (λ one. self.old.stack ≡ one ∷ self.new.stack) }
    {
        let one = self.stack.pop_front()?;
        self.level_count -= one.levels();
        self.parenthesis_count -= one.parentheses();
        Some(one)
    }

    /// Whether the innermost is an operation that is complete where a sign with this threshold follows.
    fn is_complete(&self, least: u32) -> bool
        ensures { result ≡ top_binds least (map open_view self.now.stack) }
    {
        match self.stack.front() {
            Some(one) => one.binds(least),
            None => false,
        }
    }

    /// Whether `!` may stand here.
    pub fn takes_not(&self) -> bool
        ensures { result ≡ takes_not (map open_view self.now.stack) }
    {
        match self.stack.front() {
            Some(Open::Prefix(sign)) => prefix_precedence_of(*sign) <= 2,
            Some(Open::Infix(sign, _)) => precedence_of(*sign) <= 2,
            _ => true,
        }
    }

    /// Whether the innermost is a comparison.
    pub fn is_compared(&self) -> bool
        ensures { result ≡ top_compares (map open_view self.now.stack) }
    {
        match self.stack.front() {
            Some(Open::Infix(sign, _)) => compares(*sign),
            _ => false,
        }
    }

    /// The operand with all operations that it completes before a sign with this threshold.
    pub fn complete(&mut self, alloc: Global, least: u32, operand: Expr) -> Result<Expr, AllocError>
        ensures { IfOk result (λ e. reduced least (map open_view self.old.stack) (tree_of operand)
            ≡ (map open_view self.new.stack, tree_of e)) }
    {
        let mut operand = operand;
        while self.is_complete(least) {
            match self.pop() {
                Some(one) => operand = completed(alloc, one, operand)?,
                None => return Ok(operand),
            }
        }
        Ok(operand)
    }
}

/// The operation that this operand completes.
fn completed(alloc: Global, one: Open, operand: Expr) -> Result<Expr, AllocError>
    ensures { IfOk result (λ e. tree_of e ≡ completed (open_view one) (tree_of operand)) }
{
    match one {
        Open::Prefix(sign) => Ok(Expr::Unary(sign, Box::new(alloc, operand)?)),
        Open::Infix(sign, first) => {
            let first = Box::new(alloc, first)?;
            Ok(Expr::Binary(sign, first, Box::new(alloc, operand)?))
        }
        Open::Paren => Ok(operand),
        Open::Call(_pending) => Ok(operand),
        Open::Action(_pending) => Ok(operand),
    }
}

/// The least precedence of a left operand of this sign without parentheses.
pub fn threshold_of(sign: Binary) -> u32
    ensures { result ≡ threshold sign }
{
    if compares(sign) {
        4
    } else {
        precedence_of(sign)
    }
}

/// Where an operation binds: a greater number binds tighter.
pub fn precedence_of(sign: Binary) -> u32
    ensures { result ≡ precedence sign }
{
    match sign {
        Binary::Or => 0,
        Binary::And => 1,
        Binary::Equal
        | Binary::NotEqual
        | Binary::Less
        | Binary::AtMost
        | Binary::Greater
        | Binary::AtLeast => 3,
        Binary::Plus | Binary::Minus => 4,
        Binary::Times | Binary::Divide | Binary::Remainder => 5,
    }
}

pub fn prefix_precedence_of(sign: Unary) -> u32
    ensures { result ≡ prefix_precedence sign }
{
    match sign {
        Unary::Not => 2,
        Unary::Minus => 6,
    }
}

pub fn compares(sign: Binary) -> bool
    ensures { result ≡ is_comparison sign }
{
    precedence_of(sign) == 3
}
