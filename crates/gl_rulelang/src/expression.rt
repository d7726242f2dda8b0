ghost use Rattle.std.specs.Prelude.{◌≡◌, ◌<◌, ◌≤◌, ◌^◌, ◌↔◌, IsTrue, [], ◌∷◌, ◌++◌, map, IfOk, OnOk, Some, None, option_map};
ghost use Rattle.gl_rulelang.specs.Tree.{tree_of, call_of, args_view, height, heights, row, call, call_tree};
ghost use Rattle.gl_rulelang.specs.Tokens.{token_view, left, unescaped};
ghost use Rattle.gl_rulelang.specs.Nesting.{prefix, infix_, paren, reduced, threshold, open_view, levels, parentheses};
ghost use Rattle.gl_rulelang.specs.Expressions.{wants, anywhere, args_with, goes, has, acted, ends, stuck, within, opening, closed, begins, sign_begins, operator_begins, joined, parted, ended, sign_follows, follows, name_follows, argument_named, argument_follows, dot_follows, field_follows, move as move_of, run};
ghost use Rattle.gl_rulelang.specs.Places.{start_view, place_view, Moves};
ghost use Rattle.gl_rulelang.specs.Faults.{Gives};

use crate::nest::{DEEPEST, Nest, Open, Pending, compares, threshold_of};
use crate::place::{Move, Place, Start};
use crate::refusal::TextRefusal;
use crate::rule::{Binary, Call, Expr, Unary};
use crate::text::unescape;
use crate::token::{Cursor, Sign, Token};
use gl_base::Text;
use std::alloc::{AllocError, Global};

/// Whether at most so many expressions stand inside one another.
#[cycle(within)]
fn is_within(e: &Expr, most: usize) -> bool
    ensures { IsTrue result ↔ (height (tree_of e.now) ≤ most) }
{
    if most == 0 {
        return false;
    }
    match e {
        Expr::Unary(_, operand) => is_within(operand, most - 1),
        Expr::Binary(_, first, second) => {
            is_within(first, most - 1) && is_within(second, most - 1)
        }
        Expr::Call(call) => call_is_within(call, most - 1),
        _ => true,
    }
}

#[cycle(within)]
fn call_is_within(call: &Call, most: usize) -> bool
    ensures { IsTrue result ↔ (heights (call_of call.now).1 ≤ most) }
{
    are_within(&call.arguments, most)
}

#[cycle(within)]
fn are_within(arguments: &[(Option<Text>, Expr)], most: usize) -> bool
    ensures { IsTrue result ↔ (heights (row (args_view arguments.now)) ≤ most) }
{
    for (_, argument) in arguments {
        if !is_within(argument, most) {
            return false;
        }
    }
    true
}

/// Closes the innermost parenthesis or call behind its last operand, where there is one.
fn close<'t>(nest: &mut Nest, operand: Option<Expr>, at: u64) -> Result<Move<'t>, TextRefusal>
    ensures { Moves at result (map open_view nest.new.stack)
        (closed (map open_view nest.old.stack) (option_map tree_of operand)) }
{
    match nest.pop() {
        None => match operand {
            Some(e) => Ok(Move::Ends(e)),
            None => Err(TextRefusal::Unexpected { at }),
        },
        Some(Open::Paren) => match operand {
            Some(e) => Ok(Move::Goes(Place::Has(e))),
            None => Err(TextRefusal::Unexpected { at }),
        },
        Some(Open::Call(pending)) => Ok(Move::Goes(Place::Has(called(pending, operand)?))),
        Some(Open::Action(pending)) => Ok(Move::Goes(Place::Acted(called(pending, operand)?))),
        Some(Open::Prefix(_sign)) => Err(TextRefusal::Unexpected { at }),
        Some(Open::Infix(_sign, _e)) => Err(TextRefusal::Unexpected { at }),
    }
}

/// The call with its last argument, where there is one.
fn called(pending: Pending, last: Option<Expr>) -> Result<Expr, AllocError>
    ensures { IfOk result (λ e. tree_of e ≡ call pending.name
        (row (args_with (args_view pending.arguments.items) pending.argument (option_map tree_of last)))) }
{
    let Pending {
        name,
        mut arguments,
        argument,
    } = pending;
    if let Some(e) = last {
        arguments.push((argument, e))?;
    }
    Ok(made(Call { name, arguments }))
}

fn made(call: Call) -> Expr
    ensures { tree_of result ≡ call_tree (call_of call) }
{
    Expr::Call(call)
}

/// Where an operand is to come.
fn begin<'t>(
    alloc: Global,
    nest: &mut Nest,
    start: Start,
    token: Token<'t>,
    at: u64,
) -> Result<Move<'t>, TextRefusal>
    ensures { Moves at result (map open_view nest.new.stack)
        (begins (map open_view nest.old.stack) (start_view start) (token_view token.entry)) }
{
    match token {
        Token::String(spelled) => {
            if !nest.has_level() {
                return Err(TextRefusal::TooDeep);
            }
            let text = unescape(alloc, spelled)?;
            Ok(Move::Goes(Place::Has(Expr::Text(text))))
        }
        Token::Number(number) => {
            if !nest.has_level() {
                return Err(TextRefusal::TooDeep);
            }
            Ok(Move::Goes(Place::Has(Expr::Whole(number))))
        }
        Token::Name(name) => {
            if !nest.has_level() {
                return Err(TextRefusal::TooDeep);
            }
            match start {
                Start::Anywhere => Ok(Move::Goes(Place::Named(name))),
                Start::FirstArgument => Ok(Move::Goes(Place::MaybeNamed(name))),
                Start::NextArgument => Ok(Move::Goes(Place::MaybeNamed(name))),
            }
        }
        Token::Operator(Binary::Minus) => begin_prefix(nest, Unary::Minus),
        Token::Operator(_) => Err(TextRefusal::Unexpected { at }),
        Token::Sign(sign) => begin_sign(nest, start, sign, at),
    }
}

/// A sign before an operand, where it may stand.
fn begin_prefix<'t>(nest: &mut Nest, sign: Unary) -> Result<Move<'t>, TextRefusal>
    ensures { Moves 0 result (map open_view nest.new.stack)
        (within (map open_view nest.old.stack)
        (goes (prefix sign ∷ map open_view nest.old.stack) (wants anywhere))) }
{
    if !nest.has_level() {
        return Err(TextRefusal::TooDeep);
    }
    nest.push(Open::Prefix(sign))?;
    Ok(Move::Goes(Place::Wants(Start::Anywhere)))
}

fn begin_sign<'t>(
    nest: &mut Nest,
    start: Start,
    sign: Sign,
    at: u64,
) -> Result<Move<'t>, TextRefusal>
    ensures { Moves at result (map open_view nest.new.stack)
        (sign_begins (map open_view nest.old.stack) (start_view start) sign) }
{
    match sign {
        Sign::True => begin_leaf(nest, Place::Has(Expr::Bool(true))),
        Sign::False => begin_leaf(nest, Place::Has(Expr::Bool(false))),
        Sign::Message => begin_leaf(nest, Place::Message),
        Sign::Not => {
            if !nest.takes_not() {
                return Err(TextRefusal::Unexpected { at });
            }
            begin_prefix(nest, Unary::Not)
        }
        Sign::Open => {
            if !nest.has_level() || !nest.has_parenthesis() {
                return Err(TextRefusal::TooDeep);
            }
            nest.push(Open::Paren)?;
            Ok(Move::Goes(Place::Wants(Start::Anywhere)))
        }
        Sign::Close => match start {
            Start::FirstArgument => close(nest, None, at),
            _ => Err(TextRefusal::Unexpected { at }),
        },
        _ => Err(TextRefusal::Unexpected { at }),
    }
}

fn begin_leaf<'t>(nest: &mut Nest, place: Place<'t>) -> Result<Move<'t>, TextRefusal>
    ensures { Moves 0 result (map open_view nest.new.stack)
        (within (map open_view nest.old.stack) (goes (map open_view nest.old.stack) (place_view place.entry))) }
{
    if !nest.has_level() {
        return Err(TextRefusal::TooDeep);
    }
    Ok(Move::Goes(place))
}

/// Behind a left operand and the sign of an operation.
fn join<'t>(
    alloc: Global,
    nest: &mut Nest,
    operand: Expr,
    sign: Binary,
    at: u64,
) -> Result<Move<'t>, TextRefusal>
    ensures { Moves at result (map open_view nest.new.stack)
        (joined sign (reduced (threshold sign) (map open_view nest.old.stack) (tree_of operand))) }
{
    let first = nest.complete(alloc, threshold_of(sign), operand)?;
    if compares(sign) && nest.is_compared() {
        return Err(TextRefusal::Unexpected { at });
    }
    if !nest.has_level() {
        return Err(TextRefusal::TooDeep);
    }
    if !is_within(&first, DEEPEST - 1 - nest.levels()) {
        return Err(TextRefusal::TooDeep);
    }
    nest.push(Open::Infix(sign, first))?;
    Ok(Move::Goes(Place::Wants(Start::Anywhere)))
}

/// Behind an argument and a comma.
fn part<'t>(nest: &mut Nest, operand: Expr, at: u64) -> Result<Move<'t>, TextRefusal>
    ensures { Moves at result (map open_view nest.new.stack)
        (parted (map open_view nest.old.stack, tree_of operand)) }
{
    match nest.pop() {
        None => Ok(Move::Ends(operand)),
        Some(Open::Call(pending)) => {
            nest.push(Open::Call(with_argument(pending, operand)?))?;
            Ok(Move::Goes(Place::Wants(Start::NextArgument)))
        }
        Some(Open::Action(pending)) => {
            nest.push(Open::Action(with_argument(pending, operand)?))?;
            Ok(Move::Goes(Place::Wants(Start::NextArgument)))
        }
        Some(Open::Paren) => Err(TextRefusal::Unexpected { at }),
        Some(Open::Prefix(_sign)) => Err(TextRefusal::Unexpected { at }),
        Some(Open::Infix(_sign, _e)) => Err(TextRefusal::Unexpected { at }),
    }
}

/// The call with one more argument, and no name for the next.
fn with_argument(pending: Pending, e: Expr) -> Result<Pending, AllocError>
    ensures name { IfOk result (λ p. p.name ≡ pending.name) }
    ensures arguments { IfOk result (λ p. args_view p.arguments.items
        ≡ args_view pending.arguments.items ++ (pending.argument, tree_of e) ∷ []) }
    ensures argument { IfOk result (λ p. p.argument ≡ None) }
{
    let Pending {
        name,
        mut arguments,
        argument,
    } = pending;
    arguments.push((argument, e))?;
    Ok(Pending {
        name,
        arguments,
        argument: None,
    })
}

/// Behind an operand and a token that takes no operand.
fn end<'t>(nest: &Nest, operand: Expr, at: u64) -> Result<Move<'t>, TextRefusal>
    ensures { Moves at result (map open_view nest.now.stack)
        (ended (map open_view nest.now.stack, tree_of operand)) }
{
    if nest.stack.is_empty() {
        return Ok(Move::Ends(operand));
    }
    Err(TextRefusal::Unexpected { at })
}

/// Behind an operand.
fn follow<'t>(
    alloc: Global,
    nest: &mut Nest,
    operand: Expr,
    token: Token<'t>,
    at: u64,
) -> Result<Move<'t>, TextRefusal>
    ensures { Moves at result (map open_view nest.new.stack)
        (follows (map open_view nest.old.stack) (tree_of operand) (token_view token.entry)) }
{
    match token {
        Token::Operator(sign) => join(alloc, nest, operand, sign, at),
        Token::Sign(Sign::Close) => {
            let operand = nest.complete(alloc, 0, operand)?;
            close(nest, Some(operand), at)
        }
        Token::Sign(Sign::Comma) => {
            let operand = nest.complete(alloc, 0, operand)?;
            part(nest, operand, at)
        }
        _ => {
            let operand = nest.complete(alloc, 0, operand)?;
            end(nest, operand, at)
        }
    }
}

/// Behind a name, of a function where a parenthesis follows and else of a variable.
fn follow_name<'t>(
    alloc: Global,
    nest: &mut Nest,
    name: &'t str,
    token: Token<'t>,
    at: u64,
) -> Result<Move<'t>, TextRefusal>
    ensures { Moves at result (map open_view nest.new.stack)
        (name_follows (map open_view nest.old.stack) name.now (token_view token.entry)) }
{
    if let Token::Sign(Sign::Open) = token {
        if !nest.has_level() || !nest.has_parenthesis() {
            return Err(TextRefusal::TooDeep);
        }
        nest.push(Open::Call(Pending {
            name: Text::from_str(alloc, name)?,
            arguments: Vec::new(alloc),
            argument: None,
        }))?;
        return Ok(Move::Goes(Place::Wants(Start::FirstArgument)));
    }
    let variable = Expr::Var(Text::from_str(alloc, name)?);
    follow(alloc, nest, variable, token, at)
}

/// Gives the argument that comes its name.
fn name_argument<'t>(
    alloc: Global,
    nest: &mut Nest,
    name: &'t str,
    at: u64,
) -> Result<Move<'t>, TextRefusal>
    ensures { Moves at result (map open_view nest.new.stack)
        (argument_named (map open_view nest.old.stack) name.now) }
{
    match nest.pop() {
        Some(Open::Call(pending)) => {
            nest.push(Open::Call(with_name(alloc, pending, name)?))?;
            Ok(Move::Goes(Place::Wants(Start::Anywhere)))
        }
        Some(Open::Action(pending)) => {
            nest.push(Open::Action(with_name(alloc, pending, name)?))?;
            Ok(Move::Goes(Place::Wants(Start::Anywhere)))
        }
        None => Err(TextRefusal::Unexpected { at }),
        Some(Open::Paren) => Err(TextRefusal::Unexpected { at }),
        Some(Open::Prefix(_sign)) => Err(TextRefusal::Unexpected { at }),
        Some(Open::Infix(_sign, _e)) => Err(TextRefusal::Unexpected { at }),
    }
}

/// The call with a name for its next argument.
fn with_name(alloc: Global, pending: Pending, argument: &str) -> Result<Pending, AllocError>
    ensures name { IfOk result (λ p. p.name ≡ pending.name) }
    ensures arguments { IfOk result (λ p. p.arguments.items ≡ pending.arguments.items) }
    ensures argument { IfOk result (λ p. p.argument ≡ Some argument.now) }
{
    let Pending {
        name,
        arguments,
        argument: _argument,
    } = pending;
    Ok(Pending {
        name,
        arguments,
        argument: Some(Text::from_str(alloc, argument)?),
    })
}

/// What a token does at a place.
fn step<'t>(
    alloc: Global,
    nest: &mut Nest,
    place: Place<'t>,
    token: Token<'t>,
    at: u64,
) -> Result<Move<'t>, TextRefusal>
    ensures { Moves at result (map open_view nest.new.stack)
        (move_of (map open_view nest.old.stack) (place_view place.entry) (token_view token.entry)) }
{
    match place {
        Place::Wants(start) => begin(alloc, nest, start, token, at),
        Place::Named(name) => follow_name(alloc, nest, name, token, at),
        Place::MaybeNamed(name) => {
            if let Token::Sign(Sign::Colon) = token {
                return name_argument(alloc, nest, name, at);
            }
            follow_name(alloc, nest, name, token, at)
        }
        Place::Message => match token {
            Token::Sign(Sign::Dot) => Ok(Move::Goes(Place::Dotted)),
            _ => Err(TextRefusal::Unexpected { at }),
        },
        Place::Dotted => match token {
            Token::Name(name) => Ok(Move::Goes(Place::Has(Expr::Field(Text::from_str(
                alloc, name,
            )?)))),
            _ => Err(TextRefusal::Unexpected { at }),
        },
        Place::Has(e) => follow(alloc, nest, e, token, at),
        Place::Acted(e) => Ok(Move::Ends(e)),
    }
}

/// An expression, or an action that is a call, from this place on. The cursor is left behind it.
pub fn read_from<'t>(
    alloc: Global,
    cursor: &mut Cursor<'t>,
    nest: Nest,
    start: Start,
) -> Result<Expr, TextRefusal>
    ensures { Gives tree_of result (left cursor.new)
        (run (left cursor.old) (map open_view nest.stack) (wants (start_view start))) }
{
    let mut nest = nest;
    let mut place = Place::Wants(start);
    while let Some(token) = cursor.peek() {
        match step(alloc, &mut nest, place, token, cursor.place())? {
            Move::Goes(next) => {
                place = next;
                cursor.advance();
            }
            Move::Ends(e) => return Ok(e),
        }
    }
    Err(TextRefusal::Unexpected { at: cursor.place() })
}
