// What a token does behind those before it.
ghost use Rattle.std.specs.Prelude.{◌≡◌, IfOk};
ghost use Rattle.gl_query.specs.Steps.{operand_step, operator_step, content_step, name_step, number_step, low_step, range_step, high_step, end_step, step_of};

use crate::term::{Limit, Term};
use crate::token::{Comparison, Edge, Token};
use crate::word::{bound_of, comparison_term, limit_of, number_of, plain, word_term};
use gl_base::Items;
use std::alloc::{AllocError, Global};

/// What may come next.
#[derive(Drop)]
pub enum Want {
    /// An operand, or the end: nothing has come.
    Start,
    Operand,
    /// An operand has ended.
    Operator,
    /// What is asked of the field of this name.
    Content(Items<u8>),
    /// The name of a field that is there.
    Name,
    /// The number with which the field is compared.
    Number(Items<u8>, Comparison),
    /// The lower end of a range.
    Low(Items<u8>, Edge),
    /// `TO`, behind the lower end.
    Range(Items<u8>, Limit),
    /// The upper end of a range.
    High(Items<u8>, Limit),
    /// What ends a range.
    End(Items<u8>, Limit, Option<i64>),
}

/// What a token does.
#[derive(Drop)]
pub enum Step {
    /// It can't stand here.
    Refused,
    /// It begins a term, or goes on with it.
    Takes(Want),
    /// It ends a term.
    Completes(Term),
    Negates,
    Opens,
    Closes,
    /// AND
    Joins,
    /// OR
    Splits,
}

fn operand_step(alloc: Global, token: Token) -> Result<Step, AllocError>
    ensures { IfOk result (λ s. s ≡ operand_step token) }
{
    match token {
        Token::Word(word) => {
            let term = word_term(alloc, None, word.as_slice())?;
            Ok(Step::Completes(term))
        }
        Token::Phrase(phrase) => {
            let text = plain(alloc, phrase.as_slice())?;
            Ok(Step::Completes(Term::Text(None, text)))
        }
        Token::Field(name) => {
            let name = plain(alloc, name.as_slice())?;
            Ok(Step::Takes(Want::Content(name)))
        }
        Token::Exists => Ok(Step::Takes(Want::Name)),
        Token::Not => Ok(Step::Negates),
        Token::Open => Ok(Step::Opens),
        Token::Close => Ok(Step::Refused),
        Token::And => Ok(Step::Refused),
        Token::Or => Ok(Step::Refused),
        Token::To => Ok(Step::Refused),
        Token::Compare(_) => Ok(Step::Refused),
        Token::Begin(_) => Ok(Step::Refused),
        Token::End(_) => Ok(Step::Refused),
        Token::Unreadable => Ok(Step::Refused),
    }
}

fn operator_step(alloc: Global, token: Token) -> Result<Step, AllocError>
    ensures { IfOk result (λ s. s ≡ operator_step token) }
{
    match token {
        Token::And => Ok(Step::Joins),
        Token::Or => Ok(Step::Splits),
        Token::Close => Ok(Step::Closes),
        other => operand_step(alloc, other),
    }
}

fn content_step(alloc: Global, name: Items<u8>, token: Token) -> Result<Step, AllocError>
    ensures { IfOk result (λ s. s ≡ content_step name token) }
{
    match token {
        Token::Word(word) => {
            let term = word_term(alloc, Some(name), word.as_slice())?;
            Ok(Step::Completes(term))
        }
        Token::Phrase(phrase) => {
            let text = plain(alloc, phrase.as_slice())?;
            Ok(Step::Completes(Term::Text(Some(name), text)))
        }
        Token::Compare(comparison) => Ok(Step::Takes(Want::Number(name, comparison))),
        Token::Begin(edge) => Ok(Step::Takes(Want::Low(name, edge))),
        _ => Ok(Step::Refused),
    }
}

fn name_step(alloc: Global, token: Token) -> Result<Step, AllocError>
    ensures { IfOk result (λ s. s ≡ name_step token) }
{
    match token {
        Token::Word(word) => {
            let name = plain(alloc, word.as_slice())?;
            Ok(Step::Completes(Term::Exists(name)))
        }
        _ => Ok(Step::Refused),
    }
}

fn number_step(name: Items<u8>, comparison: Comparison, token: Token) -> Step
    ensures { result ≡ number_step name comparison token }
{
    match token {
        Token::Word(word) => match number_of(word.as_slice()) {
            Some(number) => Step::Completes(comparison_term(name, comparison, number)),
            None => Step::Refused,
        },
        _ => Step::Refused,
    }
}

fn low_step(name: Items<u8>, edge: Edge, token: Token) -> Step
    ensures { result ≡ low_step name edge token }
{
    match token {
        Token::Word(word) => match bound_of(word.as_slice()) {
            Some(bound) => Step::Takes(Want::Range(name, limit_of(edge, bound))),
            None => Step::Refused,
        },
        _ => Step::Refused,
    }
}

fn range_step(name: Items<u8>, low: Limit, token: Token) -> Step
    ensures { result ≡ range_step name low token }
{
    match token {
        Token::To => Step::Takes(Want::High(name, low)),
        _ => Step::Refused,
    }
}

fn high_step(name: Items<u8>, low: Limit, token: Token) -> Step
    ensures { result ≡ high_step name low token }
{
    match token {
        Token::Word(word) => match bound_of(word.as_slice()) {
            Some(bound) => Step::Takes(Want::End(name, low, bound)),
            None => Step::Refused,
        },
        _ => Step::Refused,
    }
}

fn end_step(name: Items<u8>, low: Limit, high: Option<i64>, token: Token) -> Step
    ensures { result ≡ end_step name low high token }
{
    match token {
        Token::End(edge) => Step::Completes(Term::Within(name, low, limit_of(edge, high))),
        _ => Step::Refused,
    }
}

/// What the token does where this is wanted.
pub(crate) fn step_of(alloc: Global, want: Want, token: Token) -> Result<Step, AllocError>
    ensures { IfOk result (λ s. s ≡ step_of want token) }
{
    match want {
        Want::Start => operand_step(alloc, token),
        Want::Operand => operand_step(alloc, token),
        Want::Operator => operator_step(alloc, token),
        Want::Content(name) => content_step(alloc, name, token),
        Want::Name => name_step(alloc, token),
        Want::Number(name, comparison) => Ok(number_step(name, comparison, token)),
        Want::Low(name, edge) => Ok(low_step(name, edge, token)),
        Want::Range(name, low) => Ok(range_step(name, low, token)),
        Want::High(name, low) => Ok(high_step(name, low, token)),
        Want::End(name, low, high) => Ok(end_step(name, low, high, token)),
    }
}
