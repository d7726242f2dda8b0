ghost use Rattle.std.specs.Prelude.{◌≡◌, ◌<◌, ◌≤◌, ◌↔◌, IsTrue, IfOk, OnOk, map, suc, Ok, Some, None};
ghost use Rattle.gl_rulelang.specs.declared.token.Sign.TheVariants as signs;
ghost use Rattle.gl_rulelang.specs.Tree.{tree_of, call_of, action_of, rule_of, perform, assign, RuleTree};
ghost use Rattle.gl_rulelang.specs.Tokens.{left, tokens_from};
ghost use Rattle.gl_rulelang.specs.Nesting.{performed};
ghost use Rattle.gl_rulelang.specs.Expressions.{anywhere, first_argument, wants, run};
ghost use Rattle.gl_rulelang.specs.Faults.{Gives, Answers};
ghost use Rattle.gl_rulelang.specs.Sentences.{IsRule};
ghost use Rattle.gl_rulelang.specs.Rules.{Passes, count, sign_at, string_at, name_at, expression_at, performed_at, let_at, call_at, action_at, steps_at, whole, rule_at, rule_text};

use crate::cut::cut;
use crate::expression::read_from;
use crate::nest::{Nest, Open, Pending};
use crate::place::Start;
use crate::refusal::TextRefusal;
use crate::rule::{Action, Expr, Rule};
use crate::text::unescape;
use crate::token::{Cursor, Sign, Token};
use gl_base::Text;
use std::alloc::Global;

/// Takes this sign or keyword, which has to be next.
#[tactic(auto, unfolding(crate::specs::Rules::sign_at))]
pub fn expect(cursor: &mut Cursor<'_>, sign: Sign) -> Result<(), TextRefusal>
    ensures { Passes result (left cursor.new) (sign_at sign (left cursor.old)) }
{
    if !cursor.is_at(sign) {
        return Err(TextRefusal::Unexpected { at: cursor.place() });
    }
    cursor.advance();
    Ok(())
}

/// Takes a string, which has to be next.
#[tactic(auto, unfolding(crate::specs::Rules::string_at))]
pub fn expect_string(alloc: Global, cursor: &mut Cursor<'_>) -> Result<Text, TextRefusal>
    ensures { Gives (λ t. t) result (left cursor.new) (string_at (left cursor.old)) }
{
    match cursor.peek() {
        Some(Token::String(spelled)) => {
            cursor.advance();
            Ok(unescape(alloc, spelled)?)
        }
        _ => Err(TextRefusal::Unexpected { at: cursor.place() }),
    }
}

/// Takes a name, which has to be next.
#[tactic(auto, unfolding(crate::specs::Rules::name_at))]
pub fn expect_name(alloc: Global, cursor: &mut Cursor<'_>) -> Result<Text, TextRefusal>
    ensures { Gives (λ t. t) result (left cursor.new) (name_at (left cursor.old)) }
{
    match cursor.peek() {
        Some(Token::Name(name)) => {
            cursor.advance();
            Ok(Text::from_str(alloc, name)?)
        }
        _ => Err(TextRefusal::Unexpected { at: cursor.place() }),
    }
}

fn expression(alloc: Global, cursor: &mut Cursor<'_>) -> Result<Expr, TextRefusal>
    ensures { Gives tree_of result (left cursor.new) (expression_at (left cursor.old)) }
{
    read_from(alloc, cursor, Nest::new(alloc), Start::Anywhere)
}

/// The rest of a call that is an action, behind its parenthesis.
fn arguments(alloc: Global, cursor: &mut Cursor<'_>, name: Text) -> Result<Expr, TextRefusal>
    ensures { Gives tree_of result (left cursor.new) (performed_at name (left cursor.old)) }
{
    let mut nest = Nest::new(alloc);
    nest.push(Open::Action(Pending {
        name,
        arguments: Vec::new(alloc),
        argument: None,
    }))?;
    read_from(alloc, cursor, nest, Start::FirstArgument)
}

#[tactic(auto, unfolding(crate::specs::Rules::let_at))]
fn let_action(alloc: Global, cursor: &mut Cursor<'_>) -> Result<Action, TextRefusal>
    ensures { Gives action_of result (left cursor.new) (let_at (left cursor.old)) }
{
    expect(cursor, Sign::Let)?;
    let name = expect_name(alloc, cursor)?;
    expect(cursor, Sign::Assign)?;
    let value = expression(alloc, cursor)?;
    expect(cursor, Sign::Semicolon)?;
    Ok(Action::Let(name, value))
}

#[tactic(auto, unfolding(crate::specs::Rules::call_at))]
fn call_action(alloc: Global, cursor: &mut Cursor<'_>) -> Result<Action, TextRefusal>
    ensures { Gives action_of result (left cursor.new) (call_at (left cursor.old)) }
{
    let name = expect_name(alloc, cursor)?;
    expect(cursor, Sign::Open)?;
    let called = arguments(alloc, cursor, name)?;
    expect(cursor, Sign::Semicolon)?;
    match called {
        Expr::Call(call) => Ok(Action::Do(call)),
        _ => Err(TextRefusal::Unexpected { at: cursor.place() }),
    }
}

fn action(alloc: Global, cursor: &mut Cursor<'_>) -> Result<Action, TextRefusal>
    ensures { Gives action_of result (left cursor.new) (action_at (left cursor.old)) }
{
    if cursor.is_at(Sign::Let) {
        return let_action(alloc, cursor);
    }
    call_action(alloc, cursor)
}

/// The actions up to `end`.
fn actions(alloc: Global, cursor: &mut Cursor<'_>) -> Result<Vec<Action>, TextRefusal>
    ensures { Gives (λ v. map action_of v.items) result (left cursor.new)
        (steps_at (suc (count (left cursor.old))) (left cursor.old)) }
{
    let mut actions = Vec::new(alloc);
    while !cursor.is_at(Sign::End) {
        actions.push(action(alloc, cursor)?)?;
    }
    cursor.advance();
    Ok(actions)
}

#[tactic(auto, unfolding(crate::specs::Rules::rule_at))]
fn rule(alloc: Global, mut cursor: Cursor<'_>) -> Result<Rule, TextRefusal>
    ensures { Answers rule_of result (rule_at (left cursor.entry)) }
{
    let cursor = &mut cursor;
    expect(cursor, Sign::Rule)?;
    let name = expect_string(alloc, cursor)?;
    expect(cursor, Sign::When)?;
    let condition = expression(alloc, cursor)?;
    expect(cursor, Sign::Then)?;
    let actions = actions(alloc, cursor)?;
    if cursor.peek().is_some() {
        return Err(TextRefusal::Unexpected { at: cursor.place() });
    }
    Ok(Rule {
        name,
        condition,
        actions,
    })
}

/// What a text is read as.
fn rule_from(alloc: Global, text: &str) -> Result<Rule, TextRefusal>
    ensures { Answers rule_of result (rule_text text.now) }
{
    let tokens = cut(alloc, text)?;
    rule(
        alloc,
        Cursor {
            tokens: tokens.as_slice(),
            end: text.len(),
        },
    )
}

/// The rule that a text is.
pub fn read_rule(alloc: Global, text: &str) -> Result<Rule, TextRefusal>
    // What is read is spelled so.
    ensures found { IfOk result (λ r. IsRule text.now (rule_of r)) }
    // What is spelled so is read, unless memory runs out.
    ensures only { (r : RuleTree) → IsRule text.now r → Answers rule_of result (Ok r) }
    // Which fault it is, and where.
    ensures exact { Answers rule_of result (rule_text text.now) }
{
    rule_from(alloc, text)
}
