ghost use Rattle.std.specs.Prelude.{◌≡◌, ◌≤◌, [], length, suc, Some, None, Ok, IfOk, OnOk};
ghost use Rattle.std.specs.List.{prefix_len};
ghost use Rattle.gl_rulelang.specs.Tokens.{left, tokens_from};
ghost use Rattle.gl_rulelang.specs.Faults.{Gives, Answers};
ghost use Rattle.gl_rulelang.specs.Rules.{count};
ghost use Rattle.gl_rulelang.specs.Sentences.{IsPipeline};
ghost use Rattle.gl_rulelang.specs.Pipelines.{last_stage, has_number, is_lower, with_stage, number_at, mode_at, rule_name_at, names_at, stage_at, stages_at, pipeline_at, pipeline_text};

use crate::cut::cut;
use crate::pipeline::{LAST_STAGE, Mode, Pipeline, Stage};
use crate::read::{expect, expect_string};
use crate::refusal::TextRefusal;
use crate::token::{Cursor, Sign, Token};
use gl_base::{Items, Text};
use std::alloc::{AllocError, Global};

/// Whether one of the stages has this number.
fn has_number(stages: &[Stage], number: u32) -> bool
    ensures { result ≡ has_number number stages.now }
{
    stages.iter().any(|stage| stage.number == number)
}

/// How many of the stages at the front have a lower number.
fn lower_count(stages: &[Stage], number: u32) -> usize
    ensures count { result ≡ prefix_len (is_lower number) stages.now }
    ensures within { result ≤ length stages.now }
{
    for (i, stage) in stages.iter().enumerate() {
        if stage.number >= number {
            return i;
        }
    }
    stages.len()
}

/// Takes the number of a stage, which none of the stages before has.
#[tactic(auto, unfolding(crate::specs::Pipelines::number_at))]
fn expect_number(cursor: &mut Cursor<'_>, stages: &[Stage]) -> Result<u32, TextRefusal>
    ensures { Gives (λ n. n) result (left cursor.new) (number_at stages.now (left cursor.old)) }
{
    let at = cursor.place();
    let number = match cursor.peek() {
        Some(Token::Number(number)) => number,
        _ => return Err(TextRefusal::Unexpected { at }),
    };
    if number < 0 || number > LAST_STAGE as i64 {
        return Err(TextRefusal::Unexpected { at });
    }
    let number = number as u32;
    if has_number(stages, number) {
        return Err(TextRefusal::Unexpected { at });
    }
    cursor.advance();
    Ok(number)
}

#[tactic(auto, unfolding(crate::specs::Pipelines::mode_at))]
fn expect_mode(cursor: &mut Cursor<'_>) -> Result<Mode, TextRefusal>
    ensures { Gives (λ m. m) result (left cursor.new) (mode_at (left cursor.old)) }
{
    if cursor.is_at(Sign::All) {
        cursor.advance();
        return Ok(Mode::All);
    }
    if cursor.is_at(Sign::Either) {
        cursor.advance();
        return Ok(Mode::Either);
    }
    if cursor.is_at(Sign::Pass) {
        cursor.advance();
        return Ok(Mode::Pass);
    }
    Err(TextRefusal::Unexpected { at: cursor.place() })
}

#[tactic(auto, unfolding(crate::specs::Pipelines::rule_name_at))]
fn rule_name(alloc: Global, cursor: &mut Cursor<'_>) -> Result<Text, TextRefusal>
    ensures { Gives (λ t. t) result (left cursor.new) (rule_name_at (left cursor.old)) }
{
    expect(cursor, Sign::Rule)?;
    let name = expect_string(alloc, cursor)?;
    expect(cursor, Sign::Semicolon)?;
    Ok(name)
}

/// The rules of a stage.
fn rule_names(alloc: Global, cursor: &mut Cursor<'_>) -> Result<Vec<Text>, TextRefusal>
    ensures { Gives (λ v. v.items) result (left cursor.new) (names_at (suc (count (left cursor.old))) (left cursor.old)) }
{
    let mut names = Vec::new(alloc);
    while cursor.is_at(Sign::Rule) {
        names.push(rule_name(alloc, cursor)?)?;
    }
    Ok(names)
}

#[tactic(auto, unfolding(crate::specs::Pipelines::stage_at))]
fn stage(alloc: Global, cursor: &mut Cursor<'_>, stages: &[Stage]) -> Result<Stage, TextRefusal>
    ensures { Gives (λ s. s) result (left cursor.new) (stage_at stages.now (left cursor.old)) }
{
    expect(cursor, Sign::Stage)?;
    let number = expect_number(cursor, stages)?;
    expect(cursor, Sign::Match)?;
    let mode = expect_mode(cursor)?;
    let rules = Items::from_vec(rule_names(alloc, cursor)?);
    Ok(Stage {
        number,
        mode,
        rules,
    })
}

/// Puts a stage behind those of lower number.
fn insert(stages: &mut Vec<Stage>, stage: Stage) -> Result<(), AllocError>
    ensures { OnOk result (stages.new.items ≡ with_stage stages.old.items stage) }
{
    let place = lower_count(stages, stage.number);
    stages.insert(place, stage)?;
    Ok(())
}

/// The stages up to `end`, by rising number.
fn stages(alloc: Global, cursor: &mut Cursor<'_>) -> Result<Vec<Stage>, TextRefusal>
    ensures { Gives (λ v. v.items) result (left cursor.new)
        (stages_at (suc (count (left cursor.old))) [] (left cursor.old)) }
{
    let mut stages = Vec::new(alloc);
    while !cursor.is_at(Sign::End) {
        let stage = stage(alloc, cursor, stages.as_slice())?;
        insert(&mut stages, stage)?;
    }
    cursor.advance();
    Ok(stages)
}

#[tactic(auto, unfolding(crate::specs::Pipelines::pipeline_at))]
fn pipeline(alloc: Global, mut cursor: Cursor<'_>) -> Result<Pipeline, TextRefusal>
    ensures { Answers (λ p. p) result (pipeline_at (left cursor.entry)) }
{
    let cursor = &mut cursor;
    expect(cursor, Sign::Pipeline)?;
    let name = expect_string(alloc, cursor)?;
    let stages = Items::from_vec(stages(alloc, cursor)?);
    if cursor.peek().is_some() {
        return Err(TextRefusal::Unexpected { at: cursor.place() });
    }
    Ok(Pipeline { name, stages })
}

/// What a text is read as.
fn pipeline_from(alloc: Global, text: &str) -> Result<Pipeline, TextRefusal>
    ensures { Answers (λ p. p) result (pipeline_text text.now) }
{
    let tokens = cut(alloc, text)?;
    pipeline(
        alloc,
        Cursor {
            tokens: tokens.as_slice(),
            end: text.len(),
        },
    )
}

/// The pipeline that a text is.
pub fn read_pipeline(alloc: Global, text: &str) -> Result<Pipeline, TextRefusal>
    // What is read is spelled so.
    ensures found { IfOk result (λ p. IsPipeline text.now p) }
    // What is spelled so is read, unless memory runs out.
    ensures only { (p : Pipeline) → IsPipeline text.now p → Answers (λ p. p) result (Ok p) }
    // Which fault it is, and where.
    ensures exact { Answers (λ p. p) result (pipeline_text text.now) }
{
    pipeline_from(alloc, text)
}
