// The rules of a stream, from those of a command.
ghost use Rattle.std.specs.Prelude.{◌≡◌, None, IfOk, IfErr};
ghost use Rattle.gl_settings.specs.Limits.{Refuses};
ghost use Rattle.gl_config.specs.Next.{test_of, rule_of, rules_of};
ghost use Rattle.gl_config.specs.Applying.{fields_are_named, number_cause};

use gl_base::{Items, Text};
use gl_commands::{RuleParts, TestKind};
use gl_fields::is_field_name;
use gl_settings::{ConfigRefusal, Text as BadText};
use gl_streams::{StreamRule, Test};
use gl_text::whole_number;
use std::alloc::{AllocError, Global};

/// Whether the field of each rule is one that a message may have.
pub fn fields_are_named(rules: &[RuleParts]) -> bool
    ensures { result ≡ fields_are_named rules.now }
{
    rules.iter().all(|rule| is_field_name(rule.field.as_str()))
}

/// `None` where the value isn't the whole number that it should be.
fn test_of(kind: TestKind, value: &Text) -> Result<Option<Test>, AllocError>
    ensures { IfOk result (λ t. t ≡ test_of kind value.now) }
{
    Ok(match kind {
        TestKind::Exact => Some(Test::Exact(value.copy()?)),
        TestKind::Regex => Some(Test::Regex(value.copy()?)),
        TestKind::Greater => whole_number(value.as_str()).map(Test::Greater),
        TestKind::Smaller => whole_number(value.as_str()).map(Test::Smaller),
        TestKind::Presence => Some(Test::Presence),
        TestKind::Contains => Some(Test::Contains(value.copy()?)),
        TestKind::Always => Some(Test::Always),
    })
}

fn rule_of(rule: &RuleParts) -> Result<Option<StreamRule>, AllocError>
    ensures { IfOk result (λ r. r ≡ rule_of rule.now) }
{
    let Some(test) = test_of(rule.test, &rule.value)? else {
        return Ok(None);
    };
    Ok(Some(StreamRule {
        field: rule.field.copy()?,
        test,
        inverted: rule.inverted,
    }))
}

/// The rules of a stream, unless the value of one isn't the whole number that it should be.
pub fn rules_of(alloc: Global, rules: &[RuleParts]) -> Result<Items<StreamRule>, ConfigRefusal>
    ensures ok { IfOk result (λ made. (number_cause rules.now ≡ None) × (made ≡ rules_of rules.now)) }
    ensures err { IfErr result (Refuses (number_cause rules.now)) }
{
    let mut made = Items::new(alloc);
    for rule in rules {
        let Some(rule) = rule_of(rule)? else {
            return Err(ConfigRefusal::BadText(BadText::Number));
        };
        made.push(rule)?;
    }
    Ok(made)
}
