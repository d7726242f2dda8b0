// Rules of streams: read, and written.
ghost use Rattle.std.specs.Prelude.{◌≡◌, codes, IfOk};
ghost use Rattle.serde_json.specs.View.{view};
ghost use Rattle.gl_commands.specs.Texts.{rule_data, list_data};
ghost use Rattle.gl_commands.specs.CommandReading.{list_at, rule_in, Reads};

use crate::RuleParts;
use crate::keys::{bool_at, key_count, test_at, text_at, values_at};
use crate::names::test_name;
use crate::unread::Unread;
use gl_base::Items;
use serde_json::{Value, json};
use std::alloc::{AllocError, Global};

/// How many keys a rule has.
const RULE_KEYS: usize = 4;

pub fn rules_at(alloc: Global, value: &Value) -> Result<Items<RuleParts>, Unread>
    ensures { Reads result (list_at rule_in (codes "rules") (view value.now)) }
{
    let values = values_at(value, "rules")?;
    let mut rules = Items::new(alloc);
    for value in values {
        rules.push(rule_from(alloc, value)?)?;
    }
    Ok(rules)
}

#[tactic(auto, unfolding(crate::specs::CommandReading::rule_in))]
fn rule_from(alloc: Global, value: &Value) -> Result<RuleParts, Unread>
    ensures { Reads result (rule_in (view value.now)) }
{
    let field = text_at(alloc, value, "field")?;
    let test = test_at(value, "test")?;
    let text = text_at(alloc, value, "value")?;
    let inverted = bool_at(value, "inverted")?;
    if key_count(value) != RULE_KEYS {
        return Err(Unread::Other);
    }
    Ok(RuleParts {
        field,
        test,
        value: text,
        inverted,
    })
}

pub fn rules_value(alloc: Global, rules: &[RuleParts]) -> Result<Value, AllocError>
    ensures { IfOk result (λ v. view v ≡ list_data rule_data rules.now) }
{
    let mut values = Vec::with_capacity(alloc, rules.len())?;
    for rule in rules {
        values.push(rule_value(alloc, rule)?)?;
    }
    Ok(Value::Array(values))
}

fn rule_value(alloc: Global, rule: &RuleParts) -> Result<Value, AllocError>
    ensures { IfOk result (λ v. view v ≡ rule_data rule.now) }
{
    json!(in alloc; {
        "field": rule.field.as_str(),
        "inverted": rule.inverted,
        "test": test_name(rule.test),
        "value": rule.value.as_str()
    })
}
