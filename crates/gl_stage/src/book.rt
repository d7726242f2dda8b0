ghost use Rattle.std.specs.Prelude.{◌≡◌, position, IfOk, OnOk};
ghost use Rattle.std.specs.List.{All};
ghost use Rattle.std.specs.Str.{bytes_eq};
ghost use Rattle.gl_functions.specs.Worlds.{known_of};
ghost use Rattle.gl_eval.specs.Meaning.{condition_holds};
ghost use Rattle.gl_eval.specs.Actions.{acted};
ghost use Rattle.gl_stage.specs.Stages.{acted_all};
ghost use Rattle.gl_stage.specs.Books.{Fits, rules_at};

use gl_base::Text;
use gl_check::Checked;
use gl_eval::{RulePatterns, Staged, act, holds};
use gl_functions::World;
use std::alloc::{AllocError, Global};
use std::marker::Model;

/// Checked rules, each with its compiled patterns. Contracts see each rule's tree and its patterns' texts.
#[derive(Drop)]
pub struct RuleBook {
    pub(crate) rules: Vec<(Checked, RulePatterns)>,
}

impl Model for RuleBook {
    ghost use Rattle.std.specs.Coded.{coded×, coded_list, coded_ℕ};
    ghost use Rattle.gl_check.specs.Codes.{rule_code};
    ghost use Rattle.gl_stage.specs.Books.{Book};

    ghost Value = { Book };

    ghost coded = { coded_list (coded× rule_code (coded_list (coded_list coded_ℕ))) };

    ghost view = { λ b. b.rules.items };
}

impl RuleBook {
    /// It takes no memory.
    pub fn new(rules: Vec<(Checked, RulePatterns)>) -> RuleBook
        ensures { result ≡ rules.items }
    {
        RuleBook { rules }
    }
}

fn has_name(rule: &Checked, name: &Text) -> bool
    ensures { result ≡ bytes_eq name.now rule.now.name }
{
    name.as_str() == rule.rule().name.as_str()
}

// The place of the rule of this name.
pub(crate) fn place_of(rules: &[(Checked, RulePatterns)], name: &Text) -> Option<usize>
    ensures { result ≡ position (λ kept. bytes_eq name.now kept.0.name) rules.now }
{
    rules.iter().position(|kept| has_name(&kept.0, name))
}

// Whether a rule of the book holds of a message.
pub(crate) fn rule_holds(
    alloc: Global,
    kept: &mut (Checked, RulePatterns),
    world: &World<'_>,
    message: &Staged,
) -> Result<bool, AllocError>
    requires { Fits kept.old }
    ensures value { IfOk result (λ yes. yes ≡ condition_holds (known_of world.now) message.now.fields message.now.streams kept.old.0) }
    ensures same { kept.new ≡ kept.old }
{
    holds(
        alloc,
        &kept.0,
        &mut kept.1,
        world,
        &message.fields,
        message.streams.as_slice(),
    )
}

// Does the actions of a rule of the book.
fn rule_acts(
    alloc: Global,
    kept: &mut (Checked, RulePatterns),
    world: &World<'_>,
    message: &mut Staged,
) -> Result<(), AllocError>
    requires { Fits kept.old }
    ensures done { OnOk result (message.new ≡ acted (known_of world.now) kept.old.0 message.old) }
    ensures same { kept.new ≡ kept.old }
{
    act(alloc, &kept.0, &mut kept.1, world, message)
}

// Does the actions of the rules at these places, one behind the other.
pub(crate) fn act_all(
    alloc: Global,
    places: &[usize],
    rules: &mut [(Checked, RulePatterns)],
    world: &World<'_>,
    message: &mut Staged,
) -> Result<(), AllocError>
    requires { All Fits rules.old }
    ensures done { OnOk result (message.new ≡ acted_all (known_of world.now) (rules_at rules.old places.now) message.old) }
    ensures same { rules.new ≡ rules.old }
{
    for place in places {
        if *place < rules.len() {
            rule_acts(alloc, &mut rules[*place], world, message)?;
        }
    }
    Ok(())
}
