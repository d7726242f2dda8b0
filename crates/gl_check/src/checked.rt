ghost use Rattle.std.specs.Prelude.{◌≡◌, ◌↔◌, None, IfOk, IsTrue};
ghost use Rattle.gl_rulelang.specs.Tree.{rule_of};
ghost use Rattle.gl_check.specs.Checking.{first_fault, pattern_texts, IsChecked};

use crate::patterns::{push_patterns, push_steps};
use crate::refusal::CheckRefusal;
use crate::stand::Stand;
use crate::walk::{walk, walk_steps};
use gl_base::{Items, Joint, Text};
use gl_rulelang::Rule;
use std::alloc::{AllocError, Global};
use std::marker::Model;

/// A rule without a fault, which its owners share. Contracts see it as its tree.
#[derive(Drop)]
pub struct Checked {
    rule: Joint<Rule>,
}

impl Model for Checked {
    ghost use Rattle.gl_rulelang.specs.Tree.{RuleTree};
    ghost use Rattle.gl_check.specs.Codes.{rule_code};

    ghost Value = { RuleTree };

    ghost coded = { rule_code };

    ghost use Rattle.std.specs.Prelude.{◌≡◌, None};
    ghost use Rattle.gl_rulelang.specs.Tree.{rule_of};
    ghost use Rattle.gl_check.specs.Checking.{first_fault};

    ghost view = { λ c. rule_of c.rule };

    ghost invariant = { λ c. first_fault (rule_of c.rule) ≡ None };
}

/// Checks a rule: the rule itself exactly where it has no fault, and else the fault of its first faulty node.
///
/// After want of memory nothing is known of the rule, which is dropped as after each other refusal.
pub fn check(alloc: Global, rule: Rule) -> Result<Checked, CheckRefusal>
    ensures { IsChecked (rule_of rule) result }
{
    let next = walk(&[], Stand::Condition, &rule.condition, 0)?;
    walk_steps(alloc, &rule.actions, next)?;
    Ok(Checked {
        rule: Joint::new(alloc, rule)?,
    })
}

impl Checked {
    /// The rule, which has no fault. It takes no memory.
    pub fn rule(&self) -> &Rule
        ensures value { rule_of result.now ≡ self.now }
        ensures lawful { first_fault self.now ≡ None }
    {
        self.rule.get()
    }

    /// The patterns of the rule's calls, in the order of their nodes.
    #[tactic(auto, unfolding(crate::specs::Checking::pattern_texts))]
    pub fn pattern_texts(&self, alloc: Global) -> Result<Items<Text>, AllocError>
        ensures { IfOk result (λ texts. texts ≡ pattern_texts self.now) }
    {
        let rule = self.rule.get();
        let mut texts = Items::new(alloc);
        push_patterns(&mut texts, &rule.condition)?;
        push_steps(&mut texts, &rule.actions)?;
        Ok(texts)
    }

    /// Whether both are one rule. It takes no memory.
    pub fn same(&self, other: &Checked) -> bool
        ensures { IsTrue result ↔ (self.now ≡ other.now) }
    {
        self.rule.get().same(other.rule.get())
    }

    /// An equal rule: one more owner of the same one, which takes no memory.
    pub fn copy(&self) -> Result<Checked, AllocError>
        ensures { IfOk result (λ c. c ≡ self.now) }
    {
        Ok(Checked {
            rule: self.rule.share()?,
        })
    }
}
