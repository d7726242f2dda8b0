// The patterns of rules, built.
ghost use Rattle.std.specs.Prelude.{◌≡◌, IfOk};
ghost use Rattle.gl_check.specs.Checking.{pattern_texts};

use gl_check::Checked;
use gl_eval::RulePatterns;
use gl_patterns::Pattern;
use std::alloc::{AllocError, Global};

/// A text as a pattern. One that is none ends the rows, as want of memory does.
fn pattern(alloc: Global, text: &str) -> Result<Pattern, AllocError>
    ensures { IfOk result (λ p. p ≡ text.now) }
{
    match Pattern::new(alloc, text) {
        Ok(pattern) => Ok(pattern),
        Err(_) => Err(AllocError),
    }
}

/// The patterns of a rule, in their order.
pub fn built(alloc: Global, rule: &Checked) -> Result<RulePatterns, AllocError>
    ensures { IfOk result (λ p. p ≡ pattern_texts rule.now) }
{
    let texts = rule.pattern_texts(alloc)?;
    let texts = texts.as_slice();
    let mut patterns = Vec::new(alloc);
    for text in texts {
        patterns.push(pattern(alloc, text.as_str())?)?;
    }
    Ok(RulePatterns::new(patterns))
}
