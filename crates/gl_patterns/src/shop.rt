// Who builds patterns: the shop over `regex`, and one whose listed calls fail.
ghost use Rattle.std.specs.Prelude.{◌≡◌, ◌⊎◌, [], IsOk, IfOk, IsErrOf};
ghost use Rattle.gl_base.specs.Counts.{HasCause};
ghost use Rattle.gl_outside.specs.declared.fault.Outside.TheVariants.{Failed, OutOfMemory};
ghost use Rattle.gl_outside.specs.Listed.{IsListed, one_more};
ghost use Rattle.gl_patterns.specs.Patterns.{IsPattern};
ghost use Rattle.gl_patterns.specs.Shop.{ShopView, refused_after};

use crate::Pattern;
use gl_outside::{Outside, count_one, is_listed};
use std::alloc::Global;
use std::marker::Model;

/// Builds patterns.
pub trait PatternShop {
    ghost use Rattle.std.specs.Prelude.{List, ℕ};

    /// How often it has refused a text.
    ghost faults: { Self → ℕ };

    /// The last refused text, or none.
    ghost refused: { Self → List ℕ };

    /// Builds the pattern of a text. `Failed` is a refusal for another cause than memory.
    fn build(&mut self, text: &str) -> Result<Pattern, Outside>
        ensures text { IfOk result (λ p. p ≡ text.now) }
        ensures read { IsOk result → IsPattern text.now }
        ensures cause { HasCause Failed (faults self.old) (faults self.new) result }
        ensures refused { refused self.new ≡ refused_after result text.now (refused self.old) };

    /// How often it has refused a text, which never falls; it stays at 2^64 - 1.
    fn faults(&self) -> u64
        ensures { result ≡ faults self.now };

    /// The text of the last `build` that answered `Failed`; empty before the first.
    fn refused(&self) -> &str
        ensures { result.now ≡ refused self.now };
}

/// The pattern of a text; `Failed` where `regex` refuses the text.
fn pattern_of(alloc: Global, text: &str) -> Result<Pattern, Outside>
    ensures text { IfOk result (λ p. p ≡ text.now) }
    ensures read { IsOk result → IsPattern text.now }
{
    match Pattern::new(alloc, text) {
        Ok(pattern) => Ok(pattern),
        Err(regex::Error::OutOfMemory) => Err(Outside::OutOfMemory),
        Err(_) => Err(Outside::Failed),
    }
}

/// The shop over `regex`. Which texts it refuses isn't said: that depends on how large their expressions become.
#[derive(Drop)]
pub struct RegexShop {
    alloc: Global,
    refused: String,
    faults: u64,
}

impl Model for RegexShop {
    ghost use Rattle.std.specs.String.{string_bytes};
    ghost use Rattle.gl_patterns.specs.Shop.{Refusals};

    ghost Value = { Refusals };

    ghost view = { λ s. record { refused = string_bytes s.refused; faults = s.faults } };
}

impl RegexShop {
    /// A shop that has refused nothing.
    pub fn new(alloc: Global) -> RegexShop
        ensures { result ≡ record { refused = []; faults = 0 } }
    {
        RegexShop {
            alloc,
            refused: String::new(alloc),
            faults: 0,
        }
    }
}

impl PatternShop for RegexShop {
    ghost faults = { λ s. s.faults };

    ghost refused = { λ s. s.refused };

    fn build(&mut self, text: &str) -> Result<Pattern, Outside>
        ensures text { IfOk result (λ p. p ≡ text.now) }
        ensures read { IsOk result → IsPattern text.now }
        ensures cause { HasCause Failed self.old.faults self.new.faults result }
        ensures refused { self.new.refused ≡ refused_after result text.now self.old.refused }
        ensures fault { IsErrOf result Failed → self.new ≡ record { refused = text.now; faults = one_more self.old.faults } }
        ensures same { (IsErrOf result Failed → ⊥) → self.new ≡ self.old }
    {
        let refused = String::from_str(self.alloc, text)?;
        let built = pattern_of(self.alloc, text);
        if let Err(Outside::Failed) = built {
            count_one(&mut self.faults);
            self.refused = refused;
        }
        built
    }

    fn faults(&self) -> u64 {
        self.faults
    }

    fn refused(&self) -> &str {
        self.refused.as_str()
    }
}

/// A shop whose listed calls fail, and which otherwise builds as `regex` does.
#[derive(Drop)]
pub struct ListShop {
    alloc: Global,
    refused: String,
    failing: Vec<u64>,
    made: u64,
    faults: u64,
}

impl Model for ListShop {
    ghost use Rattle.std.specs.String.{string_bytes};
    ghost use Rattle.gl_patterns.specs.Shop.{ShopView};

    ghost Value = { ShopView };

    ghost view = { λ s. record { refused = string_bytes s.refused; failing = s.failing.items; made = s.made; faults = s.faults } };
}

impl ListShop {
    /// A shop that has refused nothing. The calls whose numbers are in `failing` are to fail; the first call is 1.
    pub fn new(alloc: Global, failing: Vec<u64>) -> ListShop
        ensures { result ≡ record { refused = []; failing = failing.items; made = 0; faults = 0 } }
    {
        ListShop {
            alloc,
            refused: String::new(alloc),
            failing,
            made: 0,
            faults: 0,
        }
    }
}

impl PatternShop for ListShop {
    ghost faults = { λ s. s.faults };

    ghost refused = { λ s. s.refused };

    fn build(&mut self, text: &str) -> Result<Pattern, Outside>
        ensures text { IfOk result (λ p. p ≡ text.now) }
        ensures read { IsOk result → IsPattern text.now }
        ensures cause { HasCause Failed self.old.faults self.new.faults result }
        ensures refused { self.new.refused ≡ refused_after result text.now self.old.refused }
        ensures listed { IsListed self.old.failing self.old.made → IsErrOf result Failed ⊎ IsErrOf result OutOfMemory }
        ensures fault { IsErrOf result Failed → self.new ≡ record { refused = text.now; failing = self.old.failing; made = one_more self.old.made; faults = one_more self.old.faults } }
        ensures built { IsOk result → self.new ≡ record self.old { made = one_more self.old.made } }
        // Where memory is wanting, the call isn't counted.
        ensures memory { IsErrOf result OutOfMemory → self.new ≡ self.old }
    {
        let refused = String::from_str(self.alloc, text)?;
        let mut made = self.made;
        let built = if is_listed(&self.failing, &mut made) {
            Err(Outside::Failed)
        } else {
            pattern_of(self.alloc, text)
        };
        match built {
            Ok(pattern) => {
                self.made = made;
                Ok(pattern)
            }
            Err(Outside::Failed) => {
                self.made = made;
                count_one(&mut self.faults);
                self.refused = refused;
                Err(Outside::Failed)
            }
            Err(Outside::OutOfMemory) => Err(Outside::OutOfMemory),
        }
    }

    fn faults(&self) -> u64 {
        self.faults
    }

    fn refused(&self) -> &str {
        self.refused.as_str()
    }
}
