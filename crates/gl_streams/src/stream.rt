// What streams are made of.
ghost use Rattle.std.specs.Prelude.{◌≡◌, ◌↔◌, IfOk, IsTrue};

use gl_base::{Items, Text};
use std::alloc::{AllocError, Global};

/// What a rule asks of a field. Of a field that isn't there only `Always` is true.
#[derive(Drop)]
pub enum Test {
    /// The field's text has these bytes. The text of a whole number is its decimal.
    Exact(Text),
    /// A pattern in the syntax of `regex` is found in the field's text.
    Regex(Text),
    /// The field is a whole number greater than this, or a text that writes one.
    Greater(i64),
    /// The same, smaller.
    Smaller(i64),
    /// The field is there.
    Presence,
    /// The field's text has this part.
    Contains(Text),
    /// True of each message.
    Always,
}

/// A test of one field.
#[derive(Drop)]
pub struct StreamRule {
    pub field: Text,
    pub test: Test,
    /// The rule holds where the test doesn't.
    pub inverted: bool,
}

/// What a message goes to where its rules hold.
#[derive(Drop)]
pub struct Stream {
    pub id: u64,
    pub name: Text,
    pub index_set: Text,
    /// One rule is enough; else each must hold.
    pub any: bool,
    /// A message that goes to it isn't added to the default stream.
    pub remove_from_default: bool,
    /// It takes no message.
    pub paused: bool,
    pub rules: Items<StreamRule>,
}

impl Test {
    /// An equal test.
    pub fn copy(&self) -> Result<Test, AllocError>
        ensures { IfOk result (λ t. t ≡ self.now) }
    {
        match self {
            Test::Exact(text) => Ok(Test::Exact(text.copy()?)),
            Test::Regex(pattern) => Ok(Test::Regex(pattern.copy()?)),
            Test::Greater(bound) => Ok(Test::Greater(*bound)),
            Test::Smaller(bound) => Ok(Test::Smaller(*bound)),
            Test::Presence => Ok(Test::Presence),
            Test::Contains(part) => Ok(Test::Contains(part.copy()?)),
            Test::Always => Ok(Test::Always),
        }
    }

    /// Whether both are equal. It takes no memory.
    pub fn same(&self, other: &Test) -> bool
        ensures { IsTrue result ↔ (self.now ≡ other.now) }
    {
        match (self, other) {
            (Test::Exact(text), Test::Exact(other_text)) => text.same(other_text),
            (Test::Regex(pattern), Test::Regex(other_pattern)) => pattern.same(other_pattern),
            (Test::Greater(bound), Test::Greater(other_bound)) => *bound == *other_bound,
            (Test::Smaller(bound), Test::Smaller(other_bound)) => *bound == *other_bound,
            (Test::Presence, Test::Presence) => true,
            (Test::Contains(part), Test::Contains(other_part)) => part.same(other_part),
            (Test::Always, Test::Always) => true,
            _ => false,
        }
    }
}

impl StreamRule {
    /// An equal rule.
    pub fn copy(&self) -> Result<StreamRule, AllocError>
        ensures { IfOk result (λ r. r ≡ self.now) }
    {
        Ok(StreamRule {
            field: self.field.copy()?,
            test: self.test.copy()?,
            inverted: self.inverted,
        })
    }

    /// Whether both are equal. It takes no memory.
    pub fn same(&self, other: &StreamRule) -> bool
        ensures { IsTrue result ↔ (self.now ≡ other.now) }
    {
        self.inverted == other.inverted
            && self.field.same(&other.field)
            && self.test.same(&other.test)
    }
}

impl Stream {
    /// An equal stream.
    pub fn copy(&self, alloc: Global) -> Result<Stream, AllocError>
        ensures { IfOk result (λ s. s ≡ self.now) }
    {
        let mut rules = Items::with_capacity(alloc, self.rules.len())?;
        for rule in self.rules.as_slice() {
            rules.push(rule.copy()?)?;
        }
        Ok(Stream {
            id: self.id,
            name: self.name.copy()?,
            index_set: self.index_set.copy()?,
            any: self.any,
            remove_from_default: self.remove_from_default,
            paused: self.paused,
            rules,
        })
    }

    /// Whether both are equal. It takes no memory.
    pub fn same(&self, other: &Stream) -> bool
        ensures { IsTrue result ↔ (self.now ≡ other.now) }
    {
        if self.id != other.id || self.any != other.any {
            return false;
        }
        if self.remove_from_default != other.remove_from_default || self.paused != other.paused {
            return false;
        }
        if !self.name.same(&other.name) || !self.index_set.same(&other.index_set) {
            return false;
        }
        same_rules(self.rules.as_slice(), other.rules.as_slice())
    }
}

// Whether both have the same rules, in the same order.
fn same_rules(rules: &[StreamRule], others: &[StreamRule]) -> bool
    ensures { IsTrue result ↔ (rules.now ≡ others.now) }
{
    if rules.len() != others.len() {
        return false;
    }
    for (index, rule) in rules.iter().enumerate() {
        if !rule.same(&others[index]) {
            return false;
        }
    }
    true
}
