ghost use Rattle.std.specs.Prelude.{◌≡◌, ◌↔◌, IfOk, IsTrue};

use gl_base::Text;
use std::alloc::AllocError;

/// When an index set begins a new index, and how many it keeps.
#[derive(Drop)]
pub struct SetRule {
    pub name: Text,
    /// A new index is begun once the newest has so many rows; 0 for no limit.
    pub max_docs: u64,
    /// A new index is begun once the first row of the newest is so old, in milliseconds; 0 for no limit.
    pub max_ms: u64,
    /// How many indexes are kept, the newest among them.
    pub keep: u64,
}

impl SetRule {
    /// An equal rule.
    pub fn copy(&self) -> Result<SetRule, AllocError>
        ensures { IfOk result (λ r. r ≡ self.now) }
    {
        Ok(SetRule {
            name: self.name.copy()?,
            max_docs: self.max_docs,
            max_ms: self.max_ms,
            keep: self.keep,
        })
    }

    /// Whether both are equal. It takes no memory.
    pub fn same(&self, other: &SetRule) -> bool
        ensures { IsTrue result ↔ (self.now ≡ other.now) }
    {
        self.max_docs == other.max_docs
            && self.max_ms == other.max_ms
            && self.keep == other.keep
            && self.name.same(&other.name)
    }
}
