// What stands in a configuration under a name: lists of it are copied, searched and compared alike.
ghost use Rattle.std.specs.Prelude.{◌≡◌, ◌↔◌, ◌++◌, ℕ, List, filter, IfOk, OnOk, IsTrue};
ghost use Rattle.gl_fields.specs.Fields.{comes_before};
ghost use Rattle.gl_settings.specs.Settings.{has_name, placed};

use gl_base::{Items, Text};
use std::alloc::{AllocError, Global};
use std::cmp::Ordering;

/// What stands in a configuration under a name.
pub trait Named: Drop {
    ghost name_of: { Self → List ℕ };

    fn name(&self) -> &str
        ensures { result.now ≡ name_of self.now };

    /// An equal one.
    fn copied(&self, alloc: Global) -> Result<Self, AllocError>
        ensures { IfOk result (λ x. x ≡ self.now) };

    /// Whether both are equal. It takes no memory.
    fn is_same(&self, other: &Self) -> bool
        ensures { IsTrue result ↔ (self.now ≡ other.now) };
}

/// Equal items.
pub fn copies<T: Named>(alloc: Global, items: &[T]) -> Result<Items<T>, AllocError>
    ensures { IfOk result (λ copies. copies ≡ items.now) }
{
    let mut copies = Items::new(alloc);
    for item in items {
        copies.push(item.copied(alloc)?)?;
    }
    Ok(copies)
}

/// Whether one of the items has this name.
pub fn has_name<T: Named>(name: &str, items: &[T]) -> bool
    ensures { result ≡ has_name T.name_of name.now items.now }
{
    for item in items {
        if name == item.name() {
            return true;
        }
    }
    false
}

/// Whether both have equal items, in the same order.
pub fn are_same<T: Named>(items: &[T], others: &[T]) -> bool
    ensures { IsTrue result ↔ (items.now ≡ others.now) }
{
    if items.len() != others.len() {
        return false;
    }
    for (index, item) in items.iter().enumerate() {
        if !item.is_same(&others[index]) {
            return false;
        }
    }
    true
}

/// The items, which stand by rising names, with this one where its name stands, or in the place of the one of its name.
pub fn placed<T: Named>(alloc: Global, item: T, items: &[T]) -> Result<Items<T>, AllocError>
    ensures { IfOk result (λ all. all ≡ placed T.name_of item items.now) }
{
    let name = Text::from_str(alloc, item.name())?;
    let mut all = copies_before(alloc, name.as_str(), items)?;
    all.push(item)?;
    push_behind(alloc, &mut all, name.as_str(), items)?;
    Ok(all)
}

/// Copies of the items whose names come before this one.
fn copies_before<T: Named>(alloc: Global, name: &str, items: &[T]) -> Result<Items<T>, AllocError>
    ensures { IfOk result (λ copies. copies ≡ filter (λ item. comes_before (T.name_of item) name.now) items.now) }
{
    let mut copies = Items::new(alloc);
    for item in items {
        if is_before(item.name(), name) {
            copies.push(item.copied(alloc)?)?;
        }
    }
    Ok(copies)
}

/// Copies of the items whose names come behind this one, at the end of these.
fn push_behind<T: Named>(
    alloc: Global,
    copies: &mut Items<T>,
    name: &str,
    items: &[T],
) -> Result<(), AllocError>
    ensures { OnOk result (copies.new ≡ copies.old ++ filter (λ item. comes_before name.now (T.name_of item)) items.now) }
{
    for item in items {
        if is_before(name, item.name()) {
            copies.push(item.copied(alloc)?)?;
        }
    }
    Ok(())
}

fn is_before(name: &str, other: &str) -> bool
    ensures { result ≡ comes_before name.now other.now }
{
    match name.cmp(other) {
        Ordering::Less => true,
        Ordering::Equal => false,
        Ordering::Greater => false,
    }
}
