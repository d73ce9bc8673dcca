ghost use Rattle.std.specs.Prelude.{◌≡◌, IfOk};

use std::alloc::{AllocError, Global};

/// Values of which an equal one can be made, where there is memory.
///
/// A type derives `Clone` and gives its clone here, where contracts see that it is equal.
pub trait Copied: Clone {
    /// An equal value.
    fn copy(&self) -> Result<Self, AllocError>
        ensures { IfOk result (λ made. made ≡ self.now) };
}

/// An equal list of equal values.
pub fn copied_all<T: Copied>(alloc: Global, items: &[T]) -> Result<Vec<T>, AllocError>
    ensures { IfOk result (λ made. made.items ≡ items.now) }
{
    let mut made = Vec::with_capacity(alloc, items.len())?;
    for item in items {
        made.push(item.copy()?)?;
    }
    Ok(made)
}

impl Copied for u8 {
    fn copy(&self) -> Result<u8, AllocError> {
        Ok(*self)
    }
}

impl Copied for u32 {
    fn copy(&self) -> Result<u32, AllocError> {
        Ok(*self)
    }
}

impl Copied for u64 {
    fn copy(&self) -> Result<u64, AllocError> {
        Ok(*self)
    }
}

impl Copied for i32 {
    fn copy(&self) -> Result<i32, AllocError> {
        Ok(*self)
    }
}
