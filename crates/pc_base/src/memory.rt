ghost use Rattle.std.specs.Prelude.{◌≡◌, IfOk};

use std::alloc::{AllocError, AllocFailed};

/// Memory ran out. What a call leaves behind then is said by the call.
#[derive(Clone, Copy, Debug, PartialEq, Eq)]
pub struct NoMemory;

impl From<AllocError> for NoMemory {
    fn from(_refused: AllocError) -> NoMemory {
        NoMemory
    }
}

impl<T: Drop> From<AllocFailed<T>> for NoMemory {
    fn from(_refused: AllocFailed<T>) -> NoMemory {
        NoMemory
    }
}

/// A value that can be copied where memory allows it.
pub trait TryCopy {
    /// An equal value of its own memory.
    fn copy(&self) -> Result<Self, NoMemory>
        ensures { IfOk result (λ made. made ≡ self.now) };
}

impl TryCopy for u32 {
    fn copy(&self) -> Result<u32, NoMemory> {
        Ok(*self)
    }
}

impl<T: TryCopy> TryCopy for Option<T> {
    fn copy(&self) -> Result<Option<T>, NoMemory> {
        match self {
            Some(held) => Ok(Some(held.copy()?)),
            None => Ok(None),
        }
    }
}

impl<A: TryCopy + Drop, B: TryCopy + Drop> TryCopy for (A, B) {
    fn copy(&self) -> Result<(A, B), NoMemory> {
        let first = self.0.copy()?;
        let second = self.1.copy()?;
        Ok((first, second))
    }
}

impl<A: TryCopy + Drop, B: TryCopy + Drop, C: TryCopy + Drop> TryCopy for (A, B, C) {
    fn copy(&self) -> Result<(A, B, C), NoMemory> {
        let first = self.0.copy()?;
        let second = self.1.copy()?;
        let third = self.2.copy()?;
        Ok((first, second, third))
    }
}
