// Files that are read whole, up to a number of bytes.
ghost use Rattle.std.specs.Prelude.{◌≡◌, ◌≢◌, ℕ, List, [], ◌∷◌, ◌≤◌, length, take, IfOk, OnOk, IsErrOf, IsSome, Option, Some, Err};
ghost use Rattle.wb_outside.specs.Causes.{Rose};
ghost use Rattle.wb_outside.specs.Told.{Lengthens};

use std::alloc::{AllocError, AllocFailed, Global};

/// Why a call of the outside gave no answer.
#[derive(Clone, Copy, Debug, PartialEq, Eq)]
pub enum OutsideError {
    /// The call failed. The object's count of faults rose, or stands at its last value.
    Failed,
    /// There was no memory.
    Memory,
}

impl From<AllocError> for OutsideError {
    ghost use Rattle.wb_outside.specs.declared.files.OutsideError.TheVariants.{Memory};

    ghost from_gives = { λ _ e. e ≡ Memory };

    fn from(_: AllocError) -> Self {
        OutsideError::Memory
    }
}

impl<T: Drop> From<AllocFailed<T>> for OutsideError {
    ghost use Rattle.wb_outside.specs.declared.files.OutsideError.TheVariants.{Memory};

    ghost from_gives = { λ _ e. e ≡ Memory };

    fn from(_: AllocFailed<T>) -> Self {
        OutsideError::Memory
    }
}

/// Files by their names.
///
/// An object may tell its content: the text of each name, and the names that were asked for. One
/// that tells goes on telling.
pub trait Files {
    /// The names that were asked for, in order, where the object tells its content.
    ghost asked: { Self → Option (List (List ℕ)) };

    /// The text of each name. `None` where there is no such file, and where nothing is told.
    ghost text: { Self → List ℕ → Option (List ℕ) };

    /// How many calls have failed, as far as 2^64 - 1.
    ghost faults: { Self → ℕ };

    /// The bytes of the named file, cut after `most`. A file that is not there is a failed call.
    /// The name counts as asked for unless the answer is `Memory`.
    fn open_text(&mut self, alloc: Global, name: &str, most: usize) -> Result<Vec<u8>, OutsideError>
        // The answer.
        ensures bytes { IfOk result (λ v. (t : List ℕ) → text self.old name.now ≡ Some t →
            v.items ≡ take most t) }
        ensures there { OnOk result (IsSome (asked self.old) → IsSome (text self.old name.now)) }
        ensures cut { IfOk result (λ v. length v.items ≤ most) }

        // What is told afterwards.
        ensures same { (n : List ℕ) → text self.new n ≡ text self.old n }
        ensures asked { result ≢ Err OutsideError.Memory →
            Lengthens (asked self.old) (asked self.new) (name.now ∷ []) }
        ensures unasked { result ≡ Err OutsideError.Memory →
            Lengthens (asked self.old) (asked self.new) [] }

        // The count of faults never falls, and a call fails only where it rose.
        ensures later { faults self.old ≤ faults self.new }
        ensures cause { result ≡ Err OutsideError.Failed → Rose (faults self.old) (faults self.new) };
}
