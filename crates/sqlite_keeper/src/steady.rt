// Stores over which a keeper tells its tables.
ghost use Rattle.std.specs.Prelude.{◌≡◌, Bool, true, false, refl};
ghost use Rattle.std.proofs.Common.{true≢false, sym};
ghost use Rattle.sqlite_keeper.specs.Steady.{IsSteady, never_in_doubt};

use sqlite::{Alter, FileStore, MemStore};
use sqlite_disk::Disk;

/// A store of which it is known whether it is clean and open at all times.
pub trait Steady: Alter {
    ghost is_steady: { Bool };

    ghost stays: { (s : Self) → is_steady ≡ true → IsSteady (Self.Store.view s) };
}

impl Steady for MemStore {
    ghost is_steady = { true };

    ghost stays = { λ s _. record { clean = never_in_doubt true refl; is_open = refl } };
}

impl<D: Disk + Drop> Steady for FileStore<D> {
    ghost is_steady = { false };

    ghost stays = { λ s e. absurd (true≢false (sym e)) };
}
