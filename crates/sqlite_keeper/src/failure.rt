// What a refusal of the database is to the caller of the keeper.
ghost use Rattle.std.specs.Prelude.{◌≡◌, ◌≤◌};
ghost use Rattle.wb_outside.specs.Causes.{Rose};

use result_keeper::KeeperError;
use sqlite::{Error, ErrorCode};

// Counts the refusal, unless memory was wanting.
pub fn counted(faults: &mut u64, error: Error) -> KeeperError
    ensures later { faults.old ≤ faults.new }
    ensures cause { result ≡ KeeperError.Failed → Rose faults.old faults.new }
{
    match error {
        Error::SqliteFailure(ErrorCode::OutOfMemory) => KeeperError::Memory,
        _ => {
            *faults = faults.saturating_add(1);
            KeeperError::Failed
        }
    }
}

// The same where nothing is there yet that counts.
pub fn uncounted(error: Error) -> KeeperError {
    match error {
        Error::SqliteFailure(ErrorCode::OutOfMemory) => KeeperError::Memory,
        _ => KeeperError::Failed,
    }
}
