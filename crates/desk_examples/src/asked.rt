// Requests to the workbench over a store and a door in memory.
ghost use Rattle.std.specs.Prelude.{◌<◌};

use desk_clerk::answer_connection;
use extraction_coproduct::Work;
use result_keeper::{Keeper, KeeperError, MemoryKeeper, ProjectName};
use std::alloc::Global;
use wb_outside::{MemoryDoor, OutsideError};

// Room for the longest response.
const ROOM: usize = 10_000;

/// The parabolic Anderson model in two dimensions.
pub const PAM: &str =
    "version = 1\nscaling = [2, 1, 1]\n[[noise]]\nname = \"xi\"\ndegree = \"-1-k\"\n[[unknown]]\nname = \"u\"\ndegree = \"2\"\nregularity = \"1/2\"\nright = \"u*xi\"\n";

/// A keeper without projects and rows. The calls with these numbers fail.
#[tactic(auto, using(result_keeper::proofs::Short::one_project, result_keeper::proofs::Short::one_row))]
pub fn empty_keeper(alloc: Global, failing: Vec<u64>) -> MemoryKeeper {
    MemoryKeeper::new(Vec::new(alloc), Vec::new(alloc), failing)
}

/// The same in version 1.
#[tactic(auto, using(result_keeper::proofs::Short::one_project, result_keeper::proofs::Short::one_row))]
pub fn old_keeper(alloc: Global) -> MemoryKeeper {
    MemoryKeeper::old(Vec::new(alloc), Vec::new(alloc), Vec::new(alloc))
}

/// Keeps the file under the name `pam`.
pub fn put_pam<K: Keeper>(alloc: Global, keeper: &mut K) -> Result<(), KeeperError> {
    let Some(name) = ProjectName::new(b"pam") else {
        return Err(KeeperError::Failed);
    };
    keeper.put_project(alloc, &name, PAM.as_bytes())?;
    Ok(())
}

/// The response to a peer that sends these bytes, which come in pieces of at most `cut`.
pub fn response<K: Keeper>(
    alloc: Global,
    keeper: &mut K,
    sent: &[u8],
    cut: usize,
) -> Result<Vec<u8>, OutsideError>
    requires { 0 < cut }
{
    let mut connections = Vec::new(alloc);
    connections.push(sent.to_vec(alloc)?)?;
    let mut door = MemoryDoor::new(alloc, connections, cut, ROOM, Vec::new(alloc))?;
    let mut work = Work { tables: 0 };
    let _ = answer_connection(alloc, &mut door, keeper, &mut work);
    Ok(door.written(0).to_vec(alloc)?)
}

/// A request and its response.
pub type Case = (&'static str, &'static str);

/// The first of the requests, one after the other, that has another response.
pub fn first_other<K: Keeper>(
    alloc: Global,
    keeper: &mut K,
    cut: usize,
    cases: &[Case],
) -> Result<Option<&'static str>, OutsideError>
    requires { 0 < cut }
{
    for (sent, answer) in cases {
        let written = response(alloc, keeper, sent.as_bytes(), cut)?;
        if written.as_slice() != answer.as_bytes() {
            return Ok(Some(sent));
        }
    }
    Ok(None)
}
