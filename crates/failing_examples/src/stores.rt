// Stores in memory with one project, which is the parabolic Anderson model in two dimensions.
ghost use Rattle.std.specs.Prelude.{◌<◌, length, IfOk};

use result_keeper::{KeptProject, KeptRow, MemoryKeeper, ProjectName};
use std::alloc::{AllocError, Global};

pub const PAM: &str =
    "version = 1\nscaling = [2, 1, 1]\n[[noise]]\nname = \"xi\"\ndegree = \"-1-k\"\n[[unknown]]\nname = \"u\"\ndegree = \"2\"\nregularity = \"1/2\"\nright = \"u*xi\"\n";

const CONTEXT: &str = "context 2|scaling 2,1,1|reflect -|noise xi -1-k xi|kernel u 2 -";

const OLD_CONTEXT: &str = "scaling 2,1,1|noise xi -1-k xi|kernel u 2";

/// What a store holds beside the project `pam`.
#[derive(Clone, Copy, Debug)]
pub enum Store {
    /// No row.
    Bare,
    /// This value for the tree `[xi]`.
    Valued { value: &'static str },
    /// The true value for the tree `[xi]`, in a store of version 1.
    Old,
}

impl Store {
    /// The store, whose call with this number fails, from 1.
    #[tactic(auto, using(result_keeper::proofs::Short::one_project, result_keeper::proofs::Short::one_row))]
    pub fn keeper(self, alloc: Global, failing: u64) -> Result<MemoryKeeper, AllocError> {
        let projects = projects(alloc)?;
        let failing = vec![in alloc; failing]?;
        Ok(match self {
            Store::Bare => MemoryKeeper::new(projects, Vec::new(alloc), failing),
            Store::Valued { value } => {
                MemoryKeeper::new(projects, rows(alloc, CONTEXT, value)?, failing)
            }
            Store::Old => MemoryKeeper::old(projects, rows(alloc, OLD_CONTEXT, "0 0")?, failing),
        })
    }
}

// The project `pam`.
fn projects(alloc: Global) -> Result<Vec<KeptProject>, AllocError>
    ensures { IfOk result (λ projects. length projects.items < 2) }
{
    let file = PAM.as_bytes().to_vec(alloc)?;
    let mut projects = Vec::new(alloc);
    if let Some(name) = ProjectName::new(b"pam") {
        projects.push(KeptProject { name, file })?;
    }
    Ok(projects)
}

// The row of the tree `[xi]`.
fn rows(alloc: Global, context: &str, value: &str) -> Result<Vec<KeptRow>, AllocError>
    ensures { IfOk result (λ rows. length rows.items < 2) }
{
    let context = context.as_bytes().to_vec(alloc)?;
    let tree = b"[xi]".to_vec(alloc)?;
    let value = value.as_bytes().to_vec(alloc)?;
    let mut rows = Vec::new(alloc);
    rows.push(KeptRow {
        context,
        tree,
        value,
    })?;
    Ok(rows)
}
