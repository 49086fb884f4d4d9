// All that a store holds, as its calls tell.
use result_keeper::{Keeper, KeeperError, KeptProject, KeptRow, MemoryKeeper};
use std::alloc::Global;

/// What a store holds: its version, the projects by their names, the rows by context and tree.
#[derive(Debug, PartialEq, Eq, Drop)]
pub struct Content {
    version: u8,
    projects: Vec<KeptProject>,
    rows: Vec<KeptRow>,
}

/// What a store holds.
pub fn content_of(alloc: Global, keeper: &mut MemoryKeeper) -> Result<Content, KeeperError> {
    Ok(Content {
        version: keeper.version(),
        projects: projects_of(alloc, keeper)?,
        rows: rows_of(alloc, keeper)?,
    })
}

fn projects_of(alloc: Global, keeper: &mut MemoryKeeper) -> Result<Vec<KeptProject>, KeeperError> {
    let mut projects = Vec::new(alloc);
    for name in keeper.names(alloc)? {
        if let Some(file) = keeper.project(alloc, &name)? {
            projects.push(KeptProject { name, file })?;
        }
    }
    Ok(projects)
}

fn rows_of(alloc: Global, keeper: &mut MemoryKeeper) -> Result<Vec<KeptRow>, KeeperError> {
    let mut rows = Vec::new(alloc);
    for context in keeper.contexts(alloc)? {
        for row in keeper.results(alloc, &context)? {
            rows.push(KeptRow {
                context: context.clone()?,
                tree: row.tree,
                value: row.value,
            })?;
        }
    }
    Ok(rows)
}
