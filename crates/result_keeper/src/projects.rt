// The projects of a keeper in memory, as they were put.
ghost use Rattle.std.specs.Prelude.{◌≡◌, map, IfOk, OnOk, OnErr, IfErr};
ghost use Rattle.std.specs.FinMap.{get, contains_key, insert, remove};
ghost use Rattle.result_keeper.specs.Kept.{bytes_cmp, put_answer, put_file, names_in};
ghost use Rattle.result_keeper.specs.Entries.{AreApart, file_bytes, project_entry, projects_of};

use crate::error::KeeperError;
use crate::parts::KeptProject;
use crate::places::{place_of_project, put_at};
use crate::project_name::ProjectName;
use crate::put::Put;
use std::alloc::{AllocError, Global};

// How many projects a keeper takes.
const MOST_PROJECTS: usize = 10_000;

// The file of a project.
pub fn find_file(
    alloc: Global,
    projects: &[KeptProject],
    name: &ProjectName,
) -> Result<Option<Vec<u8>>, AllocError>
    ensures { IfOk result (λ file. file_bytes file ≡ get (projects_of projects.now) name.now) }
{
    match place_of_project(projects, name) {
        Some(place) => Ok(Some(Vec::from_slice(alloc, &projects[place].file)?)),
        None => Ok(None),
    }
}

// What becomes of a project of that name.
fn answer_of(projects: &[KeptProject], name: &ProjectName) -> Put
    requires { AreApart bytes_cmp (map project_entry projects.now) }
    ensures { result ≡ put_answer (projects_of projects.now) name.now }
{
    if place_of_project(projects, name).is_some() {
        Put::Replaced
    } else if projects.len() >= MOST_PROJECTS {
        Put::Full
    } else {
        Put::Added
    }
}

// Keeps a file under a name, whatever is kept.
fn keep_file(
    alloc: Global,
    projects: &mut Vec<KeptProject>,
    name: &ProjectName,
    file: &[u8],
) -> Result<(), KeeperError>
    requires { AreApart bytes_cmp (map project_entry projects.old.items) }
    ensures ok { OnOk result (projects_of projects.new.items
        ≡ insert (projects_of projects.old.items) name.now file.now) }
    ensures err { OnErr result (projects.new.items ≡ projects.old.items) }
    ensures apart { AreApart bytes_cmp (map project_entry projects.new.items) }
    ensures memory { IfErr result (λ e. e ≡ KeeperError.Memory) }
{
    let place = place_of_project(projects, name);
    let file = Vec::from_slice(alloc, file)?;
    put_at(projects, place, KeptProject { name: *name, file })?;
    Ok(())
}

// Keeps a file under a name, unless the name is new and there are as many projects as a keeper
// takes.
pub fn put_project(
    alloc: Global,
    projects: &mut Vec<KeptProject>,
    name: &ProjectName,
    file: &[u8],
) -> Result<Put, KeeperError>
    requires { AreApart bytes_cmp (map project_entry projects.old.items) }
    ensures answer { IfOk result (λ put. put ≡ put_answer (projects_of projects.old.items)
        name.now) }
    ensures put { IfOk result (λ put. projects_of projects.new.items
        ≡ put_file put name.now file.now (projects_of projects.old.items)) }
    ensures err { OnErr result (projects.new.items ≡ projects.old.items) }
    ensures apart { AreApart bytes_cmp (map project_entry projects.new.items) }
    ensures memory { IfErr result (λ e. e ≡ KeeperError.Memory) }
{
    match answer_of(projects, name) {
        Put::Full => Ok(Put::Full),
        Put::Added => {
            keep_file(alloc, projects, name, file)?;
            Ok(Put::Added)
        }
        Put::Replaced => {
            keep_file(alloc, projects, name, file)?;
            Ok(Put::Replaced)
        }
    }
}

// Gives up the project of a name, and says whether it was kept.
pub fn remove_project(projects: &mut Vec<KeptProject>, name: &ProjectName) -> bool
    requires { AreApart bytes_cmp (map project_entry projects.old.items) }
    ensures kept { result ≡ contains_key (projects_of projects.old.items) name.now }
    ensures removed { projects_of projects.new.items ≡ remove (projects_of projects.old.items)
        name.now }
    ensures apart { AreApart bytes_cmp (map project_entry projects.new.items) }
{
    let kept = place_of_project(projects, name).is_some();
    projects.retain(|project| *name != project.name);
    kept
}

fn names_of_projects(
    alloc: Global,
    projects: &[KeptProject],
) -> Result<Vec<ProjectName>, AllocError>
    ensures { IfOk result (λ names. names.items ≡ map (λ p. p.name) projects.now) }
{
    let mut names = Vec::new(alloc);
    for project in projects {
        names.push(project.name)?;
    }
    Ok(names)
}

// The names in order.
pub fn sorted_names(alloc: Global, projects: &[KeptProject]) -> Result<Vec<ProjectName>, AllocError>
    requires { AreApart bytes_cmp (map project_entry projects.now) }
    ensures { IfOk result (λ names. names.items ≡ names_in (projects_of projects.now)) }
{
    let mut names = names_of_projects(alloc, projects)?;
    names.sort_unstable();
    Ok(names)
}
