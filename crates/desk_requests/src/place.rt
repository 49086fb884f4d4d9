// The places of the desk.
ghost use Rattle.std.specs.Prelude.{◌≡◌, ◌==◌, not, IfOk, IfErr};
ghost use Rattle.std.specs.List.{prefix_len};
ghost use Rattle.desk_requests.specs.Places.{name_in, place_at, place_of, methods_at, methods_of, method_of, ask_of_all, ask_of_project, ask_of};

use crate::decision::{Ask, Command, Member, Methods};
use matchit::{InsertError, Router};
use result_keeper::ProjectName;
use std::alloc::{AllocError, Global};
use std::marker::Model;

/// A part of a project that has a place of its own.
#[derive(Clone, Copy, Debug, PartialEq, Eq)]
pub enum Part {
    /// The project's file.
    File,
    /// Its report.
    Report,
    /// Its tree list.
    Trees,
    /// The detail text of one of its trees.
    Detail,
}

/// A place of the desk.
#[derive(Clone, Copy, Debug)]
pub enum Place {
    /// The names of all projects.
    AllProjects,
    /// A part of the project with this name.
    Project(Part, ProjectName),
}

/// The methods that some place of the desk has.
#[derive(Clone, Copy, Debug, PartialEq, Eq)]
pub enum Method {
    /// GET.
    Get,
    /// PUT.
    Put,
    /// DELETE.
    Delete,
    /// POST.
    Post,
}

/// The routes of the desk.
#[derive(Drop)]
pub struct Routes {
    router: Router<Option<Part>>,
    ghost complete: { router ≡ desk_rows },
}

ghost use Rattle.desk_requests.specs.Places.{desk_rows};
ghost use Rattle.matchit.specs.declared.InsertError.TheVariants.{OutOfMemory};

fn router_of(alloc: Global) -> Result<Router<Option<Part>>, InsertError>
    ensures ok { IfOk result (λ router. router ≡ desk_rows) }
    ensures err { IfErr result (λ e. e ≡ OutOfMemory) }
{
    let mut router = Router::new(alloc);
    router.insert("/projects", None)?;
    router.insert("/projects/{name}", Some(Part::File))?;
    router.insert("/projects/{name}/report", Some(Part::Report))?;
    router.insert("/projects/{name}/trees", Some(Part::Trees))?;
    router.insert("/projects/{name}/detail", Some(Part::Detail))?;
    Ok(router)
}

impl Routes {
    /// The routes. Refused only for want of memory.
    pub fn new(alloc: Global) -> Result<Routes, AllocError> {
        match router_of(alloc) {
            Ok(router) => Ok(Routes { router }),
            Err(_) => Err(AllocError),
        }
    }

    /// The place of a target.
    pub(crate) fn place_of(&self, target: &str) -> Option<Place>
        ensures { result ≡ place_of target.now }
    {
        match self.router.at(target) {
            Ok(found) => place_at(*found.value, name_in(target.as_bytes())),
            Err(_) => None,
        }
    }
}

// How many bytes stand before the first slash.
fn segment_len(text: &[u8]) -> usize
    ensures { result ≡ prefix_len (λ b. not (b == 47)) text.now }
{
    text.iter().take_while(|b| **b != b'/').count()
}

// The bytes after `/projects/`, up to the next slash.
fn name_in(target: &[u8]) -> &[u8]
    ensures { result.now ≡ name_in target.now }
{
    let after = &target[target.len().min(10)..];
    &after[..segment_len(after)]
}

fn place_at(part: Option<Part>, name: &[u8]) -> Option<Place>
    ensures { result ≡ place_at part name.now }
{
    match part {
        None => Some(Place::AllProjects),
        Some(part) => ProjectName::new(name).map(|name| Place::Project(part, name)),
    }
}

impl Part {
    fn methods(self) -> Methods
        ensures { result ≡ methods_at self }
    {
        match self {
            Part::File => Methods::GetPutDelete,
            Part::Report | Part::Trees => Methods::Get,
            Part::Detail => Methods::Post,
        }
    }
}

impl Place {
    /// The methods that it has.
    pub fn methods(&self) -> Methods
        ensures { result ≡ methods_of self.now }
    {
        match self {
            Place::AllProjects => Methods::Get,
            Place::Project(part, _) => part.methods(),
        }
    }

    /// What a method asks for here: `None` where the place has no such method.
    pub fn ask(&self, method: &[u8]) -> Option<Ask>
        ensures { result ≡ ask_of self.now method.now }
    {
        let method = method_of(method)?;
        match self {
            Place::AllProjects => ask_of_all(method),
            Place::Project(part, name) => ask_of_project(*part, *name, method),
        }
    }
}

fn method_of(text: &[u8]) -> Option<Method>
    ensures { result ≡ method_of text.now }
{
    if text == b"GET".as_slice() {
        Some(Method::Get)
    } else if text == b"PUT".as_slice() {
        Some(Method::Put)
    } else if text == b"DELETE".as_slice() {
        Some(Method::Delete)
    } else if text == b"POST".as_slice() {
        Some(Method::Post)
    } else {
        None
    }
}

fn ask_of_all(method: Method) -> Option<Ask>
    ensures { result ≡ ask_of_all method }
{
    match method {
        Method::Get => Some(Ask::Plain(Command::Names)),
        _ => None,
    }
}

fn ask_of_project(part: Part, name: ProjectName, method: Method) -> Option<Ask>
    ensures { result ≡ ask_of_project part method name }
{
    match (part, method) {
        (Part::File, Method::Get) => Some(Ask::Plain(Command::Show(name))),
        (Part::File, Method::Put) => Some(Ask::WithText(Member::File, name)),
        (Part::File, Method::Delete) => Some(Ask::Plain(Command::Remove(name))),
        (Part::Report, Method::Get) => Some(Ask::Plain(Command::Report(name))),
        (Part::Trees, Method::Get) => Some(Ask::Plain(Command::Trees(name))),
        (Part::Detail, Method::Post) => Some(Ask::WithText(Member::Tree, name)),
        _ => None,
    }
}
