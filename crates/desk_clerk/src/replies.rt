// The responses to the commands of the desk, one by one.
ghost use Rattle.std.specs.Prelude.{◌≡◌, ◌≢◌, ◌≤◌, ℕ, true, false, Option, None, Some, IfOk, MatchResult};
ghost use Rattle.wb_outside.specs.Causes.{Rose};
ghost use Rattle.desk_requests.specs.declared.Command.TheVariants.{Names, Show, Add, Remove, Report, Trees, Detail};
ghost use Rattle.desk_responses.specs.declared.status.Status.TheVariants as Statuses;
ghost use Rattle.http_desk.specs.Pages.{page_of};
ghost use Rattle.http_desk.specs.Replies.{text_page, put_page, refused_page};
ghost use Rattle.workbench_core.specs.declared.refusal.Refusal.TheVariants.{Full, StoreFault, Memory};
ghost use Rattle.workbench_core.specs.Refusals.{status_of, line_of};
ghost use Rattle.desk_clerk.specs.Replies.{fault_page, IsRepliedWith};

use extraction_coproduct::Work;
use http_desk::Reply;
use result_keeper::{Keeper, KeeperError, ProjectName, Put};
use std::alloc::{AllocError, Global};
use workbench_core::{Refusal, print_refusal};
use workbench_store::{add, compute, detail, remove, show, trees};

// The response to a command that was refused; none where that was for want of memory. `adds`: the
// command was to keep a file, so that a refusal with status 10 says that there are too many projects.
fn refused(alloc: Global, refusal: &Refusal, adds: bool) -> Result<Reply, AllocError>
    ensures page { IfOk result (λ r. page_of r
        ≡ refused_page (status_of refusal.now) adds (line_of refusal.now)) }
    ensures no_memory { IfOk result (λ _. refusal.now ≢ Memory) }
    ensures fault { IfOk result (λ r. r.status ≡ Statuses.InternalServerError
        → refusal.now ≡ StoreFault) }
{
    if let Refusal::Memory = refusal {
        return Err(AllocError);
    }
    match print_refusal(alloc, refusal) {
        Ok(line) => Ok(Reply::of_refusal(refusal.status(), adds, line)),
        Err(_) => Err(AllocError),
    }
}

// The response with a text, or to a command that was refused.
fn text_reply(alloc: Global, text: Result<Vec<u8>, Refusal>) -> Result<Reply, AllocError>
    ensures page { IfOk result (λ r. MatchResult text (λ v. page_of r ≡ text_page v.items)
        (λ e. (e ≢ Memory) × (page_of r ≡ refused_page (status_of e) false (line_of e)))) }
    ensures fault { IfOk result (λ r. r.status ≡ Statuses.InternalServerError
        → text ≡ Err StoreFault) }
{
    match text {
        Ok(text) => Ok(Reply::of_text(text)),
        Err(refusal) => refused(alloc, &refusal, false),
    }
}

// The response where a call of the keeper gave no answer; none for want of memory.
fn failed(alloc: Global, error: KeeperError) -> Result<Reply, AllocError>
    ensures page { IfOk result (λ r. page_of r ≡ fault_page) }
    ensures fault { IfOk result (λ _. error ≡ KeeperError.Failed) }
{
    match error {
        KeeperError::Failed => refused(alloc, &Refusal::StoreFault, false),
        KeeperError::Memory => Err(AllocError),
    }
}

/// The names of the projects.
pub(crate) fn names_reply<K: Keeper>(alloc: Global, keeper: &mut K) -> Result<Reply, AllocError>
    ensures replied { (n : ℕ) → IsRepliedWith Names n n (K.told keeper.old)
        (K.told keeper.new) result }
    ensures fault { IfOk result (λ r. r.status ≡ Statuses.InternalServerError
        → Rose (K.faults keeper.old) (K.faults keeper.new)) }
    ensures later { K.faults keeper.old ≤ K.faults keeper.new }
    ensures version { K.version keeper.new ≡ K.version keeper.old }
{
    match keeper.names(alloc) {
        Ok(names) => Reply::of_names(alloc, &names),
        Err(error) => failed(alloc, error),
    }
}

/// The file of a project.
pub(crate) fn show_reply<K: Keeper>(
    alloc: Global,
    keeper: &mut K,
    name: &ProjectName,
) -> Result<Reply, AllocError>
    ensures replied { (n : ℕ) → IsRepliedWith (Show name.now) n n (K.told keeper.old)
        (K.told keeper.new) result }
    ensures fault { IfOk result (λ r. r.status ≡ Statuses.InternalServerError
        → Rose (K.faults keeper.old) (K.faults keeper.new)) }
    ensures later { K.faults keeper.old ≤ K.faults keeper.new }
    ensures version { K.version keeper.new ≡ K.version keeper.old }
{
    text_reply(alloc, show(alloc, keeper, name))
}

// The response where a file was put, or where there are too many projects.
fn put_reply(alloc: Global, put: Put, name: &ProjectName) -> Result<Reply, AllocError>
    ensures full { put ≡ Put.Full
        → IfOk result (λ r. page_of r ≡ refused_page (status_of Full) true (line_of Full)) }
    ensures kept { put ≢ Put.Full → IfOk result (λ r. page_of r ≡ put_page put name.now) }
    ensures no_fault { IfOk result (λ r. r.status ≢ Statuses.InternalServerError) }
{
    match put {
        Put::Full => refused(alloc, &Refusal::Full, true),
        Put::Added | Put::Replaced => Reply::of_put(alloc, put, name),
    }
}

/// That a file is kept under a name.
pub(crate) fn add_reply<K: Keeper>(
    alloc: Global,
    keeper: &mut K,
    name: &ProjectName,
    file: &[u8],
) -> Result<Reply, AllocError>
    ensures replied { (n : ℕ) → IsRepliedWith (Add name.now file.now) n n (K.told keeper.old)
        (K.told keeper.new) result }
    ensures fault { IfOk result (λ r. r.status ≡ Statuses.InternalServerError
        → Rose (K.faults keeper.old) (K.faults keeper.new)) }
    ensures later { K.faults keeper.old ≤ K.faults keeper.new }
    ensures version { K.version keeper.new ≡ K.version keeper.old }
{
    match add(alloc, keeper, name, file) {
        Ok(put) => put_reply(alloc, put, name),
        Err(refusal) => refused(alloc, &refusal, true),
    }
}

/// That a project is given up.
pub(crate) fn remove_reply<K: Keeper>(
    alloc: Global,
    keeper: &mut K,
    name: &ProjectName,
) -> Result<Reply, AllocError>
    ensures replied { (n : ℕ) → IsRepliedWith (Remove name.now) n n (K.told keeper.old)
        (K.told keeper.new) result }
    ensures fault { IfOk result (λ r. r.status ≡ Statuses.InternalServerError
        → Rose (K.faults keeper.old) (K.faults keeper.new)) }
    ensures later { K.faults keeper.old ≤ K.faults keeper.new }
    ensures version { K.version keeper.new ≡ K.version keeper.old }
{
    text_reply(alloc, remove(alloc, keeper, name))
}

/// The report of a project. What is finished for it is counted.
pub(crate) fn report_reply<K: Keeper>(
    alloc: Global,
    keeper: &mut K,
    name: &ProjectName,
    work: &mut Work,
) -> Result<Reply, AllocError>
    ensures replied { IsRepliedWith (Report name.now) work.old.tables work.new.tables
        (K.told keeper.old) (K.told keeper.new) result }
    ensures fault { IfOk result (λ r. r.status ≡ Statuses.InternalServerError
        → Rose (K.faults keeper.old) (K.faults keeper.new)) }
    ensures later { K.faults keeper.old ≤ K.faults keeper.new }
    ensures version { K.version keeper.new ≡ K.version keeper.old }
{
    match compute(alloc, keeper, name, false, work) {
        Ok(computed) => Ok(Reply::of_text(computed.report)),
        Err(refusal) => refused(alloc, &refusal, false),
    }
}

/// The tree list of a project.
pub(crate) fn trees_reply<K: Keeper>(
    alloc: Global,
    keeper: &mut K,
    name: &ProjectName,
) -> Result<Reply, AllocError>
    ensures replied { (n : ℕ) → IsRepliedWith (Trees name.now) n n (K.told keeper.old)
        (K.told keeper.new) result }
    ensures fault { IfOk result (λ r. r.status ≡ Statuses.InternalServerError
        → Rose (K.faults keeper.old) (K.faults keeper.new)) }
    ensures later { K.faults keeper.old ≤ K.faults keeper.new }
    ensures version { K.version keeper.new ≡ K.version keeper.old }
{
    text_reply(alloc, trees(alloc, keeper, name))
}

/// All that is known of one tree of a project's types.
pub(crate) fn detail_reply<K: Keeper>(
    alloc: Global,
    keeper: &mut K,
    name: &ProjectName,
    tree: &[u8],
) -> Result<Reply, AllocError>
    ensures replied { (n : ℕ) → IsRepliedWith (Detail name.now tree.now) n n (K.told keeper.old)
        (K.told keeper.new) result }
    ensures fault { IfOk result (λ r. r.status ≡ Statuses.InternalServerError
        → Rose (K.faults keeper.old) (K.faults keeper.new)) }
    ensures later { K.faults keeper.old ≤ K.faults keeper.new }
    ensures version { K.version keeper.new ≡ K.version keeper.old }
{
    text_reply(alloc, detail(alloc, keeper, name, tree))
}
