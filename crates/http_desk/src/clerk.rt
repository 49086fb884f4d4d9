// Who answers commands.
ghost use Rattle.std.specs.Prelude.{Option, None, Some, IfOk, OnErr};
ghost use Rattle.desk_requests.specs.declared.Command.{Command};
ghost use Rattle.http_desk.specs.Pages.{Page, page_of};

use desk_requests::Command;
use desk_responses::{Content, Status};
use std::alloc::{AllocError, Global};

/// A response, as a clerk gives it.
#[derive(Debug, Drop)]
pub struct Reply {
    /// Its status.
    pub status: Status,
    /// What its body is.
    pub content: Content,
    /// The bytes of its body.
    pub body: Vec<u8>,
}

/// Who answers commands, on a store `S`, and counts the work for it in `W`.
pub trait Clerk<S, W> {
    /// What a command does: the command, the store and the work before it, the response, or none
    /// where there was no memory for one, and the store and the work after it.
    ghost acts: { Command → S × W → Option Page → S × W → Type 0 };

    /// Answers a command. Refused only for want of memory.
    fn answer(
        &self,
        alloc: Global,
        command: Command,
        store: &mut S,
        work: &mut W,
    ) -> Result<Reply, AllocError>
        ensures reply { IfOk result (λ reply. acts command (store.old, work.old)
            (Some (page_of reply)) (store.new, work.new)) }
        ensures memory { OnErr result (acts command (store.old, work.old) None
            (store.new, work.new)) };
}
