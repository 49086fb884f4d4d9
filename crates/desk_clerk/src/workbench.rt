// The workbench as a clerk.
ghost use Rattle.desk_clerk.specs.Replies.{IsDoneBy};

use crate::replies::{
    add_reply, detail_reply, names_reply, remove_reply, report_reply, show_reply, trees_reply,
};
use desk_requests::Command;
use extraction_coproduct::Work;
use http_desk::{Clerk, Reply};
use result_keeper::Keeper;
use std::alloc::{AllocError, Global};

/// Who answers the commands of the desk: over a store, each by its step.
#[derive(Clone, Copy, Debug)]
pub struct Workbench;

impl<K: Keeper> Clerk<K, Work> for Workbench {
    ghost acts = { IsDoneBy K.told K.faults K.version };

    fn answer(
        &self,
        alloc: Global,
        command: Command,
        store: &mut K,
        work: &mut Work,
    ) -> Result<Reply, AllocError> {
        match command {
            Command::Names => names_reply(alloc, store),
            Command::Show(name) => show_reply(alloc, store, &name),
            Command::Add(name, text) => add_reply(alloc, store, &name, text.as_slice()),
            Command::Remove(name) => remove_reply(alloc, store, &name),
            Command::Report(name) => report_reply(alloc, store, &name, work),
            Command::Trees(name) => trees_reply(alloc, store, &name),
            Command::Detail(name, text) => detail_reply(alloc, store, &name, text.as_slice()),
        }
    }
}
