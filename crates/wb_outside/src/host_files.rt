// The files of the host. They tell nothing of their content.
ghost use Rattle.std.specs.Prelude.{None, IfOk, ◌≡◌, ◌≤◌, length};

use crate::files::{Files, OutsideError};
use std::alloc::Global;
use std::io::{Error, ErrorKind, Read};
use std::{fs, rt};

/// The files of the host, by their paths.
#[derive(Drop)]
pub struct HostFiles<R> {
    rt: R,
    faults: u64,
}

impl<R: rt::Files> HostFiles<R> {
    /// The files that this runtime reaches. Their count of faults is 0.
    pub fn new(rt: R) -> HostFiles<R>
        ensures { result.faults ≡ 0 }
    {
        HostFiles { rt, faults: 0 }
    }
}

impl<R: rt::Files> Files for HostFiles<R> {
    ghost asked = { λ _. None };

    ghost text = { λ _ _. None };

    ghost faults = { λ f. f.faults };

    fn open_text(
        &mut self,
        alloc: Global,
        name: &str,
        most: usize,
    ) -> Result<Vec<u8>, OutsideError> {
        let answer = read_front(&self.rt, alloc, name, most);
        if let Err(OutsideError::Failed) = answer {
            self.faults = self.faults.saturating_add(1);
        }
        answer
    }
}

// The front of the named file.
fn read_front<R: rt::Files>(
    rt: &R,
    alloc: Global,
    name: &str,
    most: usize,
) -> Result<Vec<u8>, OutsideError>
    ensures { IfOk result (λ v. length v.items ≤ most) }
{
    let file = fs::open(rt, name).map_err(cause_of)?;
    let mut bytes = Vec::new(alloc);
    file.take(most as u64)
        .read_to_end(&mut bytes)
        .map_err(cause_of)?;
    bytes.truncate(most);
    Ok(bytes)
}

fn cause_of(error: Error) -> OutsideError {
    match error.kind() {
        ErrorKind::OutOfMemory => OutsideError::Memory,
        _ => OutsideError::Failed,
    }
}
