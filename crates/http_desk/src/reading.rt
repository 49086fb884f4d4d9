// Reading a connection until its response is decided.
ghost use Rattle.std.specs.Prelude.{◌≡◌, ◌≤◌, ℕ, List, [], true, false, length, Option, IfOk, IfErr, OnErr};
ghost use Rattle.wb_outside.specs.Causes.{Rose};
ghost use Rattle.wb_outside.specs.Doors.{Connections, IsNext, Becomes};
ghost use Rattle.desk_requests.specs.Decisions.{Decides, DecidesAtEnd, StaysOpen};
ghost use Rattle.http_desk.specs.Reads.{HasBegun, IsPiece, GoesOn, Ends, Stops};
ghost use Rattle.http_desk.specs.Seen.{seen, IsTaken, IsTalking};

use desk_requests::{Decision, Refusal, Routes, look};
use std::alloc::{AllocError, Global};
use wb_outside::{Door, Failed};

/// Why reading stopped before anything was decided.
#[derive(Clone, Copy, Debug, PartialEq, Eq)]
pub(crate) enum Stop {
    /// A read failed.
    Failed,
    /// There was no memory.
    Memory,
}

ghost use Rattle.http_desk.specs.declared.reading.Stop.TheVariants as Stops;

impl From<AllocError> for Stop {
    ghost from_gives = { λ _ e. e ≡ Stops.Memory };

    fn from(_: AllocError) -> Stop {
        Stop::Memory
    }
}

impl From<Failed> for Stop {
    ghost from_gives = { λ _ e. e ≡ Stops.Failed };

    fn from(_: Failed) -> Stop {
        Stop::Failed
    }
}

const ROOM: usize = 4096;

// Reads once, and answers how many bytes it appended. There are none at their end.
fn read_piece<D: Door>(door: &mut D, bytes: &mut Vec<u8>) -> Result<usize, Stop>
    requires opened { D.is_open door.old ≡ true }
    ensures talking { IsTalking (seen D.is_open D.taken D.door_faults D.line_faults D.told door.old)
        (seen D.is_open D.taken D.door_faults D.line_faults D.told door.new) }
    ensures failed { IfErr result (λ e. e ≡ Stop.Failed → Rose (D.line_faults door.old)
        (D.line_faults door.new)) }
    ensures piece { IfOk result (λ n. IsPiece n bytes.old.items bytes.new.items (D.told door.old)
        (D.told door.new)) }
    ensures begun { OnErr result (Becomes (D.told door.old) (D.told door.new) HasBegun) }
{
    let mut room = [0; ROOM];
    let n = door.read(&mut room)?;
    bytes.extend_from_slice(&room[..n])?;
    Ok(n)
}

// Reads until there are so many bytes, and says whether there are; they may end before.
fn fill<D: Door>(door: &mut D, bytes: &mut Vec<u8>, wanted: usize) -> Result<bool, Stop>
    requires opened { D.is_open door.old ≡ true }
    requires waits { StaysOpen bytes.old.items wanted }
    ensures talking { IsTalking (seen D.is_open D.taken D.door_faults D.line_faults D.told door.old)
        (seen D.is_open D.taken D.door_faults D.line_faults D.told door.new) }
    ensures failed { IfErr result (λ e. e ≡ Stop.Failed → Rose (D.line_faults door.old)
        (D.line_faults door.new)) }
    ensures full { IfOk result (λ full. full ≡ true → (wanted ≤ length bytes.new.items)
        × GoesOn (D.told door.old) (D.told door.new) bytes.old.items bytes.new.items) }
    ensures ended { IfOk result (λ full. full ≡ false → Decides bytes.new.items Decision.Open
        × Ends (D.told door.old) (D.told door.new) bytes.old.items bytes.new.items) }
    ensures stopped { OnErr result (Stops (D.told door.old) (D.told door.new) bytes.old.items) }
{
    while bytes.len() < wanted {
        if read_piece(door, bytes)? == 0 {
            return Ok(false);
        }
    }
    Ok(true)
}

/// Reads the connection that was just taken until its bytes decide something, or end. Nothing more
/// is read then.
pub(crate) fn receive<D: Door>(
    alloc: Global,
    routes: &Routes,
    door: &mut D,
) -> Result<Decision, Stop>
    requires opened { D.is_open door.old ≡ true }
    ensures talking { IsTalking (seen D.is_open D.taken D.door_faults D.line_faults D.told door.old)
        (seen D.is_open D.taken D.door_faults D.line_faults D.told door.new) }
    ensures failed { IfErr result (λ e. e ≡ Stop.Failed → Rose (D.line_faults door.old)
        (D.line_faults door.new)) }
    ensures decided { IfOk result (λ d. (was : Option Connections)
        → Becomes was (D.told door.old) IsNext → (sent : List ℕ) × DecidesAtEnd sent d
        × Becomes was (D.told door.new) (IsTaken sent [])) }
    ensures stopped { OnErr result ((was : Option Connections)
        → Becomes was (D.told door.old) IsNext → (sent : List ℕ)
        × Becomes was (D.told door.new) (IsTaken sent [])) }
{
    let mut bytes = Vec::new(alloc);
    loop {
        let progress = look(alloc, routes, &bytes)?;
        match progress.decision {
            Decision::Open => {
                if !fill(door, &mut bytes, progress.wanted)? {
                    return Ok(Decision::Refused(Refusal::BadRequest));
                }
            }
            decision => return Ok(decision),
        }
    }
}
