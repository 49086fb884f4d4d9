// One connection: its request, its response.
ghost use Rattle.std.specs.Prelude.{◌≡◌, ℕ, List, [], false, true, Option, IfOk, IfErr, OnErr};
ghost use Rattle.wb_outside.specs.Causes.{Rose};
ghost use Rattle.wb_outside.specs.Doors.{Connections, IsNext, Becomes};
ghost use Rattle.desk_requests.specs.Decisions.{DecidesAtEnd};
ghost use Rattle.http_desk.specs.Seen.{seen, IsTaken, IsTalking};
ghost use Rattle.http_desk.specs.Visits.{IsSending, IsAnswered, HasEnded, IsVisit};

use crate::clerk::Clerk;
use crate::reading::{Stop, receive};
use crate::response::respond;
use desk_requests::{Decision, Routes};
use desk_responses::{Status, unavailable};
use std::alloc::Global;
use wb_outside::Door;

/// How a connection ended.
#[derive(Clone, Copy, Debug, PartialEq, Eq)]
pub enum Served {
    /// The response was written whole. Its status is told.
    Answered { status: u16 },
    /// A read or a write failed.
    Dropped,
    /// No connection was taken, since that failed.
    NoConnection,
}

// Writes a response.
fn send<D: Door>(door: &mut D, status: Status, bytes: &[u8]) -> Served
    requires { D.is_open door.old ≡ true }
    ensures talking { IsTalking (seen D.is_open D.taken D.door_faults D.line_faults D.told door.old)
        (seen D.is_open D.taken D.door_faults D.line_faults D.told door.new) }
    ensures sent { IsSending status bytes.now result
        (seen D.is_open D.taken D.door_faults D.line_faults D.told door.old)
        (seen D.is_open D.taken D.door_faults D.line_faults D.told door.new) }
{
    match door.write(bytes) {
        Ok(()) => Served::Answered {
            status: status.code().as_u16(),
        },
        Err(_) => Served::Dropped,
    }
}

// Reads a request.
fn read_request<D: Door>(alloc: Global, door: &mut D) -> Result<Decision, Stop>
    requires opened { D.is_open door.old ≡ true }
    ensures talking { IsTalking (seen D.is_open D.taken D.door_faults D.line_faults D.told door.old)
        (seen D.is_open D.taken D.door_faults D.line_faults D.told door.new) }
    ensures failed { IfErr result (λ e. e ≡ Stop.Failed → Rose (D.line_faults door.old)
        (D.line_faults door.new)) }
    ensures decided { IfOk result (λ d. (was : Option Connections)
        → Becomes was (D.told door.old) IsNext → (sent : List ℕ) × DecidesAtEnd sent d
        × Becomes was (D.told door.new) (IsTaken sent [])) }
    ensures stopped { OnErr result ((was : Option Connections)
        → Becomes was (D.told door.old) IsNext → (sent : List ℕ)
        × Becomes was (D.told door.new) (IsTaken sent [])) }
{
    let routes = Routes::new(alloc)?;
    receive(alloc, &routes, door)
}

// Answers a request that was read.
fn answer<D: Door, C: Clerk<S, W>, S, W>(
    alloc: Global,
    decision: Decision,
    door: &mut D,
    clerk: &C,
    store: &mut S,
    work: &mut W,
) -> Served
    requires { D.is_open door.old ≡ true }
    ensures talking { IsTalking (seen D.is_open D.taken D.door_faults D.line_faults D.told door.old)
        (seen D.is_open D.taken D.door_faults D.line_faults D.told door.new) }
    ensures answered { (sent : List ℕ) → DecidesAtEnd sent decision
        → IsAnswered C.acts sent (store.old, work.old) result
        (seen D.is_open D.taken D.door_faults D.line_faults D.told door.old)
        (seen D.is_open D.taken D.door_faults D.line_faults D.told door.new) (store.new, work.new) }
{
    match respond(alloc, decision, clerk, store, work) {
        Ok(response) => send(door, response.status, &response.bytes),
        Err(_) => send(door, Status::ServiceUnavailable, unavailable()),
    }
}

// Reads a request on the connection that was just taken, and answers it.
fn talk<D: Door, C: Clerk<S, W>, S, W>(
    alloc: Global,
    door: &mut D,
    clerk: &C,
    store: &mut S,
    work: &mut W,
) -> Served
    requires { D.is_open door.old ≡ true }
    ensures talking { IsTalking (seen D.is_open D.taken D.door_faults D.line_faults D.told door.old)
        (seen D.is_open D.taken D.door_faults D.line_faults D.told door.new) }
    ensures ended { (was : Option Connections) → Becomes was (D.told door.old) IsNext
        → HasEnded C.acts was (store.old, work.old) result (D.told door.new)
        (store.new, work.new) (D.line_faults door.old) (D.line_faults door.new) }
{
    match read_request(alloc, door) {
        Ok(decision) => answer(alloc, decision, door, clerk, store, work),
        Err(Stop::Failed) => Served::Dropped,
        Err(Stop::Memory) => send(door, Status::ServiceUnavailable, unavailable()),
    }
}

/// Takes one connection, reads its request, has the clerk answer it, writes the response, and
/// closes the connection. Nothing is read once the response is decided, which depends on the bytes
/// that the peer sends and not on how they come in pieces. Where there is no memory the response is
/// 503.
pub fn attend<D: Door, C: Clerk<S, W>, S, W>(
    alloc: Global,
    door: &mut D,
    clerk: &C,
    store: &mut S,
    work: &mut W,
) -> Served
    requires { D.is_open door.old ≡ false }
    ensures visit { IsVisit C.acts
        (seen D.is_open D.taken D.door_faults D.line_faults D.told door.old)
        (store.old, work.old) result
        (seen D.is_open D.taken D.door_faults D.line_faults D.told door.new) (store.new, work.new) }
    ensures closed { D.is_open door.new ≡ false }
{
    match door.accept() {
        Ok(()) => {
            let served = talk(alloc, door, clerk, store, work);
            door.finish();
            served
        }
        Err(_) => Served::NoConnection,
    }
}
