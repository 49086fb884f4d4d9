// The words of serving, and how it ends.
ghost use Rattle.std.specs.Prelude.{◌≡◌, ◌≢◌, ◌≤◌, ◌⊎◌, ◌∷◌, [], false, IfSome, IfNone, string_bytes, map};
ghost use Rattle.wb_outside.specs.Causes.{Rose};
ghost use Rattle.wb_outside.specs.Told.{writing};
ghost use Rattle.http_desk.specs.Seen.{seen};
ghost use Rattle.http_desk.specs.Series.{RoseBy};
ghost use Rattle.desk_clerk.specs.Replies.{IsDoneBy};
ghost use Rattle.desk_clerk.specs.Served.{Goes};
ghost use Rattle.workbench_cli.specs.Serving.{IsServing, IsNoServing, IsServed};

use crate::top::{Status, refuse};
use crate::words::read_number;
use desk_clerk::serve;
use extraction_coproduct::Work;
use http_desk::ServeFault;
use result_keeper::Keeper;
use std::alloc::Global;
use wb_outside::{Door, Sink};
use workbench_core::FixedRefusal;

/// Most connections that are served.
pub const MOST_CONNECTIONS: u32 = 1_000_000;

/// The greatest port.
pub const LARGEST_PORT: u32 = 65_535;

/// What serving is asked for.
#[derive(Clone, Copy, Debug, PartialEq, Eq)]
pub(crate) struct Serving {
    /// How many connections are served.
    pub count: u32,
    /// The port that is listened on.
    pub port: u16,
}

/// What the words ask for, where they are `serve COUNT PORT`.
pub(crate) fn read_serving(words: &[String]) -> Option<Serving>
    ensures found { IfSome result (λ s.
        IsServing (map string_bytes words.now) s.count s.port) }
    ensures none { IfNone result (IsNoServing (map string_bytes words.now)) }
{
    match words.len() {
        3 => serving_of(words[0].as_str(), words[1].as_str(), words[2].as_str()),
        _ => None,
    }
}

// What three words ask for.
#[tactic(auto, using(crate::proofs::ServingLemmas::serving_found, crate::proofs::ServingLemmas::other_word, crate::proofs::ServingLemmas::no_count, crate::proofs::ServingLemmas::no_port))]
fn serving_of(command: &str, count: &str, port: &str) -> Option<Serving>
    ensures found { IfSome result (λ s.
        IsServing (command.now ∷ count.now ∷ port.now ∷ []) s.count s.port) }
    ensures none { IfNone result (IsNoServing (command.now ∷ count.now ∷ port.now ∷ [])) }
{
    if command == "serve" {
        let count = read_number(count, 1, MOST_CONNECTIONS)?;
        let port = read_number(port, 1, LARGEST_PORT)?;
        Some(Serving {
            count,
            port: port as u16,
        })
    } else {
        None
    }
}

/// Serves, and ends with the status of it.
pub(crate) fn run_serving<K: Keeper, D: Door, O: Sink, E: Sink>(
    alloc: Global,
    serving: Serving,
    keeper: &mut K,
    door: &mut D,
    out: &mut O,
    err: &mut E,
    work: &mut Work,
) -> Status
    requires { D.is_open door.old ≡ false }
    ensures served { IsServed (IsDoneBy K.told K.faults K.version) serving.count serving.port
        (seen D.is_open D.taken D.door_faults D.line_faults D.told door.old)
        (keeper.old, work.old) result.code
        (seen D.is_open D.taken D.door_faults D.line_faults D.told door.new)
        (keeper.new, work.new) (writing O.told O.faults out.old out.new)
        (writing E.told E.faults err.old err.new) }
    ensures closed { D.is_open door.new ≡ false }
    ensures code { (result.code ≡ 0) ⊎ (result.code ≡ 15) ⊎ (result.code ≡ 16) }
    ensures taken { result.code ≡ 0
        → RoseBy serving.count (D.taken door.old) (D.taken door.new) }
    ensures door_fault { result.code ≡ 16
        → Rose (D.door_faults door.old) (D.door_faults door.new) }
    ensures write_fault { result.code ≡ 15 → Rose (O.faults out.old) (O.faults out.new) }
    ensures tables { Goes serving.count (K.told keeper.old) (K.told keeper.new) }
    ensures later { K.faults keeper.old ≤ K.faults keeper.new }
    ensures version { K.version keeper.new ≡ K.version keeper.old }
{
    match serve(alloc, serving.count, serving.port, door, keeper, out, work) {
        Ok(()) => Status { code: 0 },
        Err(ServeFault::Door) => refuse(FixedRefusal::DoorFault, err),
        Err(ServeFault::Write) => refuse(FixedRefusal::WriteFault, err),
    }
}
