// The top call with a door.
ghost use Rattle.std.specs.Prelude.{◌≡◌, ◌≢◌, ◌↔◌, ◌⊎◌, ℕ, List, false, map, Some, string_bytes};
ghost use Rattle.wb_outside.specs.Causes.{Rose};
ghost use Rattle.wb_outside.specs.Told.{writing};
ghost use Rattle.http_desk.specs.Seen.{seen};
ghost use Rattle.http_desk.specs.Series.{RoseBy};
ghost use Rattle.desk_clerk.specs.Replies.{IsDoneBy};
ghost use Rattle.desk_clerk.specs.Served.{Goes};
ghost use Rattle.workbench_core.specs.Answers.{Answer};
ghost use Rattle.workbench_store.specs.declared.request.Request.{Request};
ghost use Rattle.workbench_store.specs.Requests.{IsRequest, IsNoRequest, files_of, command_of};
ghost use Rattle.workbench_store.specs.Stepped.{Happens, IsWhole};
ghost use Rattle.workbench_store.specs.Steps.{IsStep};
ghost use Rattle.workbench_cli.specs.Delivery.{IsDelivered};
ghost use Rattle.workbench_cli.specs.Runs.{IsCounted, IsAnswerTo, Asks};
ghost use Rattle.workbench_cli.specs.Serving.{IsServing, IsNoServing, IsServed};

use crate::serving::{read_serving, run_serving};
use crate::top::{Status, run_command};
use extraction_coproduct::Work;
use result_keeper::Keeper;
use std::alloc::Global;
use wb_outside::{Door, Files, Sink};

/// All that the program does, over the words after its name: `serve COUNT PORT` over the door, and
/// each other command as `run_command`. Serving may wait for connections; it takes no memory of its
/// own, so that it never ends with 17. It ends with 0 after so many connections, with 15 where the
/// output did not take a line, and with 16 where the port was not opened or no connection taken.
pub fn workbench<F: Files, K: Keeper, D: Door, O: Sink, E: Sink>(
    alloc: Global,
    words: &[String],
    files: &mut F,
    keeper: &mut K,
    door: &mut D,
    out: &mut O,
    err: &mut E,
    work: &mut Work,
) -> Status
    requires { D.is_open door.old ≡ false }

    // Status 2, and the causes of the faults.
    ensures words { result.code ≡ 2 ↔ (IsNoRequest (map string_bytes words.now)
        × IsNoServing (map string_bytes words.now)) }
    ensures file_fault { result.code ≡ 3 → Rose (F.faults files.old) (F.faults files.new) }
    ensures store_fault { result.code ≡ 11 → Rose (K.faults keeper.old) (K.faults keeper.new) }
    ensures write_fault { result.code ≡ 15
        → Rose (O.faults out.old) (O.faults out.new) ⊎ Rose (E.faults err.old) (E.faults err.new) }
    ensures door_fault { result.code ≡ 16
        → Rose (D.door_faults door.old) (D.door_faults door.new) }

    // Serving: each connection, its line, the store; and the status.
    ensures served { (count port : ℕ) → IsServing (map string_bytes words.now) count port
        → IsServed (IsDoneBy K.told K.faults K.version) count port
        (seen D.is_open D.taken D.door_faults D.line_faults D.told door.old)
        (keeper.old, work.old) result.code
        (seen D.is_open D.taken D.door_faults D.line_faults D.told door.new)
        (keeper.new, work.new) (writing O.told O.faults out.old out.new)
        (writing E.told E.faults err.old err.new) }
    ensures statuses { (count port : ℕ) → IsServing (map string_bytes words.now) count port
        → (result.code ≡ 0) ⊎ (result.code ≡ 15) ⊎ (result.code ≡ 16) }
    ensures taken { (count port : ℕ) → IsServing (map string_bytes words.now) count port
        → result.code ≡ 0 → RoseBy count (D.taken door.old) (D.taken door.new) }
    ensures tables { (count port : ℕ) → IsServing (map string_bytes words.now) count port
        → Goes count (K.told keeper.old) (K.told keeper.new) }

    // The door of other words is not touched, and none is left open.
    ensures untouched { IsNoServing (map string_bytes words.now) → door.new ≡ door.old }
    ensures closed { D.is_open door.new ≡ false }

    // Other words: as `run_command`.
    ensures answer { IsNoServing (map string_bytes words.now)
        → (a : Answer) × IsAnswerTo (map string_bytes words.now) (F.text files.old)
        (K.told keeper.old) (K.told keeper.new) a
        × IsDelivered a result.code (writing O.told O.faults out.old out.new)
        (writing E.told E.faults err.old err.new) }
    ensures told { (r : Request) (texts : List (List ℕ))
        → IsRequest (map string_bytes words.now) r
        → map (F.text files.old) (files_of r) ≡ map Some texts
        → result.code ≢ 3 → result.code ≢ 11 → result.code ≢ 17
        → (a : Answer) × Happens (IsStep (command_of r texts)) (K.told keeper.old)
        (K.told keeper.new) a
        × IsDelivered a result.code (writing O.told O.faults out.old out.new)
        (writing E.told E.faults err.old err.new) }
    ensures whole { (r : Request) (texts : List (List ℕ))
        → IsRequest (map string_bytes words.now) r
        → map (F.text files.old) (files_of r) ≡ map Some texts
        → IsWhole (IsStep (command_of r texts)) (K.told keeper.old) (K.told keeper.new) }
    ensures version { (K.version keeper.new ≡ K.version keeper.old)
        ⊎ (K.version keeper.new ≡ 2) }
    ensures work { (r : Request) (texts : List (List ℕ))
        → IsRequest (map string_bytes words.now) r
        → map (F.text files.old) (files_of r) ≡ map Some texts → result.code ≡ 0
        → IsCounted (command_of r texts) (K.told keeper.old) (K.told keeper.new) work.old.tables
        work.new.tables }
    ensures asked { Asks (map string_bytes words.now) result.code (F.asked files.old)
        (F.asked files.new) }
{
    match read_serving(words) {
        Some(serving) => run_serving(alloc, serving, keeper, door, out, err, work),
        None => run_command(alloc, words, files, keeper, out, err, work),
    }
}
