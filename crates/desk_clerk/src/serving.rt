// Serving connections over a store.
ghost use Rattle.std.specs.Prelude.{◌≡◌, ◌≤◌, false, Ok, Err, OnOk};
ghost use Rattle.wb_outside.specs.Causes.{raised, Rose};
ghost use Rattle.wb_outside.specs.Told.{writing};
ghost use Rattle.http_desk.specs.Seen.{seen};
ghost use Rattle.http_desk.specs.Series.{RoseBy, IsService};
ghost use Rattle.http_desk.specs.Visits.{IsVisit};
ghost use Rattle.desk_clerk.specs.Replies.{IsDoneBy};
ghost use Rattle.desk_clerk.specs.Served.{Goes};

use crate::workbench::Workbench;
use extraction_coproduct::Work;
use http_desk::{ServeFault, Served, attend};
use result_keeper::Keeper;
use std::alloc::Global;
use wb_outside::{Door, Sink};

/// Takes one connection, reads its request, answers it over the store, and closes the connection.
/// The response depends on the bytes that the peer sends, not on how they come in pieces, and on
/// the tables. Where there is no memory it is 503, and where the store failed 500; then the command
/// was done whole or not at all. `NoConnection`: taking one failed. `Dropped`: a read or a write
/// failed, and a front of the response was written.
pub fn answer_connection<D: Door, K: Keeper>(
    alloc: Global,
    door: &mut D,
    keeper: &mut K,
    work: &mut Work,
) -> Served
    requires { D.is_open door.old ≡ false }
    ensures visit { IsVisit (IsDoneBy K.told K.faults K.version)
        (seen D.is_open D.taken D.door_faults D.line_faults D.told door.old)
        (keeper.old, work.old) result
        (seen D.is_open D.taken D.door_faults D.line_faults D.told door.new)
        (keeper.new, work.new) }
    ensures closed { D.is_open door.new ≡ false }

    // The causes of the faults.
    ensures none { result ≡ Served.NoConnection
        → Rose (D.door_faults door.old) (D.door_faults door.new)
        × (D.taken door.new ≡ D.taken door.old) }
    ensures dropped { result ≡ Served.Dropped
        → Rose (D.line_faults door.old) (D.line_faults door.new)
        × (D.taken door.new ≡ raised (D.taken door.old)) }
    ensures store_fault { result ≡ Served.Answered 500
        → Rose (K.faults keeper.old) (K.faults keeper.new) }

    // What becomes of the store.
    ensures tables { Goes 1 (K.told keeper.old) (K.told keeper.new) }
    ensures later { K.faults keeper.old ≤ K.faults keeper.new }
    ensures version { K.version keeper.new ≡ K.version keeper.old }
{
    attend(alloc, door, &Workbench, keeper, work)
}

/// Listens on the port of 127.0.0.1, and serves so many connections over the store, one after the
/// other. Each has its line on the output when it is finished: `answered` with the status of the
/// response, or `dropped`. `Door`: the port was not opened, or no connection was taken; then fewer
/// came. `Write`: the output did not take a line, and no further connection was taken.
pub fn serve<D: Door, K: Keeper, O: Sink>(
    alloc: Global,
    count: u32,
    port: u16,
    door: &mut D,
    keeper: &mut K,
    out: &mut O,
    work: &mut Work,
) -> Result<(), ServeFault>
    requires { D.is_open door.old ≡ false }
    ensures service { IsService (IsDoneBy K.told K.faults K.version) count port
        (seen D.is_open D.taken D.door_faults D.line_faults D.told door.old)
        (keeper.old, work.old) result
        (seen D.is_open D.taken D.door_faults D.line_faults D.told door.new)
        (keeper.new, work.new) (writing O.told O.faults out.old out.new) }
    ensures closed { D.is_open door.new ≡ false }

    // The number of connections, and the causes of the faults.
    ensures taken { OnOk result (RoseBy count (D.taken door.old) (D.taken door.new)) }
    ensures door { result ≡ Err ServeFault.Door
        → Rose (D.door_faults door.old) (D.door_faults door.new) }
    ensures write { result ≡ Err ServeFault.Write → Rose (O.faults out.old) (O.faults out.new) }

    // What becomes of the store.
    ensures tables { Goes count (K.told keeper.old) (K.told keeper.new) }
    ensures later { K.faults keeper.old ≤ K.faults keeper.new }
    ensures version { K.version keeper.new ≡ K.version keeper.old }
{
    http_desk::serve(alloc, count, port, door, &Workbench, keeper, work, out)
}
