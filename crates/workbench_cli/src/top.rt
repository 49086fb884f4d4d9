// The top call.
ghost use Rattle.std.specs.Prelude.{◌≡◌, ◌≢◌, ◌↔◌, ◌⊎◌, ℕ, List, [], map, Some, string_bytes, OnOk, IfOk, IfErr};
ghost use Rattle.wb_outside.specs.Causes.{Rose};
ghost use Rattle.wb_outside.specs.Told.{Lengthens, Grows, GrowsByFront, Gets, writing};
ghost use Rattle.store_laws.specs.SoundKept.{IsSoundKept};
ghost use Rattle.workbench_core.specs.declared.refusal.Refusal.{Refusal};
ghost use Rattle.workbench_core.specs.Answers.{Answer, of_output, of_refusal};
ghost use Rattle.workbench_core.specs.Fixed.{fixed_status, fixed_line};
ghost use Rattle.workbench_core.specs.Refusals.{status_of, line_of};
ghost use Rattle.workbench_store.specs.declared.request.Request.{Request};
ghost use Rattle.workbench_store.specs.Requests.{IsRequest, IsNoRequest, files_of, command_of};
ghost use Rattle.workbench_store.specs.Stepped.{Happens, IsWhole};
ghost use Rattle.workbench_store.specs.Steps.{IsStep};
ghost use Rattle.workbench_cli.specs.Delivery.{IsDelivered};
ghost use Rattle.workbench_cli.specs.Reading.{AreRead};
ghost use Rattle.workbench_cli.specs.Runs.{IsOfFiles, IsCounted, IsCountedOf, IsCutShort, IsAnswer, IsAnswerTo, AsksFor, Asks};

use crate::reading::read_files;
use crate::words::read_words;
use extraction_coproduct::Work;
use result_keeper::Keeper;
use std::alloc::Global;
use wb_outside::{Files, Sink};
use workbench_core::{FixedRefusal, Output, Refusal, print_refusal};
use workbench_store::{Request, run_on};

/// How the program ends: 0 where the answer was written whole, else the number of the refusal.
#[derive(Clone, Copy, Debug, PartialEq, Eq)]
pub struct Status {
    pub code: u8,
}

/// All that the program does, over the words after its name. The files of a command are read before
/// the store is asked, and what the command changes in the store stands also where its answer can't
/// be written. What `compute` finishes is counted.
pub fn run_command<F: Files, K: Keeper, O: Sink, E: Sink>(
    alloc: Global,
    words: &[String],
    files: &mut F,
    keeper: &mut K,
    out: &mut O,
    err: &mut E,
    work: &mut Work,
) -> Status
    // Status 2, and the causes of the faults.
    ensures words { result.code ≡ 2 ↔ IsNoRequest (map string_bytes words.now) }
    ensures file_fault { result.code ≡ 3 → Rose (F.faults files.old) (F.faults files.new) }
    ensures store_fault { result.code ≡ 11 → Rose (K.faults keeper.old) (K.faults keeper.new) }
    ensures write_fault { result.code ≡ 15 → Rose (O.faults out.old) (O.faults out.new) ⊎ Rose (E.faults err.old) (E.faults err.new) }
    ensures no_door_fault { result.code ≢ 16 }

    // The answer, what becomes of the store, and how the answer reaches the output and the error
    // stream.
    ensures answer { (a : Answer) × IsAnswerTo (map string_bytes words.now) (F.text files.old) (K.told keeper.old) (K.told keeper.new) a
        × IsDelivered a result.code (writing O.told O.faults out.old out.new) (writing E.told E.faults err.old err.new) }

    // For files that are told the answer and the tables are those of the command's step, unless a
    // file could not be read, the store failed or there was no memory.
    ensures told { (r : Request) (texts : List (List ℕ)) → IsRequest (map string_bytes words.now) r → map (F.text files.old) (files_of r) ≡ map Some texts
        → result.code ≢ 3 → result.code ≢ 11 → result.code ≢ 17
        → (a : Answer) × Happens (IsStep (command_of r texts)) (K.told keeper.old) (K.told keeper.new) a
        × IsDelivered a result.code (writing O.told O.faults out.old out.new) (writing E.told E.faults err.old err.new) }

    // In each case the tables are the old ones, or all that the step leaves.
    ensures whole { (r : Request) (texts : List (List ℕ)) → IsRequest (map string_bytes words.now) r → map (F.text files.old) (files_of r) ≡ map Some texts
        → IsWhole (IsStep (command_of r texts)) (K.told keeper.old) (K.told keeper.new) }
    ensures version { (K.version keeper.new ≡ K.version keeper.old) ⊎ (K.version keeper.new ≡ 2) }
    // Sound tables stay sound, and those of version 1 stay so or become sound.
    ensures sound { IsSoundKept (K.told keeper.old) (K.told keeper.new) }

    // What is counted for files that are told: for a report, at most the constants that were
    // computed for it.
    ensures work { (r : Request) (texts : List (List ℕ)) → IsRequest (map string_bytes words.now) r
        → map (F.text files.old) (files_of r) ≡ map Some texts → result.code ≡ 0
        → IsCounted (command_of r texts) (K.told keeper.old) (K.told keeper.new) work.old.tables work.new.tables }

    // The names that are asked for.
    ensures asked { Asks (map string_bytes words.now) result.code (F.asked files.old) (F.asked files.new) }
{
    match read_words(words) {
        Some(request) => run(alloc, &request, files, keeper, out, err, work),
        None => refuse(FixedRefusal::Words, err),
    }
}

// A request.
fn run<F: Files, K: Keeper, O: Sink, E: Sink>(
    alloc: Global,
    request: &Request<'_>,
    files: &mut F,
    keeper: &mut K,
    out: &mut O,
    err: &mut E,
    work: &mut Work,
) -> Status
    ensures never { result.code ≢ 2 }
    ensures no_door_fault { result.code ≢ 16 }
    ensures file_fault { result.code ≡ 3 → Rose (F.faults files.old) (F.faults files.new) }
    ensures store_fault { result.code ≡ 11 → Rose (K.faults keeper.old) (K.faults keeper.new) }
    ensures write_fault { result.code ≡ 15 → Rose (O.faults out.old) (O.faults out.new) ⊎ Rose (E.faults err.old) (E.faults err.new) }
    ensures answer { (a : Answer) × IsAnswer request.now (F.text files.old) (K.told keeper.old) (K.told keeper.new) a
        × IsDelivered a result.code (writing O.told O.faults out.old out.new) (writing E.told E.faults err.old err.new) }
    ensures version { (K.version keeper.new ≡ K.version keeper.old) ⊎ (K.version keeper.new ≡ 2) }
    ensures work { result.code ≡ 0 → IsCountedOf request.now (F.text files.old) (K.told keeper.old) (K.told keeper.new) work.old.tables work.new.tables }
    ensures asked { AsksFor (files_of request.now) (result.code ≡ 3) (result.code ≡ 17) (F.asked files.old) (F.asked files.new) }
{
    match answer(alloc, request, files, keeper, work) {
        Ok(output) => write_output(&output, out, err),
        Err(refusal) => write_refusal(alloc, &refusal, err),
    }
}

// What a request gives, and what it does to the store.
fn answer<F: Files, K: Keeper>(
    alloc: Global,
    request: &Request<'_>,
    files: &mut F,
    keeper: &mut K,
    work: &mut Work,
) -> Result<Output, Refusal>
    ensures given { IfOk result (λ o. IsOfFiles request.now (F.text files.old) (K.told keeper.old) (K.told keeper.new) (of_output o)) }
    ensures refused { IfErr result (λ e. IsCutShort request.now (F.text files.old) (K.told keeper.old) (K.told keeper.new) e
        ⊎ IsOfFiles request.now (F.text files.old) (K.told keeper.old) (K.told keeper.new) (of_refusal e)) }
    ensures file_fault { IfErr result (λ e. e ≡ Refusal.FileFault → Rose (F.faults files.old) (F.faults files.new)) }
    ensures store_fault { IfErr result (λ e. e ≡ Refusal.StoreFault → Rose (K.faults keeper.old) (K.faults keeper.new)) }
    ensures version { (K.version keeper.new ≡ K.version keeper.old) ⊎ (K.version keeper.new ≡ 2) }
    ensures work { OnOk result (IsCountedOf request.now (F.text files.old) (K.told keeper.old) (K.told keeper.new) work.old.tables work.new.tables) }
    ensures asked { OnOk result (Lengthens (F.asked files.old) (F.asked files.new) (files_of request.now)) }
    ensures stopped { IfErr result (λ e. AsksFor (files_of request.now) (e ≡ Refusal.FileFault) (e ≡ Refusal.Memory) (F.asked files.old) (F.asked files.new)) }
{
    match texts_of(alloc, request, files) {
        Ok(texts) => run_on(alloc, &request.command(&texts), keeper, work),
        Err(refusal) => Err(refusal),
    }
}

// The bytes of the files of a request.
fn texts_of<F: Files>(
    alloc: Global,
    request: &Request<'_>,
    files: &mut F,
) -> Result<Vec<Vec<u8>>, Refusal>
    ensures read { IfOk result (λ vs. AreRead (F.text files.old) (files_of request.now) (map (λ v. v.items) vs.items)) }
    ensures refused { IfErr result (λ e. (e ≡ Refusal.FileFault) ⊎ (e ≡ Refusal.Memory)) }
    ensures cause { IfErr result (λ e. e ≡ Refusal.FileFault → Rose (F.faults files.old) (F.faults files.new)) }
    ensures asked { OnOk result (Lengthens (F.asked files.old) (F.asked files.new) (files_of request.now)) }
    ensures stopped { IfErr result (λ e. AsksFor (files_of request.now) (e ≡ Refusal.FileFault) (e ≡ Refusal.Memory) (F.asked files.old) (F.asked files.new)) }
{
    let names = request.files(alloc)?;
    read_files(alloc, &names, files)
}

// What a command that is not refused writes.
fn write_output<O: Sink, E: Sink>(output: &Output, out: &mut O, err: &mut E) -> Status
    ensures code { (result.code ≡ 0) ⊎ (result.code ≡ 15) }
    ensures delivered { IsDelivered (of_output output.now) result.code (writing O.told O.faults out.old out.new) (writing E.told E.faults err.old err.new) }
{
    match out.write(&output.out) {
        Ok(()) => write_note(&output.err, err),
        Err(_) => refuse(FixedRefusal::WriteFault, err),
    }
}

// What a command has for the error stream beside its answer.
fn write_note<E: Sink>(note: &[u8], err: &mut E) -> Status
    ensures { ((result.code ≡ 0) × Grows (E.told err.old) (E.told err.new) note.now)
        ⊎ ((result.code ≡ 15) × (note.now ≢ []) × Rose (E.faults err.old) (E.faults err.new) × GrowsByFront (E.told err.old) (E.told err.new) note.now) }
{
    if note.is_empty() {
        return Status { code: 0 };
    }
    match err.write(note) {
        Ok(()) => Status { code: 0 },
        Err(_) => Status {
            code: FixedRefusal::WriteFault.status(),
        },
    }
}

// The line of a refusal on the error stream. The one of want of memory, where there is none for another.
#[tactic(auto, using(crate::proofs::ServingLemmas::not_door))]
fn write_refusal<E: Sink>(alloc: Global, refusal: &Refusal, err: &mut E) -> Status
    ensures refused { result.code ≢ 0 }
    ensures words { result.code ≢ 2 }
    ensures file_fault { result.code ≡ 3 → refusal.now ≡ Refusal.FileFault }
    ensures write_fault { result.code ≢ 15 }
    ensures no_door_fault { result.code ≢ 16 }
    ensures line { (e : Refusal) × ((e ≡ refusal.now) ⊎ (e ≡ Refusal.Memory)) × (result.code ≡ status_of e) × Gets (writing E.told E.faults err.old err.new) (line_of e) }
{
    let code = refusal.status();
    match refusal.fixed() {
        Some(fixed) => put_line(code, fixed.line(), err),
        None => match print_refusal(alloc, refusal) {
            Ok(line) => put_line(code, &line, err),
            Err(_) => refuse(FixedRefusal::Memory, err),
        },
    }
}

/// A refusal with a fixed line.
pub(crate) fn refuse<E: Sink>(refusal: FixedRefusal, err: &mut E) -> Status
    ensures code { result.code ≡ fixed_status refusal }
    ensures line { Gets (writing E.told E.faults err.old err.new) (fixed_line refusal) }
{
    put_line(refusal.status(), refusal.line(), err)
}

// A line on the error stream, and the status. It stays where the line can't be written.
fn put_line<E: Sink>(code: u8, line: &[u8], err: &mut E) -> Status
    ensures code { result.code ≡ code }
    ensures line { Gets (writing E.told E.faults err.old err.new) line.now }
{
    let _ = err.write(line);
    Status { code }
}
