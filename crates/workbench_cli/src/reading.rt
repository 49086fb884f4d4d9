// The files of a request.
ghost use Rattle.std.specs.Prelude.{◌≡◌, ◌⊎◌, ℕ, List, [], ◌∷◌, ◌≤◌, map, take, Some, Err, OnOk, IfOk, IfErr};
ghost use Rattle.wb_outside.specs.Causes.{Rose};
ghost use Rattle.wb_outside.specs.Told.{Lengthens};
ghost use Rattle.workbench_cli.specs.Reading.{AreRead};
ghost use Rattle.workbench_cli.specs.Runs.{AsksFor};

use equation_file::MOST_BYTES;
use std::alloc::Global;
use wb_outside::{Files, OutsideError};
use workbench_core::Refusal;

// One byte more than a file may have, so that a longer file is not taken for one that has as many.
const MOST_FILE_BYTES: usize = MOST_BYTES + 1;

// The bytes of the named files.
pub fn read_files<F: Files>(
    alloc: Global,
    names: &[&str],
    files: &mut F,
) -> Result<Vec<Vec<u8>>, Refusal>
    ensures read { IfOk result (λ vs. AreRead (F.text files.old) (map (λ name. name.now) names.now) (map (λ v. v.items) vs.items)) }
    ensures refused { IfErr result (λ e. (e ≡ Refusal.FileFault) ⊎ (e ≡ Refusal.Memory)) }
    ensures cause { IfErr result (λ e. e ≡ Refusal.FileFault → Rose (F.faults files.old) (F.faults files.new)) }
    ensures asked { OnOk result (Lengthens (F.asked files.old) (F.asked files.new) (map (λ name. name.now) names.now)) }
    ensures stopped { IfErr result (λ e. AsksFor (map (λ name. name.now) names.now) (e ≡ Refusal.FileFault) (e ≡ Refusal.Memory) (F.asked files.old) (F.asked files.new)) }
{
    let mut texts = Vec::new(alloc);
    for name in names {
        let text = read_file(alloc, name, files)?;
        texts.push(text)?;
    }
    Ok(texts)
}

// The front of the named file.
fn read_file<F: Files>(alloc: Global, name: &str, files: &mut F) -> Result<Vec<u8>, Refusal>
    ensures read { IfOk result (λ v. (t : List ℕ) → F.text files.old name.now ≡ Some t → v.items ≡ take 65537 t) }
    ensures refused { IfErr result (λ e. (e ≡ Refusal.FileFault) ⊎ (e ≡ Refusal.Memory)) }
    ensures cause { IfErr result (λ e. e ≡ Refusal.FileFault → Rose (F.faults files.old) (F.faults files.new)) }
    ensures later { F.faults files.old ≤ F.faults files.new }
    ensures same { (n : List ℕ) → F.text files.new n ≡ F.text files.old n }
    ensures asked { OnOk result (Lengthens (F.asked files.old) (F.asked files.new) (name.now ∷ [])) }
    ensures stopped { IfErr result (λ e. AsksFor (name.now ∷ []) (e ≡ Refusal.FileFault) (e ≡ Refusal.Memory) (F.asked files.old) (F.asked files.new)) }
{
    match files.open_text(alloc, name, MOST_FILE_BYTES) {
        Ok(bytes) => Ok(bytes),
        Err(OutsideError::Failed) => Err(Refusal::FileFault),
        Err(OutsideError::Memory) => Err(Refusal::Memory),
    }
}
