// The migration of an old store.
ghost use Rattle.std.specs.Prelude.{◌≡◌, ◌≢◌, ◌≤◌, ◌⊎◌, ℕ, List, map, length, IfOk, IfErr, IfSome, OnOk, Err};
ghost use Rattle.wb_outside.specs.Causes.{Rose};
ghost use Rattle.result_keeper.specs.Told.{Becomes, Stays};
ghost use Rattle.result_keeper.specs.Kept.{contexts_of, migrated, CanMigrate};
ghost use Rattle.result_keeper.specs.Entries.{context_pair};
ghost use Rattle.degree_numbers.specs.Types.{AreTypes};
ghost use Rattle.type_contexts.specs.Context.{IsOldContextText};
ghost use Rattle.workbench_core.specs.declared.refusal.Refusal.TheVariants.{StoreFault, Memory, StoredContext};
ghost use Rattle.workbench_store.specs.Contexts.{IsRenewed, AreRenewed, IsNoContext, IsFirstNoContext, migrated_text, Renews, Migrates};
ghost use Rattle.workbench_store.specs.Stepped.{IsHalt, IsDone};

use crate::project::refused_by;
use degree_numbers::Types;
use itoa::Buffer;
use result_keeper::{ContextPair, Keeper};
use sqlite_items::Items;
use std::alloc::{AllocError, Global};
use type_contexts::{ContextRefusal, context_text, forms_of_contexts, read_old_context};
use workbench_core::Refusal;

/// Makes version 2 of a store of version 1: each row stands under the context in the new form of
/// the types that its old context says, and nothing else changes. Answers how many contexts there
/// were; 0 for a store of version 2, which stays. Refused where an old context is that of no types,
/// with the first such one.
pub fn migrate<K: Keeper>(alloc: Global, keeper: &mut K) -> Result<Vec<u8>, Refusal>
    ensures done { IsDone Migrates (λ v. v.items) (K.told keeper.old) (K.told keeper.new) result }
    ensures fault { IfErr result (λ e. e ≡ StoreFault → Rose (K.faults keeper.old)
        (K.faults keeper.new)) }
    ensures later { K.faults keeper.old ≤ K.faults keeper.new }
    ensures version { (K.version keeper.new ≡ K.version keeper.old) ⊎ (K.version keeper.new ≡ 2) }
    ensures no_file_fault { result ≢ Err Refusal.FileFault }
{
    if keeper.version() == 1 {
        renew(alloc, keeper)
    } else {
        Ok(migrated_text(alloc, 0)?)
    }
}

// The migration of a store of version 1.
fn renew<K: Keeper>(alloc: Global, keeper: &mut K) -> Result<Vec<u8>, Refusal>
    requires { K.version keeper.old ≡ 1 }
    ensures done { IsDone Renews (λ v. v.items) (K.told keeper.old) (K.told keeper.new) result }
    ensures fault { IfErr result (λ e. e ≡ StoreFault → Rose (K.faults keeper.old)
        (K.faults keeper.new)) }
    ensures later { K.faults keeper.old ≤ K.faults keeper.new }
    ensures version { (K.version keeper.new ≡ K.version keeper.old) ⊎ (K.version keeper.new ≡ 2) }
    ensures no_file_fault { result ≢ Err Refusal.FileFault }
{
    let contexts = stored_contexts(alloc, keeper)?;
    let pairs = renewed_contexts(alloc, &contexts)?;
    move_rows(alloc, keeper, &pairs)
}

// The contexts that have a row.
pub(crate) fn stored_contexts<K: Keeper>(
    alloc: Global,
    keeper: &mut K,
) -> Result<Vec<Vec<u8>>, Refusal>
    ensures contexts { IfOk result (λ cs. IfSome (K.told keeper.new) (λ k. map (λ c.
        c.items) cs.items ≡ contexts_of k)) }
    ensures halt { IfErr result IsHalt }
    ensures fault { IfErr result (λ e. e ≡ StoreFault → Rose (K.faults keeper.old)
        (K.faults keeper.new)) }
    ensures stays { Stays (K.told keeper.old) (K.told keeper.new) }
    ensures later { K.faults keeper.old ≤ K.faults keeper.new }
    ensures version { K.version keeper.new ≡ K.version keeper.old }
{
    match keeper.contexts(alloc) {
        Ok(contexts) => Ok(contexts),
        Err(error) => Err(refused_by(error)),
    }
}

// Each old context with the new one of its types; or the first that is one of no types.
fn renewed_contexts(alloc: Global, contexts: &[Vec<u8>]) -> Result<Vec<ContextPair>, Refusal>
    ensures renewed { IfOk result (λ ps. AreRenewed (map (λ c. c.items) contexts.now)
        (map context_pair ps.items)) }
    ensures refused { IfErr result (λ e. (e ≡ Memory) ⊎ ((c : List ℕ) × IsFirstNoContext (map (λ c.
        c.items) contexts.now) c × (e ≡ StoredContext c))) }
    ensures no_file_fault { result ≢ Err Refusal.FileFault }
{
    let mut pairs = Vec::new(alloc);
    for context in contexts {
        pairs.push(renewed(alloc, context)?)?;
    }
    Ok(pairs)
}

// An old context with the new one of its types.
fn renewed(alloc: Global, old: &[u8]) -> Result<ContextPair, Refusal>
    ensures old { IfOk result (λ p. p.old.items ≡ old.now) }
    ensures renewed { IfOk result (λ p. IsRenewed old.now p.new.items) }
    ensures refused { IfErr result (λ e. (e ≡ Memory) ⊎ (IsNoContext old.now × (e
        ≡ StoredContext old.now))) }
    ensures no_file_fault { result ≢ Err Refusal.FileFault }
{
    match read_old_context(alloc, old) {
        Ok(types) => Ok(new_pair(alloc, old, &types)?),
        Err(ContextRefusal::ContextText) => Err(no_context(alloc, old)),
        Err(ContextRefusal::Memory) => Err(Refusal::Memory),
    }
}

// The old context of types, with the new one.
fn new_pair(alloc: Global, old: &[u8], types: &Types) -> Result<ContextPair, AllocError>
    requires types { AreTypes types.now }
    requires text { IsOldContextText types.now old.now }
    ensures old { IfOk result (λ p. p.old.items ≡ old.now) }
    ensures renewed { IfOk result (λ p. IsRenewed old.now p.new.items) }
{
    Ok(ContextPair {
        old: Vec::from_slice(alloc, old)?,
        new: context_text(alloc, types)?,
    })
}

// The refusal of a context of no types; or want of memory.
fn no_context(alloc: Global, context: &[u8]) -> Refusal
    ensures { (result ≡ Memory) ⊎ (result ≡ StoredContext context.now) }
{
    match Vec::from_slice(alloc, context) {
        Ok(context) => Refusal::StoredContext {
            context: Items::from_vec(context),
        },
        Err(_) => Refusal::Memory,
    }
}

// Has the rows stand under the new contexts.
fn move_rows<K: Keeper>(
    alloc: Global,
    keeper: &mut K,
    pairs: &[ContextPair],
) -> Result<Vec<u8>, Refusal>
    requires old { K.version keeper.old ≡ 1 }
    requires pairs { IfSome (K.told keeper.old) (λ k. AreRenewed (contexts_of k)
        (map context_pair pairs.now)) }
    ensures done { IsDone Renews (λ v. v.items) (K.told keeper.old) (K.told keeper.new) result }
    ensures fault { IfErr result (λ e. e ≡ StoreFault → Rose (K.faults keeper.old)
        (K.faults keeper.new)) }
    ensures later { K.faults keeper.old ≤ K.faults keeper.new }
    ensures version { (K.version keeper.new ≡ K.version keeper.old) ⊎ (K.version keeper.new ≡ 2) }
    ensures no_file_fault { result ≢ Err Refusal.FileFault }
{
    forms_of_contexts();
    let text = migrated_text(alloc, pairs.len())?;
    match keeper.migrate(alloc, pairs) {
        Ok(()) => Ok(text),
        Err(error) => Err(refused_by(error)),
    }
}

// How many contexts there were.
fn migrated_text(alloc: Global, count: usize) -> Result<Vec<u8>, AllocError>
    ensures { IfOk result (λ v. v.items ≡ migrated_text count) }
{
    let mut text = Vec::from_slice(alloc, b"migrated ")?;
    text.extend_from_slice(Buffer::new().format(count).as_bytes())?;
    text.extend_from_slice(b"\n")?;
    Ok(text)
}
