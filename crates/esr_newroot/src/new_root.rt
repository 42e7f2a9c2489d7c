//! The root that a finalization writes.
ghost use Rattle.std.specs.Prelude.{◌≡◌, ◌+◌, ◌≤◌, ◌<◌, ◌∷◌, [], map, option_map, IfOk, Some};
ghost use Rattle.std.specs.List.{AllByRecursion, IsDistinct};
ghost use Rattle.std.specs.Str.{bytes_eq};
ghost use Rattle.esr_formats.specs.Ids.{number_of};
ghost use Rattle.esr_formats.specs.Infos.{info_of_code};
ghost use Rattle.esr_formats.specs.Roots.{root_of};
ghost use Rattle.esr_meta.specs.Info.{IsInfo};
ghost use Rattle.esr_model.specs.Finalize.{larger, finalized_root};
ghost use Rattle.esr_newroot.specs.Named.{index_named, ref_named, with_done, done_in, HasShards, AreShardsOf, IsReady, Becomes, changed};
ghost use Rattle.esr_newroot.specs.NewRoot.{MayFinalize};
ghost use Rattle.esr_results.specs.Results.{result_of};
ghost use Rattle.esr_root.specs.Indices.{AreIndices};

use esr_meta::SnapInfo;
use esr_names::{Id, IndexName, IndexRef};
use esr_results::{ShardResult, ShardResults};
use esr_root::{RootData, RootSnap};
use esr_seq::TryClone;
use std::alloc::{AllocError, Global};

/// The indices of a root keep their rule.
fn root_rule(root: &RootData)
    ensures { AreIndices root.now.indices }
{
    let _indices = root.indices.as_slice();
}

/// An info keeps its rule.
fn info_rule(info: &SnapInfo)
    ensures { IsInfo info.now }
{
    let _indices = &info.indices;
}

/// The snapshot, as a root lists it.
fn snap_of(alloc: Global, info: &SnapInfo) -> Result<RootSnap, AllocError>
    ensures { IfOk result (λ s. s ≡ record { name = info.now.name; uuid = info.now.uuid; state = info.now.state }) }
{
    Ok(RootSnap {
        name: info.name.try_clone(alloc)?,
        uuid: info.uuid,
        state: info.state,
    })
}

/// The larger generation.
fn larger(old: Option<Id>, own: Id) -> Id
    ensures { Some result.number ≡ larger (option_map number_of old) (Some own.number) }
{
    match old {
        Some(old) if own < old => old,
        _ => own,
    }
}

/// The root with the larger generation in the shard of a result.
fn with_result(
    alloc: Global,
    root: &RootData,
    name: &IndexName,
    own: &ShardResult,
) -> Result<RootData, AllocError>
    requires few { own.now.shard.number < 1024 }
    requires has { HasShards (root_of root.now) name.now (own.now.shard.number + 1) }
    ensures { IfOk result (λ r. Becomes (root_of root.now) (root_of r)
        (changed name.now (with_done (result_of own.now ∷ []) own.now.shard.index.number) (root_of root.now))) }
{
    let shard = own.shard.number;
    let generation = larger(root.generation(name, shard), own.generation);
    root.set_generation(alloc, name, shard, Some(generation))
}

/// The root with the larger generation in each shard of an index that has a result.
fn with_index_results(
    alloc: Global,
    mut root: RootData,
    index: &IndexRef,
    results: &[ShardResult],
) -> Result<RootData, AllocError>
    requires { IsReady (root_of root) (map result_of results.now) index.now }
    ensures { IfOk result (λ r. Becomes (root_of root) (root_of r)
        (changed index.now.name (with_done (map result_of results.now) index.now.id.number) (root_of root))) }
{
    for own in results {
        if own.shard.index == index.id {
            root = with_result(alloc, &root, &index.name, own)?;
        }
    }
    Ok(root)
}

/// The root with the larger generation in each shard of these indices that has a result.
fn with_results(
    alloc: Global,
    mut root: RootData,
    indices: &[IndexRef],
    results: &[ShardResult],
) -> Result<RootData, AllocError>
    requires names { IsDistinct (λ p q. bytes_eq p.name q.name) indices.now }
    requires ready { AllByRecursion (IsReady (root_of root) (map result_of results.now)) indices.now }
    ensures { IfOk result (λ r. Becomes (root_of root) (root_of r)
        (λ name. done_in (map result_of results.now) (ref_named name indices.now) (index_named name (root_of root).indices))) }
{
    for index in indices {
        root = with_index_results(alloc, root, index, results)?;
    }
    Ok(root)
}

/// The root with a snapshot more: at its end, with its indices, and in each shard with the larger of
/// the root's generation and the result's own.
pub fn finalized(
    alloc: Global,
    root: &RootData,
    info: &SnapInfo,
    results: &ShardResults,
) -> Result<RootData, AllocError>
    requires { MayFinalize (root_of root.now) (info_of_code info.now) (map result_of results.now) }
    ensures { IfOk result (λ r. root_of r ≡ finalized_root (root_of root.now) (info_of_code info.now) (map result_of results.now)) }
{
    root_rule(root);
    info_rule(info);
    let grown = root.add(alloc, &snap_of(alloc, info)?, &info.indices)?;
    let new = with_results(alloc, grown, info.indices.as_slice(), results.as_slice())?;
    root_rule(&new);
    Ok(new)
}
