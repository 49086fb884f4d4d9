// Stems that are to be made.
ghost use Rattle.std.specs.Prelude.{◌≡◌, ◌<◌, ◌++◌, ◌∷◌, [], List, length, OnOk, IfOk};
ghost use Rattle.std.specs.List.{All};
ghost use Rattle.ordered_lists.specs.Members.{IsIn};
ghost use Rattle.tree_pool.specs.declared.node.TreeId.{TreeId};
ghost use Rattle.tree_listing.specs.declared.level.RowLevel.{RowLevel};
ghost use Rattle.tree_listing.specs.Frames.{IsFrame};
ghost use Rattle.tree_listing.specs.Made.{IsSite, AreIds, IsRowOf, AreRows, IsExtension, IsInRange, IsStemIn, IsLevelIn, growth_of, site_of, by_children, by_rows, by_edge, by_stem, by_stems, growths};

use crate::level::{Growth, Level, RowLevel, Site, Stem};
use crate::passes::{Frame, frame_of, leaves_room, passes};
use plain_trees::is_kernel_type;
use std::alloc::{AllocError, Global};
use tree_budgets::{Extension, RowPlan};
use tree_pool::{EdgeTo, Pool, TreeId};

/// The stem that is to be made of a site and the tree above its edge.
fn growth_of(site: &Site, child: TreeId) -> Growth
    ensures { result ≡ growth_of site.now child }
{
    let edge = EdgeTo {
        kind: site.edge.kind,
        p: site.edge.p,
        child,
    };
    Growth {
        edge,
        rest: site.rest,
        node: site.node,
    }
}

/// Puts in what arises with each of these trees above the new edge.
fn put_children(
    made: &mut Vec<Growth>,
    pool: &Pool<'_>,
    site: &Site,
    frame: &Frame,
    children: &[TreeId],
) -> Result<(), AllocError>
    requires site { IsSite pool.now site.now }
    requires frame { IsFrame pool.now site.now frame.now }
    requires children { AreIds pool.now children.now }
    ensures { OnOk result (made.new.items ≡ made.old.items
        ++ by_children pool.now site.now children.now) }
{
    for child in children {
        if passes(pool, site, frame, *child) {
            made.push(growth_of(site, *child))?;
        }
    }
    Ok(())
}

/// Puts in what arises with each of the wholes of a row.
fn put_row(
    made: &mut Vec<Growth>,
    pool: &Pool<'_>,
    site: &Site,
    frame: &Frame,
    row: &RowLevel,
) -> Result<(), AllocError>
    requires site { IsSite pool.now site.now }
    requires frame { IsFrame pool.now site.now frame.now }
    requires row { IsRowOf pool.now row.now }
    ensures { OnOk result (made.new.items ≡ made.old.items
        ++ by_children pool.now site.now row.now.wholes) }
{
    if leaves_room(site, frame, &row.least) {
        put_children(made, pool, site, frame, row.wholes.as_slice())?;
    }
    Ok(())
}

/// Puts in what arises with each of the wholes on the rows of the kernel of the new edge.
fn put_rows(
    made: &mut Vec<Growth>,
    pool: &Pool<'_>,
    site: &Site,
    rows: &[RowLevel],
) -> Result<(), AllocError>
    requires site { IsSite pool.now site.now }
    requires rows { AreRows pool.now rows.now }
    ensures { OnOk result (made.new.items ≡ made.old.items ++ by_rows pool.now site.now rows.now) }
{
    let frame = frame_of(pool, site);
    for row in rows {
        if row.kernel == site.edge.kind {
            put_row(made, pool, site, &frame, row)?;
        }
    }
    Ok(())
}

/// Puts in what arises where `above` edges stand above the new edge.
fn put_edge(
    made: &mut Vec<Growth>,
    pool: &Pool<'_>,
    empty: TreeId,
    above: usize,
    rows: &[RowLevel],
    site: &Site,
) -> Result<(), AllocError>
    requires site { IsSite pool.now site.now }
    requires rows { AreRows pool.now rows.now }
    requires empty { empty.0 < length pool.now.trees }
    ensures { OnOk result (made.new.items ≡ made.old.items
        ++ by_edge pool.now empty above rows.now site.now) }
{
    if is_kernel_type(pool.types(), site.edge.kind) {
        put_rows(made, pool, site, rows)
    } else if above == 0 {
        let frame = frame_of(pool, site);
        put_children(made, pool, site, &frame, &[empty])
    } else {
        Ok(())
    }
}

/// The place for the edge of an extension on a stem.

fn site_of(plan: &RowPlan, stem: &Stem, extension: &Extension) -> Site
    requires { extension.now.node < length plan.now.nodes }
    ensures { result ≡ site_of plan.now stem.now extension.now }
{
    Site {
        rest: stem.id,
        edge: extension.edge,
        node: extension.node,
        reserve: plan.nodes.as_slice()[extension.node].reserve,
        most: plan.most,
    }
}

/// What a stem and its extensions are looked up in: the plan of their row, the wholes with `above`
/// edges by rows, and the number of the empty tree.
#[derive(Clone, Copy)]
pub struct Ground<'r> {
    pub plan: &'r RowPlan,
    pub rows: &'r [RowLevel],
    pub above: usize,
    pub empty: TreeId,
}

/// Puts in what arises from a stem where `above` edges stand above the new edge.
fn put_stem(
    made: &mut Vec<Growth>,
    pool: &Pool<'_>,
    ground: &Ground<'_>,
    stem: &Stem,
) -> Result<(), AllocError>
    requires plan { IsInRange pool.now.types ground.now.plan.now }
    requires rows { AreRows pool.now ground.now.rows.now }
    requires empty { ground.now.empty.0 < length pool.now.trees }
    requires stem { IsStemIn pool.now ground.now.plan.now stem.now }
    ensures { OnOk result (made.new.items ≡ made.old.items
        ++ by_stem pool.now ground.now.empty ground.now.above ground.now.rows.now
        ground.now.plan.now stem.now) }
{
    let plan = ground.plan;
    for extension in plan.nodes.as_slice()[stem.node].extensions.as_slice() {
        let site = site_of(plan, stem, extension);
        put_edge(made, pool, ground.empty, ground.above, ground.rows, &site)?;
    }
    Ok(())
}

/// Puts in what arises from each of these stems.
fn put_stems(
    made: &mut Vec<Growth>,
    pool: &Pool<'_>,
    ground: &Ground<'_>,
    stems: &[Stem],
) -> Result<(), AllocError>
    requires plan { IsInRange pool.now.types ground.now.plan.now }
    requires rows { AreRows pool.now ground.now.rows.now }
    requires empty { ground.now.empty.0 < length pool.now.trees }
    requires stems { All (IsStemIn pool.now ground.now.plan.now) stems.now }
    ensures { OnOk result (made.new.items ≡ made.old.items
        ++ by_stems pool.now ground.now.empty ground.now.above ground.now.rows.now
        ground.now.plan.now stems.now) }
{
    for stem in stems {
        put_stem(made, pool, ground, stem)?;
    }
    Ok(())
}

/// The stems of the next level on a row, as they are to be made: an edge is put on a stem, so that
/// together all edges are as many as there are levels.
pub fn growths(
    alloc: Global,
    pool: &Pool<'_>,
    empty: TreeId,
    plan: &RowPlan,
    levels: &[Level],
    row: usize,
) -> Result<Vec<Growth>, AllocError>
    requires plan { IsInRange pool.now.types plan.now }
    requires levels { All (IsLevelIn pool.now plan.now row) levels.now }
    requires empty { empty.0 < length pool.now.trees }
    ensures { IfOk result (λ made. made.items ≡ growths pool.now empty plan.now levels.now row) }
{
    let mut made = Vec::new(alloc);
    for e in 0..levels.len() {
        let above = levels.len() - 1 - e;
        let ground = Ground {
            plan,
            rows: levels[above].rows.as_slice(),
            above,
            empty,
        };
        put_stems(
            &mut made,
            pool,
            &ground,
            levels[e].rows.as_slice()[row].stems.as_slice(),
        )?;
    }
    Ok(made)
}
