// Whether an edge may be put on a stem.
ghost use Rattle.std.specs.Prelude.{◌≡◌, ◌<◌, ◌≤◌, length};
ghost use Rattle.degree_numbers.specs.Degree.{degree_plus, IsWithin};
ghost use Rattle.tree_listing.specs.Made.{is_not_above, passes, IsSite};
ghost use Rattle.tree_listing.specs.Frames.{is_in_front, IsFrontIn, front, IsFront, degree_beside, entries_beside, IsFrame, keeps};

use crate::level::Site;
use degree_numbers::Degree;
use normal_rule::EdgeType;
use plain_trees::edge_degree;
use std::cmp::Ordering;
use tree_pool::{Pool, TreeId};

// The greatest decoration sum of a listed tree.
pub const MOST_DECORATION: u32 = 64;

/// Whether a degree is at most another.
pub fn is_not_above(d: &Degree, e: &Degree) -> bool
    ensures { result ≡ is_not_above d.now e.now }
{
    !d.order(e).is_gt()
}

/// Which trees may stand above an edge of a type in front of the edges of a root.
#[derive(Clone, Copy, Debug, PartialEq, Eq)]
pub enum Front {
    All,
    /// Those that do not come after this one.
    UpTo(TreeId),
    None,
}

/// What is known of a site before a tree stands above its new edge: the degree of that edge with
/// the stem and the reserve, their decoration sum, and which trees may stand there.
#[derive(Clone, Copy, Debug, PartialEq, Eq)]
pub struct Frame {
    pub degree: Degree,
    pub entries: u32,
    pub front: Front,
}

/// Which trees those are where the types of the edges compare so, and this tree stands above the
/// first edge.
fn front_by(order: Ordering, first: TreeId) -> Front
    ensures { result ≡ front order first }
{
    match order {
        Ordering::Less => Front::All,
        Ordering::Equal => Front::UpTo(first),
        Ordering::Greater => Front::None,
    }
}

/// Which trees may stand above an edge of this type in front of the edges of a root.
fn front_of(pool: &Pool<'_>, edge: &EdgeType, rest: TreeId) -> Front
    requires rest { rest.0 < length pool.now.trees }
    ensures { IsFront pool.now edge.now rest result }
{
    let (_, edges) = pool.node(rest);
    match edges {
        [first, ..] => {
            let by_kind = edge.kind.0.cmp(&first.kind.0);
            front_by(by_kind.then(edge.p.order(&first.p)), first.child)
        }
        [] => Front::All,
    }
}

/// Whether a tree is one of those.
fn is_in_front(pool: &Pool<'_>, front: &Front, child: TreeId) -> bool
    requires child { child.0 < length pool.now.trees }
    requires front { IsFrontIn pool.now front.now }
    ensures { result ≡ is_in_front pool.now front.now child }
{
    match front {
        Front::All => true,
        Front::UpTo(last) => !pool.order(child, *last).is_gt(),
        Front::None => false,
    }
}

/// The degree of the new edge of a site with its stem and its reserve.
fn degree_beside(pool: &Pool<'_>, site: &Site) -> Degree
    requires site { IsSite pool.now site.now }
    ensures degree { result ≡ degree_beside pool.now site.now }
    ensures a { IsWithin result.a 1001000000000000 }
    ensures b { IsWithin result.b 1001000000000000 }
{
    pool.laws();
    let edge = edge_degree(pool.types(), site.edge.kind, &site.edge.p);
    edge.plus(&pool.degree(site.rest)).plus(&site.reserve)
}

/// The decoration sum of the new edge of a site with its stem.
fn entries_beside(pool: &Pool<'_>, site: &Site) -> u32
    requires site { IsSite pool.now site.now }
    ensures entries { result ≡ entries_beside pool.now site.now }
    ensures small { result ≤ 8192 }
{
    pool.laws();
    site.edge.p.total() + pool.decoration_sum(site.rest)
}

/// What is known of a site.
pub fn frame_of(pool: &Pool<'_>, site: &Site) -> Frame
    requires { IsSite pool.now site.now }
    ensures { IsFrame pool.now site.now result }
{
    Frame {
        degree: degree_beside(pool, site),
        entries: entries_beside(pool, site),
        front: front_of(pool, &site.edge, site.rest),
    }
}

/// Whether a tree of this degree above the new edge leaves the reserve.
#[tactic(auto, using(crate::proofs::Walks::reserve_fits))]
pub fn leaves_room(site: &Site, frame: &Frame, degree: &Degree) -> bool
    requires frame_a { IsWithin frame.now.degree.a 1001000000000000 }
    requires frame_b { IsWithin frame.now.degree.b 1001000000000000 }
    requires degree_a { IsWithin degree.now.a 100000000000 }
    requires degree_b { IsWithin degree.now.b 100000000000 }
    ensures { result ≡ is_not_above (degree_plus frame.now.degree degree.now) site.now.most }
{
    is_not_above(&frame.degree.plus(degree), &site.most)
}

// Whether a tree above the new edge keeps what is known of the site.
fn keeps(pool: &Pool<'_>, site: &Site, frame: &Frame, child: TreeId) -> bool
    requires child { child.0 < length pool.now.trees }
    requires frame { IsFrame pool.now site.now frame.now }
    ensures { result ≡ keeps pool.now site.now frame.now child }
{
    pool.laws();
    leaves_room(site, frame, &pool.degree(child))
        && frame.entries + pool.decoration_sum(child) <= MOST_DECORATION
        && is_in_front(pool, &frame.front, child)
}

/// Whether what stands at the site with this tree above the new edge is a stem.
pub fn passes(pool: &Pool<'_>, site: &Site, frame: &Frame, child: TreeId) -> bool
    requires child { child.0 < length pool.now.trees }
    requires frame { IsFrame pool.now site.now frame.now }
    ensures { result ≡ passes pool.now site.now child }
{
    keeps(pool, site, frame, child)
}
