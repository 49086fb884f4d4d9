// Symmetry factors.
ghost use Rattle.std.specs.Prelude.{◌≡◌, ◌<◌, ◌≤◌, ◌*◌, ◌^◌, filter, length};
ghost use Rattle.limits.specs.declared.TheConstants.{MOST_EDGES};
ghost use Rattle.exact_sums.specs.Sums.{product_over};
ghost use Rattle.multiplicities.specs.Distinct.{distinct_by};
ghost use Rattle.exact_sums.specs.Binomials.{factorial};
ghost use Rattle.ordered_lists.specs.Subs.{count_of};
ghost use Rattle.plain_trees.specs.Plain.{Plain};
ghost use Rattle.plain_trees.specs.Canon.{planted_order};
ghost use Rattle.tree_pool.specs.Content.{tree_at};
ghost use Rattle.elementary_diff.specs.Symmetry.{root_edges, symmetry_of};

use tree_pool::{EdgeTo, Pool, TreeId};

/// How many of these edges are the given one.
fn multiplicity(edges: &[EdgeTo], e: &EdgeTo) -> u128
    ensures { result ≡ length (filter (λ f. ⟦<EdgeTo as PartialEq>⟧.eq f e.now) edges.now) }
{
    edges.iter().filter(|f| **f == *e).count() as u128
}

/// The symmetry factor of a tree (Bruned, Chandra, Chevyrev, Hairer, without the factorials of node
/// decorations, which are divided powers here): the product, over the distinct pairs of edge type
/// and subtree at the root, each with its multiplicity b, of the subtree's factor to the power b,
/// times b!. For `[u[xi]*u[xi]]` it is 2. Takes no memory, and is never refused: it is at most 24!.
pub fn symmetry(pool: &Pool<'_>, id: TreeId) -> u128
    requires { id.0 < length pool.now.trees }
    ensures value { result ≡ symmetry_of (tree_at pool.now id.0) }
    ensures most { result ≤ factorial MOST_EDGES }
{
    pool.laws();
    let (_, edges) = pool.node(id);
    let mut factor = 1;
    for i in 0..edges.len() {
        let e = edges[i];
        factor *= multiplicity(&edges[i..], &e) * symmetry(pool, e.child);
    }
    factor
}

/// The symmetry factor is the product over the distinct edges of the root, each with its
/// multiplicity b, of the factor of the tree above it to the power b, times b!.
pub fn symmetry_law()
    ensures { (t : Plain) →
        symmetry_of t ≡ product_over (λ e. symmetry_of e.child ^ count_of planted_order e
        (root_edges t) * factorial (count_of planted_order e (root_edges t)))
        (distinct_by planted_order (root_edges t)) }
{}
