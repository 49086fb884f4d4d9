// The inequality of regularities.
ghost use Rattle.std.specs.Prelude.{◌≡◌, ◌<◌, ◌≤◌, true, false, length, slice_index_or, IfOk, OnOk, IfErr, OnErr, pos, neg_ℤ, unsigned_abs, ◌*◌};
ghost use Rattle.std.specs.List.{All, prefix_len};
ghost use Rattle.std.specs.Int.{int_min};
ghost use Rattle.limits.specs.declared.TheConstants.{MOST_DECORATIONS};
ghost use Rattle.degree_numbers.specs.Types.{type_degree, size_in_units};
ghost use Rattle.equations.specs.Accepted.{IsEquation};
ghost use Rattle.normal_rule.specs.Order.{empty_node};
ghost use Rattle.normal_rule.specs.Gaps.{nodes_gap, rows_gap};
ghost use Rattle.normal_rule.specs.Regularity.{kernel_regularity, regularity_of, edge_regularity, node_regularity, left_side, right_side, holds, difference, standard, HoldAll, IsSubcritical, IsGap, IsFirstFailure, HasRows, IsMeasuredNode, AreMeasured};

use crate::rule::{EdgeType, NodeType, Rule, RuleRow};
use degree_numbers::{Degree, Kind, Multi, TypeId};
use equations::{Equation, Unknown};

/// Where the inequality of regularities fails: the first kernel, the number of its first node type
/// at which it does, and both sides there, in standard parts.
#[derive(Clone, Copy, Debug, PartialEq, Eq)]
pub struct NotSubcritical {
    pub kernel: TypeId,
    pub node: usize,
    pub left: Degree,
    pub right: Degree,
}

// The standard part of a degree.
fn standard(d: &Degree) -> Degree
    ensures { result ≡ standard d.now.a }
{
    Degree { a: d.a, b: 0 }
}

// The regularity that the file gives for a kernel.
fn kernel_regularity(unknowns: &[Unknown], kernel: TypeId) -> Degree
    ensures { result ≡ standard (kernel_regularity unknowns.now kernel.0) }
{
    for unknown in unknowns {
        if unknown.kernel == kernel {
            return standard(&unknown.regularity);
        }
    }
    Degree { a: 0, b: 0 }
}

/// The regularity of a type, in standard parts: of a noise its degree, of a kernel what the file
/// gives.
pub fn regularity_of(eq: &Equation, kind: TypeId) -> Degree
    ensures { result ≡ standard (regularity_of eq.now kind.0) }
{
    match eq.types.list.get(kind.0 as usize) {
        Some(entry) if entry.kind == Kind::Noise => standard(&entry.degree),
        _ => kernel_regularity(eq.unknowns.as_slice(), kind),
    }
}

// The degree of a type.
fn degree(eq: &Equation, kind: TypeId) -> Degree
    ensures { result ≡ standard (type_degree eq.now.types kind.0).a }
{
    match eq.types.list.get(kind.0 as usize) {
        Some(entry) => standard(&entry.degree),
        None => Degree { a: 0, b: 0 },
    }
}

// The common denominator of the degrees.
fn denominator(eq: &Equation) -> u64
    requires { IsEquation eq.now }
    ensures { result ≡ unsigned_abs eq.now.types.units.den }
{
    eq.types.units.den.unsigned_abs()
}

// The scaled size of a multiindex in the units of the degrees.
#[tactic(auto, using(crate::proofs::Sizes::scaling_small))]
fn in_units(eq: &Equation, p: &Multi) -> u64
    requires equation { IsEquation eq.now }
    requires entries { All (λ m. m ≤ MOST_DECORATIONS) p.now.entries }
    ensures value { result ≡ size_in_units eq.now.types p.now.entries }
    ensures small { result ≤ 204800000000 }
{
    denominator(eq) * p.scaled_size(&eq.types.scaling)
}

// What the derivative takes from the regularity.
fn loss(eq: &Equation, p: &Multi) -> Degree
    requires equation { IsEquation eq.now }
    requires entries { All (λ m. m ≤ MOST_DECORATIONS) p.now.entries }
    ensures { result ≡ standard (neg_ℤ (pos (size_in_units eq.now.types p.now.entries))) }
{
    Degree {
        a: -(in_units(eq, p) as i64),
        b: 0,
    }
}

fn edge_regularity(eq: &Equation, edge: &EdgeType) -> Degree
    requires equation { IsEquation eq.now }
    requires entries { All (λ m. m ≤ MOST_DECORATIONS) edge.now.p.entries }
    ensures { result ≡ standard (edge_regularity eq.now edge.now) }
{
    regularity_of(eq, edge.kind).plus(&loss(eq, &edge.p))
}

fn node_regularity(eq: &Equation, node: &NodeType) -> Degree
    requires equation { IsEquation eq.now }
    requires measured { IsMeasuredNode node.now }
    ensures { result ≡ standard (node_regularity eq.now node.now) }
{
    let mut sum = Degree { a: 0, b: 0 };
    for edge in node.edges.as_slice() {
        sum = sum.plus(&edge_regularity(eq, edge));
    }
    sum
}

/// The right side |t| + reg(N) of the inequality of regularities for a kernel t and a node type N,
/// in standard parts.
pub fn right_side(eq: &Equation, kernel: TypeId, node: &NodeType) -> Degree
    requires equation { IsEquation eq.now }
    requires measured { IsMeasuredNode node.now }
    ensures { result ≡ standard (right_side eq.now kernel.0 node.now) }
{
    degree(eq, kernel).plus(&node_regularity(eq, node))
}

// By how much the inequality holds for a kernel and a node type, or its right side where it fails.
fn margin(eq: &Equation, kernel: TypeId, node: &NodeType) -> Result<Degree, Degree>
    requires equation { IsEquation eq.now }
    requires measured { IsMeasuredNode node.now }
    ensures holds { OnOk result (holds eq.now kernel.0 node.now ≡ true) }
    ensures difference { IfOk result (λ d. d ≡ standard (difference eq.now kernel.0 node.now)) }
    ensures fails { OnErr result (holds eq.now kernel.0 node.now ≡ false) }
    ensures right { IfErr result (λ r. r ≡ standard (right_side eq.now kernel.0 node.now)) }
{
    let left = regularity_of(eq, kernel);
    let right = right_side(eq, kernel, node);
    if left.a < right.a {
        Ok(Degree {
            a: right.a - left.a,
            b: 0,
        })
    } else {
        Err(right)
    }
}

// The smaller of two standard parts.
fn least(d: &Degree, e: &Degree) -> Degree
    ensures { result ≡ standard (int_min d.now.a e.now.a) }
{
    Degree {
        a: d.a.min(e.a),
        b: 0,
    }
}

// The first node type of a row at which the inequality fails, and its right side there.
#[derive(Clone, Copy, Debug, PartialEq, Eq)]
struct Failing {
    node: usize,
    right: Degree,
}

// The least difference at node types above a kernel.
fn check_nodes(eq: &Equation, kernel: TypeId, nodes: &[NodeType]) -> Result<Degree, Failing>
    requires equation { IsEquation eq.now }
    requires measured { All IsMeasuredNode nodes.now }
    ensures gap { IfOk result (λ gap. gap ≡ standard (nodes_gap eq.now kernel.0 nodes.now)) }
    ensures hold { OnOk result (prefix_len (holds eq.now kernel.0) nodes.now ≡ length nodes.now) }
    ensures node { IfErr result (λ f. f.node ≡ prefix_len (holds eq.now kernel.0) nodes.now) }
    ensures inside { IfErr result (λ f. f.node < length nodes.now) }
    ensures right { IfErr result (λ f. f.right
        ≡ standard (right_side eq.now kernel.0 (slice_index_or nodes.now f.node empty_node))) }
{
    let mut gap = Degree { a: i64::MAX, b: 0 };
    for (i, node) in nodes.iter().enumerate() {
        match margin(eq, kernel, node) {
            Ok(margin) => gap = least(&gap, &margin),
            Err(right) => return Err(Failing { node: i, right }),
        }
    }
    Ok(gap)
}

// The least difference in rows.
fn check_rows(eq: &Equation, rows: &[RuleRow]) -> Result<Degree, NotSubcritical>
    requires equation { IsEquation eq.now }
    requires measured { AreMeasured rows.now }
    ensures hold { OnOk result (HoldAll eq.now rows.now) }
    ensures gap { IfOk result (λ gap. gap ≡ standard (rows_gap eq.now rows.now)) }
    ensures failure { IfErr result (λ f. IsFirstFailure eq.now rows.now f) }
{
    let mut gap = Degree { a: i64::MAX, b: 0 };
    for row in rows {
        match check_nodes(eq, row.kernel, row.nodes.as_slice()) {
            Ok(least_of_row) => gap = least(&gap, &least_of_row),
            Err(failing) => {
                return Err(NotSubcritical {
                    kernel: row.kernel,
                    node: failing.node,
                    left: regularity_of(eq, row.kernel),
                    right: failing.right,
                });
            }
        }
    }
    Ok(gap)
}

/// The gap of a rule: the least difference of the two sides of the inequality of regularities,
/// reg(t) < |t| + reg(N) for each kernel t and each node type N of its row (after Bruned, Hairer
/// and Zambotti), in standard parts. Where the inequality fails, answers the first kernel and its
/// first node type at which it does, with both sides. Takes no memory.
pub fn check_regularity(eq: &Equation, rule: &Rule) -> Result<Degree, NotSubcritical>
    requires equation { IsEquation eq.now }
    requires rows { HasRows eq.now rule.now }
    requires measured { AreMeasured rule.now.rows }
    ensures subcritical { OnOk result (IsSubcritical eq.now rule.now) }
    ensures gap { IfOk result (λ gap. IsGap eq.now rule.now gap.a × (gap.b ≡ pos 0)) }
    ensures failure { IfErr result (λ f. IsFirstFailure eq.now rule.now.rows f) }
{
    check_rows(eq, rule.rows.as_slice())
}
