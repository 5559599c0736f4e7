//! Wrapping: positions are brought into the box by whole edges, along the axes that wrap.
ghost use Rattle.std.specs.Prelude.{◌≡◌, ◌/◌, ◌-◌, ◌^◌, ◌<◌, ◌≤◌, ◌↔◌, [], ◌∷◌, pos, neg_ℤ, ◌-ℤ◌, ◌*ℤ◌, ◌≤ℤ◌, unsigned_abs, ℕ, ℤ, List, Ok, Err, IfOk, MatchResult};
ghost use Rattle.box_geo.specs.declared.sim_box.Axis.{Axis};
ghost use Rattle.box_geo.specs.declared.sim_box.Sides.{Sides};
ghost use Rattle.box_geo.specs.Sides.{edge, x_of, y_of, z_of, z_wraps, IsSoundExtent, IsInside, HasEdges};
ghost use Rattle.box_geo.specs.Wrap.{floor_div, edges_beyond, is_lost, taken_off, wrapped, wrap, Wrapped, IsWrapped, LosesFirst, AreFew};

use crate::sim_box::{Axis, Extent, Sides, SimBox};
use fx_num::V3;
use thiserror::Error;

/// A position is outside the box, along an axis that does not wrap. The first such axis counts.
#[derive(Clone, Copy, Debug, PartialEq, Eq, Error)]
#[error("the position is outside the box along axis {0:?}")]
pub struct Lost(pub Axis);

impl Extent {
    /// Whether the axis loses the number: it does not wrap, and the box does not hold the number.
    fn loses(&self, wraps: bool, x: i64) -> bool
        ensures { result ≡ is_lost wraps self.now x }
    {
        !wraps && (x < self.lo || self.hi <= x)
    }

    /// How many whole edges the number is beyond the axis, less than 0 below it.
    fn edges_beyond(&self, x: i64) -> i64
        requires sound { IsSoundExtent self.now }
        requires x { unsigned_abs x ≤ 2 ^ 40 }
        ensures is { result ≡ edges_beyond self.now x }
        ensures bound { unsigned_abs result < 2 ^ 24 }
    {
        let edge = self.edge().unsigned_abs();
        let distance = x.abs_diff(self.lo);
        if x < self.lo {
            edges_below(distance, edge)
        } else {
            edges_above(distance, edge)
        }
    }

    /// How many edges are taken off the number: none where the axis does not wrap.
    fn taken_off(&self, wraps: bool, x: i64) -> i64
        requires sound { IsSoundExtent self.now }
        requires x { unsigned_abs x ≤ 2 ^ 40 }
        ensures is { result ≡ taken_off wraps self.now x }
        ensures bound { unsigned_abs result < 2 ^ 24 }
    {
        if wraps { self.edges_beyond(x) } else { 0 }
    }

    /// The number less so many edges.
    fn less_edges(&self, x: i64, edges: i64) -> i64
        requires sound { IsSoundExtent self.now }
        requires x { unsigned_abs x ≤ 2 ^ 40 }
        requires edges { unsigned_abs edges < 2 ^ 24 }
        ensures { result ≡ (x -ℤ edges *ℤ edge self.now) }
    {
        x - length_of(edges, self.edge())
    }
}

/// The whole edges in a distance.
fn edges_above(distance: u64, edge: u64) -> i64
    requires distance { distance < 2 ^ 41 }
    requires edge { 2 ^ 18 ≤ edge }
    ensures is { result ≡ floor_div (pos distance) edge }
    ensures bound { unsigned_abs result < 2 ^ 24 }
{
    whole_edges(distance, edge) as i64
}

/// The whole edges that reach over a distance, with a minus.
fn edges_below(distance: u64, edge: u64) -> i64
    requires some { 0 < distance }
    requires distance { distance < 2 ^ 41 }
    requires edge { 2 ^ 18 ≤ edge }
    ensures is { result ≡ floor_div (neg_ℤ (pos distance)) edge }
    ensures bound { unsigned_abs result < 2 ^ 24 }
{
    -1 - whole_edges(distance - 1, edge) as i64
}

/// How many whole edges a distance has.
#[tactic(auto, using(crate::proofs::WrapLemmas::few_edges))]
fn whole_edges(distance: u64, edge: u64) -> u64
    requires distance { distance < 2 ^ 41 }
    requires edge { 2 ^ 18 ≤ edge }
    ensures is { result ≡ distance / edge }
    ensures bound { result < 2 ^ 24 - 1 }
{
    distance / edge
}

/// The length of so many edges.
fn length_of(edges: i64, edge: i64) -> i64
    requires edges { unsigned_abs edges < 2 ^ 24 }
    requires edge { unsigned_abs edge ≤ 2 ^ 34 }
    ensures is { result ≡ edges *ℤ edge }
    ensures bound { unsigned_abs result ≤ 2 ^ 58 }
{
    edges * edge
}

impl SimBox {
    /// Brings a position into the box by whole edges, and tells how many were taken off along each
    /// axis: the position was the new one and so many edges. Nothing is taken off along an axis that
    /// does not wrap, as z in two dimensions.
    ///
    /// # Errors
    ///
    /// [`Lost`] with the first axis that does not wrap and does not hold the position.
    pub fn wrap(&self, x: V3) -> Result<(V3, [i64; 3]), Lost>
        requires x { unsigned_abs (x_of x) ≤ 2 ^ 40 }
        requires y { unsigned_abs (y_of x) ≤ 2 ^ 40 }
        requires z { unsigned_abs (z_of x) ≤ 2 ^ 40 }
        ensures is { MatchResult result (λ w. wrap self.now.sides x ≡ Ok record { x = w.0; edges = w.1 }) (λ lost. wrap self.now.sides x ≡ Err lost.0) }
        ensures inside { IfOk result (λ w. IsInside self.now.sides w.0) }
        ensures few { IfOk result (λ w. AreFew w.1) }
    {
        let Sides {
            x: a,
            y: b,
            z: c,
            ..
        } = self.sides;
        if a.loses(a.periodic, x[0]) {
            return Err(Lost(Axis::X));
        }
        if b.loses(b.periodic, x[1]) {
            return Err(Lost(Axis::Y));
        }
        if c.loses(self.z_wraps(), x[2]) {
            return Err(Lost(Axis::Z));
        }
        let edges = self.edges_off(x);
        Ok((self.less_edges(x, edges), edges))
    }

    /// How many edges are taken off a position along each axis.
    fn edges_off(&self, x: V3) -> [i64; 3]
        requires x { unsigned_abs (x_of x) ≤ 2 ^ 40 }
        requires y { unsigned_abs (y_of x) ≤ 2 ^ 40 }
        requires z { unsigned_abs (z_of x) ≤ 2 ^ 40 }
        ensures is { result ≡ taken_off self.now.sides.x.periodic self.now.sides.x (x_of x)
            ∷ taken_off self.now.sides.y.periodic self.now.sides.y (y_of x)
            ∷ taken_off (z_wraps self.now.sides) self.now.sides.z (z_of x) ∷ [] }
        ensures few { AreFew result }
    {
        let Sides {
            x: a,
            y: b,
            z: c,
            ..
        } = self.sides;
        [
            a.taken_off(a.periodic, x[0]),
            b.taken_off(b.periodic, x[1]),
            c.taken_off(self.z_wraps(), x[2]),
        ]
    }

    /// A position less so many edges along each axis.
    fn less_edges(&self, x: V3, edges: [i64; 3]) -> V3
        requires x { unsigned_abs (x_of x) ≤ 2 ^ 40 }
        requires y { unsigned_abs (y_of x) ≤ 2 ^ 40 }
        requires z { unsigned_abs (z_of x) ≤ 2 ^ 40 }
        requires few { AreFew edges }
        ensures { result ≡ (x_of x -ℤ x_of edges *ℤ edge self.now.sides.x)
            ∷ (y_of x -ℤ y_of edges *ℤ edge self.now.sides.y)
            ∷ (z_of x -ℤ z_of edges *ℤ edge self.now.sides.z) ∷ [] }
    {
        let Sides {
            x: a,
            y: b,
            z: c,
            ..
        } = self.sides;
        [
            a.less_edges(x[0], edges[0]),
            b.less_edges(x[1], edges[1]),
            c.less_edges(x[2], edges[2]),
        ]
    }
}

/// Wrapping is by whole edges, in one way only: where every edge is above 0, a position wraps to
/// just what is inside the box and whole edges away, and none away along the axes that do not wrap.
/// It is lost just where such an axis does not hold it, at the first.
pub fn wrapping_is_by_whole_edges()
    ensures is { (s : Sides) (p : List ℤ) (w : Wrapped) → HasEdges s → (wrap s p ≡ Ok w ↔ IsWrapped s p w) }
    ensures inside { (s : Sides) (p : List ℤ) (w : Wrapped) → HasEdges s → wrap s p ≡ Ok w → IsInside s w.x }
    ensures only { (s : Sides) (p : List ℤ) (w u : Wrapped) → HasEdges s → IsWrapped s p w → IsWrapped s p u → u ≡ w }
    ensures lost { (s : Sides) (p : List ℤ) (axis : Axis) → (wrap s p ≡ Err axis ↔ LosesFirst s p axis) }
{}
