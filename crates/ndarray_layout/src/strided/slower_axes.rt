//! The axes of a view that move slower than its rows: a row begins at each of their places.
ghost use Rattle.std.specs.Prelude.{◌≡◌, ◌<◌, ◌≤◌, pos, length};
ghost use Rattle.nd_base.specs.Size.{size};
ghost use Rattle.ndarray_layout.specs.NumberedRows.{numbered_place, slowest, slowest_view};
ghost use Rattle.ndarray_layout.specs.View.{IsView, view_of};

use crate::strided::Strided;
use crate::strided::nth_row::offset_of_flat;
use crate::strided::places::offset_place;
use nd_base::{Lengths, Order};
use std::marker::Model;

/// Axes, with the place of their first index and the order of their indices.
pub trait SlowerAxes: Drop {
    ghost use Rattle.nd_base.specs.declared.order.Order.{Order};
    ghost use Rattle.ndarray_layout.specs.View.{View};

    // The order of their indices.
    ghost order: { Self → Order };

    // The view of them.
    ghost starts: { Self → View };

    /// The axes, lent.
    fn lent(&self) -> LentAxes<'_>
        ensures order { result.order ≡ order self.now }
        ensures starts { view_of result.start result.lens.now result.strides.now ≡ starts self.now };

    /// The place of the index at a flat index.
    fn place_of_number(&self, number: usize) -> usize
        requires is_view { IsView (starts self.now) }
        requires below { number < size (starts self.now).shape }
        ensures { pos result ≡ numbered_place (order self.now) (starts self.now) number };
}

/// Axes of a view that is borrowed.
#[derive(Clone, Copy)]
pub struct LentAxes<'a> {
    pub(super) order: Order,
    pub(super) start: usize,
    pub(super) lens: &'a [usize],
    pub(super) strides: &'a [usize],
}

impl SlowerAxes for LentAxes<'_> {
    ghost order = { λ axes. axes.order };

    ghost starts = { λ axes. view_of axes.start axes.lens.now axes.strides.now };

    #[inline(always)]
    fn lent(&self) -> LentAxes<'_> {
        *self
    }

    #[inline(always)]
    fn place_of_number(&self, number: usize) -> usize {
        place_of_flat(self.order, self.start, self.lens, self.strides, number)
    }
}

/// The place of the index at a flat index. It stays a call, which takes numbers and slices alone, so that a loop over rows keeps its
/// cursor in registers.
#[inline(never)]
fn place_of_flat(
    order: Order,
    start: usize,
    lens: &[usize],
    strides: &[usize],
    number: usize,
) -> usize
    requires is_view { IsView (view_of start lens.now strides.now) }
    requires below { number < size lens.now }
    ensures { pos result ≡ numbered_place order (view_of start lens.now strides.now) number }
{
    offset_place(start, offset_of_flat(order, lens, strides, number))
}

/// Axes of a view that the cursor has: those that move slowest.
#[derive(Drop)]
pub struct KeptAxes<D: Lengths> {
    order: Order,
    view: Strided<D>,
    slower: usize,
}

impl<D: Lengths> Model for KeptAxes<D> {
    ghost use Rattle.std.specs.Prelude.{◌≤◌, length};
    ghost use Rattle.nd_base.specs.declared.order.Order.{Order};
    ghost use Rattle.ndarray_layout.specs.NumberedRows.{slowest_view};
    ghost use Rattle.ndarray_layout.specs.View.{View};

    ghost Value = { Order × View };

    ghost view = { λ axes. (axes.order, slowest_view axes.order axes.slower axes.view) };

    ghost invariant = { λ axes. axes.slower ≤ length axes.view.shape };
}

impl<D: Lengths> KeptAxes<D> {
    /// The `slower` axes of a view that move slowest.
    pub(super) fn new(order: Order, view: Strided<D>, slower: usize) -> Self
        requires { slower ≤ length view.shape }
        ensures { result ≡ (order, slowest_view order slower view) }
    {
        KeptAxes {
            order,
            view,
            slower,
        }
    }
}

impl<D: Lengths> SlowerAxes for KeptAxes<D> {
    ghost order = { λ axes. axes.0 };

    ghost starts = { λ axes. axes.1 };

    #[inline(always)]
    fn lent(&self) -> LentAxes<'_> {
        slowest_axes(self.order, &self.view, self.slower)
    }

    #[inline(always)]
    fn place_of_number(&self, number: usize) -> usize {
        match (self.view.dim.copied(), self.view.strides.copied()) {
            (Some(dim), Some(strides)) => {
                let view = Strided {
                    start: self.view.start,
                    dim,
                    strides,
                };
                place_of_copy(self.order, view, self.slower, number)
            },
            _ => place_of_kept(self.order, &self.view, self.slower, number),
        }
    }
}

/// The `slower` axes of a view that move slowest.
#[inline(always)]
fn slowest_axes<D: Lengths>(order: Order, view: &Strided<D>, slower: usize) -> LentAxes<'_>
    requires { slower ≤ length view.now.shape }
    ensures order { result.order ≡ order }
    ensures starts { view_of result.start result.lens.now result.strides.now ≡ slowest_view order slower view.now }
{
    LentAxes {
        order,
        start: view.start,
        lens: slowest_of(order, view.dim.slice(), slower),
        strides: slowest_of(order, view.strides.slice(), slower),
    }
}

/// Of `items`, one for each axis, those of the `count` axes that move slowest.
#[inline(always)]
fn slowest_of(order: Order, items: &[usize], count: usize) -> &[usize]
    requires { count ≤ length items.now }
    ensures { result.now ≡ slowest order count items.now }
{
    match order {
        Order::RowMajor => &items[..count],
        Order::ColumnMajor => &items[items.len() - count..],
    }
}

/// `place_of_kept` of a copy: a loop over rows keeps its cursor in registers, where no call takes the cursor's own view.
#[inline(never)]
fn place_of_copy<D: Lengths>(order: Order, view: Strided<D>, slower: usize, number: usize) -> usize
    requires axes { slower ≤ length view.shape }
    requires is_view { IsView (slowest_view order slower view) }
    requires below { number < size (slowest order slower view.shape) }
    ensures { pos result ≡ numbered_place order (slowest_view order slower view) number }
{
    place_of_kept(order, &view, slower, number)
}

/// The place of the index at a flat index of the `slower` axes that move slowest.
#[inline(never)]
fn place_of_kept<D: Lengths>(order: Order, view: &Strided<D>, slower: usize, number: usize) -> usize
    requires axes { slower ≤ length view.now.shape }
    requires is_view { IsView (slowest_view order slower view.now) }
    requires below { number < size (slowest order slower view.now.shape) }
    ensures { pos result ≡ numbered_place order (slowest_view order slower view.now) number }
{
    let axes = slowest_axes(order, view, slower);
    axes.place_of_number(number)
}
