//! Whether two indices of a layout may share an element.
ghost use Rattle.std.specs.Option.{IfSome};
ghost use Rattle.std.specs.Prelude.{◌≡◌, ℕ, List, ◌<◌, ◌≤◌, ◌-◌, not, ◌&&◌, if◌then◌else◌, [], ◌∷◌, length, remove, ◌↔◌, ◌⊎◌, IsTrue, IsFalse};
ghost use Rattle.nd_base.specs.Signed.{signed as signed_reading, all_signed};
ghost use Rattle.nd_base.specs.Size.{is_empty, limit};
ghost use Rattle.nd_base.specs.Span.{reach as reach_of_axis, span};
ghost use Rattle.nd_dim.specs.StrideOrder.{IsStrideOrder};
ghost use Rattle.nd_shape.specs.NoAlias.{satisfies_no_alias_rule, strides_over_others, span_up_to as span_up_to_magnitude, SatisfiesNoAliasRule};
ghost use Rattle.nd_shape.specs.NoAliasPass.{holds_in_one_pass};
ghost use Rattle.nd_base.specs.DistinctOffsets.{HasDistinctOffsets};
ghost use Rattle.nd_base.specs.ValidLayout.{IsValidLayout};

use crate::size_limits::reach;
use nd_base::{Lengths, signed};
use nd_dim::{Forward, Reverse, Sequence, item};

/// The distance in elements from the first to the last coordinate of an axis, or 0 where its stride is
/// of a magnitude past `magnitude`.
#[inline(always)]
fn reach_up_to(len: usize, stride: usize, magnitude: usize) -> usize
    requires { reach_of_axis len (signed_reading stride) ≤ limit }
    ensures { result ≡ span_up_to_magnitude magnitude (len ∷ []) (signed_reading stride ∷ []) }
{
    let stride = signed(stride);
    let far = reach(len, stride);
    if stride.unsigned_abs() <= magnitude {
        far
    } else {
        0
    }
}

/// The summed spans of the axes but one, of those whose strides are of magnitude at most `magnitude`.
#[inline(always)]
fn span_of_others(shape: &[usize], strides: &[usize], axis: usize, magnitude: usize) -> usize
    requires axis { axis < length shape.now }
    requires same_count { length shape.now ≡ length strides.now }
    requires span_fits { span shape.now (all_signed strides.now) ≤ limit }
    ensures { result ≡ span_up_to_magnitude magnitude
        (remove shape.now axis) (remove (all_signed strides.now) axis) }
{
    // (the axis is left out in the sum: to sum over all and take it away keeps LLVM from unrolling both loops)
    let mut total = 0usize;
    for other in 0..shape.len() {
        let far = reach_up_to(shape[other], strides[other], magnitude);
        total += if other == axis { 0 } else { far };
    }
    total
}

/// Whether the stride of an axis of length greater than 1 steps over no more than the axes of no
/// greater stride span together.
#[inline(always)]
fn overlaps_others(shape: &[usize], strides: &[usize], axis: usize) -> bool
    requires axis { axis < length shape.now }
    requires same_count { length shape.now ≡ length strides.now }
    requires span_fits { span shape.now (all_signed strides.now) ≤ limit }
    ensures { result ≡ not (strides_over_others shape.now (all_signed strides.now) axis) }
{
    let magnitude = signed(strides[axis]).unsigned_abs();
    shape[axis] > 1 && magnitude <= span_of_others(shape, strides, axis, magnitude)
}

/// Whether some axis of length greater than 1 has a stride that steps over no more than the axes of
/// no greater stride span together.
#[inline(always)]
fn some_overlaps_others(shape: &[usize], strides: &[usize]) -> bool
    requires same_count { length shape.now ≡ length strides.now }
    requires span_fits { span shape.now (all_signed strides.now) ≤ limit }
    ensures { result ≡ not (satisfies_no_alias_rule shape.now (all_signed strides.now)) }
{
    for axis in 0..shape.len() {
        if overlaps_others(shape, strides, axis) {
            return true;
        }
    }
    false
}

/// Whether a loop along the axes, in the order of the sequences, comes to one of length greater than
/// 1 whose stride is no longer than those before it span together. `None` where it comes to a stride
/// that is shorter than one before it, since such a loop doesn't decide it.
#[inline(always)]
fn overlap_in_one_pass<S: Sequence>(shape: &S, strides: &S) -> Option<bool>
    requires same_count { length (S.items shape.now) ≡ length (S.items strides.now) }
    requires span_fits { span (S.items shape.now) (all_signed (S.items strides.now)) ≤ limit }
    ensures { IfSome result
        (λ overlaps. overlaps ≡
        not (satisfies_no_alias_rule (S.items shape.now) (all_signed (S.items strides.now)))) }
{
    let mut reached = 0usize;
    let mut longest = 0usize;
    for position in 0..shape.len() {
        let len = item(shape, position);
        let stride = signed(item(strides, position));
        let magnitude = stride.unsigned_abs();
        if len > 1 {
            if magnitude <= reached {
                return (magnitude >= longest).then_some(true);
            }
            longest = magnitude;
            reached += reach(len, stride);
        }
    }
    Some(false)
}

/// What `overlap_in_one_pass` tells in the order that the first and the last stride suggest: the axes
/// are mostly in this one, if in one of the two.
#[inline(always)]
fn overlap_in_order(shape: &[usize], strides: &[usize]) -> Option<bool>
    requires some_axis { 0 < length shape.now }
    requires same_count { length shape.now ≡ length strides.now }
    requires span_fits { span shape.now (all_signed strides.now) ≤ limit }
    ensures { IfSome result
        (λ overlaps. overlaps ≡ not (satisfies_no_alias_rule shape.now (all_signed strides.now))) }
{
    let first = signed(strides[0]).unsigned_abs();
    let last = signed(strides[strides.len() - 1]).unsigned_abs();
    if first < last {
        overlap_in_one_pass(&Forward(shape), &Forward(strides))
    } else {
        overlap_in_one_pass(&Reverse(shape), &Reverse(strides))
    }
}

/// Whether an axis of length greater than 1 has a stride that steps over no more than the axes of no
/// greater stride span together.
///
/// One loop decides it along axes in the order of their strides; others are compared one by one,
/// and two axes at once.
#[inline(always)]
fn breaks_no_alias_rule(shape: &[usize], strides: &[usize]) -> bool
    requires same_count { length shape.now ≡ length strides.now }
    requires span_fits { span shape.now (all_signed strides.now) ≤ limit }
    ensures { result ≡ not (satisfies_no_alias_rule shape.now (all_signed strides.now)) }
{
    // (up to three axes are compared with all as fast, and without a branch that is hard to foresee)
    if shape.len() > 3 {
        if let Some(overlaps) = overlap_in_order(shape, strides) {
            return overlaps;
        }
    }
    some_overlaps_others(shape, strides)
}

/// Whether two indices of a layout may alias: it has an index, and breaks the no-alias rule of owned
/// mode. By the rule each axis of length greater than 1 has a stride longer than the summed spans of
/// the other axes of no longer stride.
///
/// `shape` and `strides` are one number for each axis, strides in elements and with their sign
/// (`signed`). The caller ensures that there are as many strides as lengths, and that the span is at
/// most `isize::MAX` (`span_of_lengths`). Where the result is false, no two indices alias; where it
/// is true, it may be that none do. One loop along the axes in the order of their strides would
/// return the same.
///
/// Takes no memory, and time of the square of the count of axes at most.
///
/// `[3,2]` with the strides `[2,1]`: false; with `[1,1]`: true. The rule over lists of ndarray's
/// `dim_stride_overlap`.
#[inline(always)]
pub fn has_overlap(shape: &[usize], strides: &[usize]) -> bool
    requires same_count { length shape.now ≡ length strides.now }
    requires span_fits { span shape.now (all_signed strides.now) ≤ limit }
    ensures rule { result ≡
        (not (is_empty shape.now) && not (satisfies_no_alias_rule shape.now (all_signed strides.now))) }
    ensures apart { IsFalse result ↔
        (IsTrue (is_empty shape.now) ⊎ SatisfiesNoAliasRule shape.now (all_signed strides.now)) }
    ensures distinct { IsFalse result → HasDistinctOffsets shape.now (all_signed strides.now) }
    ensures pass { (order : List ℕ) → IsStrideOrder (all_signed strides.now) order →
        result ≡ (not (is_empty shape.now)
        && not (holds_in_one_pass shape.now (all_signed strides.now) order)) }
{
    breaks_no_alias_rule(shape, strides) && !shape.contains(&0)
}

/// Whether two indices of a layout may alias, as `has_overlap` returns it; `dim` has the lengths
/// and `strides` the strides.
///
/// The caller ensures that the layout is valid (`max_abs_offset_check_overflow`).
///
/// Takes no memory, and time in proportion to the square of the count of axes at most.
///
/// `[3,2]` with the strides `[2,1]`: false; with `[1,1]`: true. ndarray's `dim_stride_overlap`.
pub fn dim_stride_overlap<D: Lengths>(dim: &D, strides: &D) -> bool
    requires { IsValidLayout (D.list dim.now) (all_signed (D.list strides.now)) }
    ensures rule { result ≡
        (not (is_empty (D.list dim.now))
        && not (satisfies_no_alias_rule (D.list dim.now) (all_signed (D.list strides.now)))) }
    ensures apart { IsFalse result ↔
        (IsTrue (is_empty (D.list dim.now))
        ⊎ SatisfiesNoAliasRule (D.list dim.now) (all_signed (D.list strides.now))) }
    ensures distinct { IsFalse result →
        HasDistinctOffsets (D.list dim.now) (all_signed (D.list strides.now)) }
    ensures pass { (order : List ℕ) → IsStrideOrder (all_signed (D.list strides.now)) order →
        result ≡ (not (is_empty (D.list dim.now))
        && not (holds_in_one_pass (D.list dim.now) (all_signed (D.list strides.now)) order)) }
{
    has_overlap(dim.slice(), strides.slice())
}
