//! The axis at which a layout breaks the no-alias rule.
ghost use Rattle.std.specs.Prelude.{◌≡◌, ◌<◌, ◌≤◌, [], ◌∷◌, length, remove};
ghost use Rattle.ndarray_layout.specs.NoAlias.{span_up_to};
ghost use Rattle.ndarray_layout.specs.Signed.{all_signed, signed as signed_reading};
ghost use Rattle.ndarray_layout.specs.Size.{limit};
ghost use Rattle.ndarray_layout.specs.Span.{reach, span};
ghost use Rattle.ndarray_layout_c.specs.LayoutReasons.{alias_reason};

use crate::reasons::{ALIAS, Reason, of_axis};
use crate::statuses::UNSUPPORTED;
use ndarray_layout::signed;

/// How far an axis reaches, or 0 where its stride is of a magnitude past `magnitude`.
fn reach_up_to(len: usize, stride: usize, magnitude: usize) -> usize
    requires { reach len (signed_reading stride) ≤ limit }
    ensures { result ≡ span_up_to magnitude (len ∷ []) (signed_reading stride ∷ []) }
{
    let stride = signed(stride).unsigned_abs();
    if stride <= magnitude {
        len.saturating_sub(1) * stride
    } else {
        0
    }
}

/// How far the axes reach together whose strides are of magnitude at most `magnitude`.
fn span_up_to(shape: &[usize], strides: &[usize], magnitude: usize) -> usize
    requires same_count { length shape.now ≡ length strides.now }
    requires span_fits { span shape.now (all_signed strides.now) ≤ limit }
    ensures { result ≡ span_up_to magnitude shape.now (all_signed strides.now) }
{
    let mut total = 0usize;
    for axis in 0..shape.len() {
        let far = reach_up_to(shape[axis], strides[axis], magnitude);
        total += far;
    }
    total
}

/// How far all axes but one reach together, of those whose strides are no longer than its own, which is of a magnitude.
fn span_of_others(shape: &[usize], strides: &[usize], axis: usize, magnitude: usize) -> usize
    requires axis { axis < length shape.now }
    requires same_count { length shape.now ≡ length strides.now }
    requires span_fits { span shape.now (all_signed strides.now) ≤ limit }
    ensures { result ≡ span_up_to magnitude
        (remove shape.now axis) (remove (all_signed strides.now) axis) }
{
    let all = span_up_to(shape, strides, magnitude);
    let own = reach_up_to(shape[axis], strides[axis], magnitude);
    all - own
}

/// Why a layout breaks the no-alias rule, at the first axis that does.
pub(crate) fn alias_reason(shape: &[usize], strides: &[usize]) -> Option<Reason>
    requires same_count { length shape.now ≡ length strides.now }
    requires span_fits { span shape.now (all_signed strides.now) ≤ limit }
    ensures { result ≡ alias_reason shape.now (all_signed strides.now) }
{
    for axis in 0..shape.len() {
        let stride = signed(strides[axis]);
        let magnitude = stride.unsigned_abs();
        let others = span_of_others(shape, strides, axis, magnitude);
        if shape[axis] > 1 && magnitude <= others {
            return Some(of_axis(UNSUPPORTED, ALIAS, axis, stride, others, 0));
        }
    }
    None
}
