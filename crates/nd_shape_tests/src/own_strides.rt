//! All shapes of up to three axes with lengths from 0 to 3: by their own strides they are accepted over the same data
//! as along these strides where they are given.
use CanIndexCheckMode::OwnedMutable;
use nd_dim::{Lengths, default_strides, fortran_strides};
use nd_shape::{
    CanIndexCheckMode, can_index_slice, can_index_slice_not_custom, size_of_shape_checked,
};
use std::alloc::{AllocError, Global};
use test_tables::{AtType, List, at_each_type, fault_of, made};

/// Whether a shape is accepted along these strides over the same data as by them: over up to 28 elements, owned.
fn is_accepted_along<D: Lengths>(dim: &D, strides: Result<D, AllocError>) -> bool {
    let Ok(strides) = strides else {
        return false;
    };
    for len in 0..29 {
        let along = can_index_slice(1, len, dim, &strides, OwnedMutable);
        if fault_of(along) != fault_of(can_index_slice_not_custom(len, dim)) {
            return false;
        }
    }
    true
}

/// A shape whose own strides are asked for, in both orders.
#[derive(Clone, Copy)]
struct OwnStrides(List);

impl AtType for OwnStrides {
    fn at<D: Lengths>(self, alloc: Global) -> Option<bool> {
        let dim = made::<D>(alloc, self.0.as_slice())?;
        Some(
            size_of_shape_checked(&dim).is_ok()
                && is_accepted_along(&dim, default_strides(alloc, &dim))
                && is_accepted_along(&dim, fortran_strides(alloc, &dim)),
        )
    }
}

/// Whether a shape is accepted so at each of its types.
fn is_accepted(alloc: Global, lens: &[usize]) -> bool {
    match List::of(lens) {
        Some(list) => at_each_type(alloc, lens.len(), OwnStrides(list)) == Some(true),
        None => false,
    }
}

// The shapes of no axes, the first one, the first two and all three.
#[test]
fn shapes_along_their_own_strides(rt: HostRuntime) {
    for a in 0..4 {
        for b in 0..4 {
            for c in 0..4 {
                for count in 0..4 {
                    assert!(rt; is_accepted(rt.alloc(), &[a, b, c][..count]));
                }
            }
        }
    }
}
