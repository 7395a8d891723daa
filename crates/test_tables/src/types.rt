//! Questions that are asked at dimension types.
//!
//! Each type is named in this one place, since the check takes seconds for each function that names one.
use nd_base::{Ix0, Ix1, Ix2, Ix3, Ix4, Ix5, Ix6, IxDyn, Lengths};
use std::alloc::Global;

/// What can be asked at any dimension type.
pub trait AtType {
    /// Whether it holds at the type `D`; `None` where its row can't be read there.
    fn at<D: Lengths>(self, alloc: Global) -> Option<bool>
    where
        Self: Sized;
}

/// Whether it holds at the type that fixes so many axes, or, where none does, at that of any number.
pub fn at_type<A: AtType>(alloc: Global, ndim: Option<usize>, asked: A) -> Option<bool> {
    match ndim {
        Some(0) => asked.at::<Ix0>(alloc),
        Some(1) => asked.at::<Ix1>(alloc),
        Some(2) => asked.at::<Ix2>(alloc),
        Some(3) => asked.at::<Ix3>(alloc),
        Some(4) => asked.at::<Ix4>(alloc),
        Some(5) => asked.at::<Ix5>(alloc),
        Some(6) => asked.at::<Ix6>(alloc),
        _ => asked.at::<IxDyn>(alloc),
    }
}

/// Whether it holds at each type of so many axes: the one that fixes them, if there is one, and that of any number.
pub fn at_each_type<A: AtType + Copy>(alloc: Global, count: usize, asked: A) -> Option<bool> {
    Some(at_type(alloc, Some(count), asked)? && at_type(alloc, None, asked)?)
}
