//! Reshapes of layouts.
use ndarray_layout::{
    IxDyn, Lengths, Order, max_abs_offset_check_overflow, reshape_dim, size_of_shape_checked,
};
use std::alloc::Global;
use test_tables::{Reading, layout_fault_name};

/// The strides of a reshape, or the fault as a word.
fn reshaped<D: Lengths, E: Lengths>(
    alloc: Global,
    from: &D,
    strides: &D,
    to: &E,
    order: Order,
) -> Result<E, &'static str> {
    if from.slice().contains(&0) || to.slice().contains(&0) || size_of_shape_checked(to).is_err() {
        return Err("bad_shape");
    }
    if max_abs_offset_check_overflow(1, from, strides).is_err() {
        return Err("bad_layout");
    }
    match reshape_dim(alloc, from, strides, to, order) {
        Ok(others) => Ok(others),
        Err(fault) => Err(layout_fault_name(&fault)),
    }
}

/// Whether a row of `reshape_dim` holds, at the type of any number of axes.
pub fn reshape_holds(alloc: Global, row: &mut Reading<'_>, order: Order) -> Option<bool> {
    let from: IxDyn = row.given.dim(alloc)?;
    let strides: IxDyn = row.given.dim(alloc)?;
    let to: IxDyn = row.given.dim(alloc)?;
    match reshaped(alloc, &from, &strides, &to, order) {
        Ok(others) => Some(row.answer.is_list(others.slice())),
        Err(fault) => Some(row.answer.is(fault)),
    }
}
