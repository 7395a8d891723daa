//! The calls of rows, by their names.
use crate::arrays::{OfArray, array_holds};
use crate::reshapes::reshape_holds;
use crate::runs::run_holds;
use crate::views::{OfView, view_holds};
use Call::{Array, Reshape, Run, View};
use Order::{ColumnMajor, RowMajor};
use ndarray_layout::Order;
use std::alloc::Global;
use std::process::Abort;
use test_tables::{Asked, Row, first_failing, meaning};

/// A call. A view is told by its shape, its strides, its start, and its places by rows.
#[derive(Clone, Copy)]
enum Call {
    /// `TYPE ..`: of a view.
    View(OfView),
    /// A run of steps.
    Run,
    /// `SHAPE STRIDES SHAPE => STRIDES`, or the fault.
    Reshape(Order),
    /// `TYPE SHAPE C|F|STRIDES COUNT ..`: of an array of the items 0 and so on, with the items that it then has.
    Array(OfArray),
}

static CALLS: [(&str, Call); 13] = [
    ("new", View(OfView::New)),
    ("from_shape", View(OfView::FromShape)),
    ("slice_in_order", View(OfView::SliceInOrder)),
    ("nth_row", View(OfView::NthRow)),
    ("run", Run),
    ("reshape_dim_C", Reshape(RowMajor)),
    ("reshape_dim_F", Reshape(ColumnMajor)),
    ("from_shape_vec", Array(OfArray::FromShapeVec)),
    ("items", Array(OfArray::Items)),
    ("set", Array(OfArray::Set)),
    ("multi_set", Array(OfArray::MultiSet)),
    ("set_parts", Array(OfArray::SetParts)),
    ("set_halves", Array(OfArray::SetHalves)),
];

/// Rows of calls.
struct Calls;

impl Asked for Calls {
    fn holds(&self, alloc: Global, row: &Row<'_>) -> Option<bool> {
        let reading = &mut row.reading();
        match meaning(&CALLS, row.call)? {
            View(asked) => view_holds(alloc, reading, asked),
            Run => run_holds(alloc, reading),
            Reshape(order) => reshape_holds(alloc, reading, order),
            Array(asked) => array_holds(alloc, reading, asked),
        }
    }
}

/// All rows of a table hold, and there is one at least. The first that doesn't is named.
pub(crate) fn hold(rt: &impl Abort, alloc: Global, table: &str) {
    if let Some(line) = first_failing(alloc, table, &Calls) {
        panic!(rt; "{line}");
    }
}
