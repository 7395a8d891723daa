//! What the numbers mean that C gives for an order, a mode and a fit.
ghost use Rattle.std.specs.Prelude.{◌≡◌, ◌↔◌, IsTrue, pos, if◌then◌else◌};
ghost use Rattle.ndarray_layout_c.specs.Arguments.{fit_named, is_choice, mode_named, order_named};

use ndarray_layout::{CanIndexCheckMode, Fit, Order};

/// Whether a number names one of two choices.
pub(crate) fn is_choice(code: i32) -> bool
    ensures { result ≡ is_choice code }
{
    code == 0 || code == 1
}

/// The order of a number.
pub(crate) fn order_named(code: i32) -> Order
    ensures { result ≡ order_named code }
{
    if code == 0 {
        Order::RowMajor
    } else {
        Order::ColumnMajor
    }
}

/// The mode of a number.
pub(crate) fn mode_named(code: i32) -> CanIndexCheckMode
    ensures { result ≡ mode_named code }
{
    if code == 0 {
        CanIndexCheckMode::ReadOnly
    } else {
        CanIndexCheckMode::OwnedMutable
    }
}

/// The fit of a number.
pub(crate) fn fit_named(code: i32) -> Fit
    ensures { result ≡ fit_named code }
{
    if code == 0 { Fit::Strict } else { Fit::Clamp }
}

/// The number that C reads for a yes or a no.
pub(crate) fn answer_of(yes: bool) -> i32
    ensures number { result ≡ (if yes then pos 1 else pos 0) }
    ensures yes { (result ≡ pos 1) ↔ IsTrue yes }
{
    i32::from(yes)
}
