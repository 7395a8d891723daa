//! Whether two arrays have the same items.
ghost use Rattle.std.specs.Cmp.Lexicographic.{pointwise};
ghost use Rattle.std.specs.List.{All, AllZip};
ghost use Rattle.std.specs.Prelude.{◌≡◌, ◌<◌, Bool};
ghost use Rattle.nd_loops.specs.Equal.{both_equal};
ghost use Rattle.nd_access.specs.LentRow.{row_items, rows_items};

mod one_type;

use crate::few::lent_by_few;
use nd_access::{LentRow, LentRows};

/// A type whose items are compared with those of another type, one by one and as slices: each of Rust's `PartialEq<U>`.
pub trait EqualTo<U>: Sized {
    // Whether an item is equal to one of the other type.
    ghost equal_to: { Self → U → Bool };

    /// Whether both items are equal. `2_u8` and 2: `true`. Rust's `eq`.
    fn is_equal_to(&self, other: &U) -> bool
        ensures { result ≡ equal_to self.now other.now };

    /// Whether the slices have one length, and each item is equal to the one beside it. 7 8 and 7: `false`. Rust's `eq` of slices.
    fn are_equal_to(items: &[Self], others: &[U]) -> bool
        ensures { result ≡ pointwise equal_to items.now others.now };
}

/// Whether the items of two rows of one length are equal, one after another.
#[inline(always)]
fn have_equal_places<T: EqualTo<U>, U>(one: &LentRow<'_, T>, other: &LentRow<'_, U>) -> bool
    requires { one.now.row.len ≡ other.now.row.len }
    ensures { result ≡ pointwise (both_equal T.equal_to) (row_items one.now) (row_items other.now) }
{
    for coordinate in 0..one.len() {
        if !one.item(coordinate).is_equal_to(other.item(coordinate)) {
            return false;
        }
    }
    true
}

/// Whether two rows of one length, of `FEW` unless that is 0, are equal: as slices where both are.
#[inline(always)]
fn are_equal_rows<const FEW: usize, T: EqualTo<U>, U>(
    one: LentRow<'_, T>,
    other: &LentRow<'_, U>,
) -> bool
    requires few { 0 < FEW → FEW ≡ one.row.len }
    requires count { one.row.len ≡ other.now.row.len }
    ensures { result
        ≡ pointwise (both_equal T.equal_to) (row_items one.entry) (row_items other.now) }
{
    if FEW > 0 {
        return have_equal_places(&lent_by_few::<FEW, T>(one), other);
    }
    match (one.as_slice(), other.as_slice()) {
        (Some(items), Some(others)) => T::are_equal_to(items, others),
        _ => have_equal_places(&one, other),
    }
}

/// Whether each row, of `FEW` items unless that is 0, is equal to the one beside it, of the same length.
#[inline(always)]
fn have_equal_each<const FEW: usize, T: EqualTo<U>, U>(
    rows: LentRows<'_, T>,
    others: LentRows<'_, U>,
) -> bool
    requires few { 0 < FEW → All (λ row. FEW ≡ row.row.len) rows }
    requires count { AllZip (λ row other. row.row.len ≡ other.row.len) rows others }
    ensures { result
        ≡ pointwise (both_equal T.equal_to) (rows_items rows.entry) (rows_items others.entry) }
{
    let mut others = others;
    for row in rows {
        if let Some(other) = others.next() {
            if !are_equal_rows::<FEW, T, U>(row, &other) {
                return false;
            }
        }
    }
    true
}

/// Whether each row is equal to the one beside it, of the same length.
pub fn have_equal_rows<T: EqualTo<U>, U>(rows: LentRows<'_, T>, others: LentRows<'_, U>) -> bool
    requires { AllZip (λ row other. row.row.len ≡ other.row.len) rows others }
    ensures { result
        ≡ pointwise (both_equal T.equal_to) (rows_items rows.entry) (rows_items others.entry) }
{
    match rows.row_len() {
        2 => have_equal_each::<2, T, U>(rows, others),
        3 => have_equal_each::<3, T, U>(rows, others),
        4 => have_equal_each::<4, T, U>(rows, others),
        _ => have_equal_each::<0, T, U>(rows, others),
    }
}
