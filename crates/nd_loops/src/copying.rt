//! New lists of what is made of the items of an array.
ghost use Rattle.std.specs.Fn.{CalledAt};
ghost use Rattle.std.specs.Iterator.{CallableOnAllAt};
ghost use Rattle.std.specs.List.{All};
ghost use Rattle.std.specs.Prelude.{◌≡◌, ◌+◌, ◌<◌, ◌≤◌, Some, length, map, reverse, vec_capacity, vec_len};
ghost use Rattle.nd_access.specs.LentRow.{row_items, rows_items};
ghost use Rattle.nd_access.specs.Mapped.{gives};
ghost use Rattle.nd_access.specs.Pushed.{HasPushed};

use crate::few::lent_by_stride;
use nd_access::{LentRow, LentRows};

/// Appends what a closure makes of each item of a slice to a list with room for it, and hands the closure back.
#[inline(always)]
fn push_slice<T, U: Drop, F: FnMut(&T) -> U>(mut made: Vec<U>, items: &[T], mut f: F) -> (Vec<U>, F)
    requires callable { CallableOnAllAt gives F.FnMut (map Some items.now) f }
    requires room { vec_len made + length items.now ≤ vec_capacity made }
    ensures pushed { HasPushed (λ p x y q. CalledAt F.FnMut p x y q) f
        (map Some items.now) made.items result.0.items result.1 }
    ensures len { vec_len result.0 ≡ vec_len made + length items.now }
    ensures capacity { vec_capacity result.0 ≡ vec_capacity made }
{
    for item in items {
        made.push_reserved(f(item));
    }
    (made, f)
}

/// Appends what a closure makes of each item of a slice, from the last one on, to a list with room for it, and hands the closure back.
#[inline(always)]
fn push_backwards<T, U: Drop, F: FnMut(&T) -> U>(
    mut made: Vec<U>,
    items: &[T],
    mut f: F,
) -> (Vec<U>, F)
    requires callable { CallableOnAllAt gives F.FnMut (reverse (map Some items.now)) f }
    requires room { vec_len made + length items.now ≤ vec_capacity made }
    ensures pushed { HasPushed (λ p x y q. CalledAt F.FnMut p x y q) f
        (reverse (map Some items.now)) made.items result.0.items result.1 }
    ensures len { vec_len result.0 ≡ vec_len made + length items.now }
    ensures capacity { vec_capacity result.0 ≡ vec_capacity made }
{
    for item in items.iter().rev() {
        made.push_reserved(f(item));
    }
    (made, f)
}

/// Appends what a closure makes of each item of a row of `len` items to a list with room for it, and hands the closure back. By a
/// length that is known, there is no loop.
#[inline(always)]
fn push_few<T, U: Drop, F: FnMut(&T) -> U>(
    made: Vec<U>,
    row: &LentRow<'_, T>,
    len: usize,
    f: F,
) -> (Vec<U>, F)
    requires count { len ≡ row.now.row.len }
    requires callable { CallableOnAllAt gives F.FnMut (row_items row.now) f }
    requires room { vec_len made + row.now.row.len ≤ vec_capacity made }
    ensures pushed { HasPushed (λ p x y q. CalledAt F.FnMut p x y q) f
        (row_items row.now) made.items result.0.items result.1 }
    ensures len { vec_len result.0 ≡ vec_len made + row.now.row.len }
    ensures capacity { vec_capacity result.0 ≡ vec_capacity made }
{
    let (mut made, mut f) = (made, f);
    for coordinate in 0..len {
        made.push_reserved(f(row.item(coordinate)));
    }
    (made, f)
}

/// Appends what a closure makes of each item of a row to a list with room for it, item by item, and hands the closure back.
#[inline(always)]
fn push_apart<T, U: Drop, F: FnMut(&T) -> U>(
    made: Vec<U>,
    row: &LentRow<'_, T>,
    f: F,
) -> (Vec<U>, F)
    requires callable { CallableOnAllAt gives F.FnMut (row_items row.now) f }
    requires room { vec_len made + row.now.row.len ≤ vec_capacity made }
    ensures pushed { HasPushed (λ p x y q. CalledAt F.FnMut p x y q) f
        (row_items row.now) made.items result.0.items result.1 }
    ensures len { vec_len result.0 ≡ vec_len made + row.now.row.len }
    ensures capacity { vec_capacity result.0 ≡ vec_capacity made }
{
    let (mut made, mut f) = (made, f);
    // (the room is enough: so rustc sees that no item needs a check of it)
    let end = made.capacity().min(made.len() + row.len());
    let mut coordinate = 0;
    while made.len() < end {
        made.push_reserved(f(row.item(coordinate)));
        coordinate += 1;
    }
    (made, f)
}

/// Appends what a closure makes of each item of a row that don't follow one another to a list with room for it, and hands the closure
/// back. It stays a call, so that a loop over rows is short.
#[inline(never)]
fn push_turned<T, U: Drop, F: FnMut(&T) -> U>(
    made: Vec<U>,
    row: &LentRow<'_, T>,
    f: F,
) -> (Vec<U>, F)
    requires callable { CallableOnAllAt gives F.FnMut (row_items row.now) f }
    requires room { vec_len made + row.now.row.len ≤ vec_capacity made }
    ensures pushed { HasPushed (λ p x y q. CalledAt F.FnMut p x y q) f
        (row_items row.now) made.items result.0.items result.1 }
    ensures len { vec_len result.0 ≡ vec_len made + row.now.row.len }
    ensures capacity { vec_capacity result.0 ≡ vec_capacity made }
{
    match row.as_slice_backwards() {
        Some(items) => push_backwards(made, items, f),
        None => match lent_by_stride(row, 2) {
            Some(row) => push_apart(made, &row, f),
            None => push_apart(made, row, f),
        },
    }
}

/// Appends what a closure makes of each item of a row, of `few` unless that is 0, to a list with room for it, and hands the closure
/// back.
#[inline(always)]
fn push_row<T, U: Drop, F: FnMut(&T) -> U>(
    made: Vec<U>,
    row: &LentRow<'_, T>,
    few: usize,
    f: F,
) -> (Vec<U>, F)
    requires few { 0 < few → few ≡ row.now.row.len }
    requires callable { CallableOnAllAt gives F.FnMut (row_items row.now) f }
    requires room { vec_len made + row.now.row.len ≤ vec_capacity made }
    ensures pushed { HasPushed (λ p x y q. CalledAt F.FnMut p x y q) f
        (row_items row.now) made.items result.0.items result.1 }
    ensures len { vec_len result.0 ≡ vec_len made + row.now.row.len }
    ensures capacity { vec_capacity result.0 ≡ vec_capacity made }
{
    if few > 0 {
        return push_few(made, row, few, f);
    }
    match row.as_slice() {
        Some(items) => push_slice(made, items, f),
        None => push_turned(made, row, f),
    }
}

/// Appends what a closure makes of each item of rows, of `few` each unless that is 0, to a list with room for it.
#[inline(always)]
fn push_each<T, U: Drop, F: FnMut(&T) -> U>(
    made: Vec<U>,
    rows: LentRows<'_, T>,
    few: usize,
    f: F,
) -> Vec<U>
    requires few { 0 < few → All (λ row. few ≡ row.row.len) rows }
    requires callable { CallableOnAllAt gives F.FnMut (rows_items rows) f }
    requires room { vec_len made + length (rows_items rows) ≤ vec_capacity made }
    ensures { (last : F) × HasPushed (λ p x y q. CalledAt F.FnMut p x y q) f
        (rows_items rows.entry) made.items result.items last }
{
    let (mut made, mut f) = (made, f);
    for row in rows {
        (made, f) = push_row(made, &row, few, f);
    }
    made
}

/// Appends what a closure makes of each item of rows to a list with room for it, one row after another.
#[inline(always)]
pub fn push_rows<T, U: Drop, F: FnMut(&T) -> U>(made: Vec<U>, rows: LentRows<'_, T>, f: F) -> Vec<U>
    requires callable { CallableOnAllAt gives F.FnMut (rows_items rows) f }
    requires room { vec_len made + length (rows_items rows) ≤ vec_capacity made }
    ensures { (last : F) × HasPushed (λ p x y q. CalledAt F.FnMut p x y q) f
        (rows_items rows.entry) made.items result.items last }
{
    match rows.row_len() {
        2 => push_each(made, rows, 2, f),
        3 => push_each(made, rows, 3, f),
        4 => push_each(made, rows, 4, f),
        _ => push_each(made, rows, 0, f),
    }
}
