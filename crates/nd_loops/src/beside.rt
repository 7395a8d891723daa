//! Arrays beside another one of their shape, whose items are read while a closure is called at its items: none, one, or two of these.
ghost use Rattle.std.specs.List.{All, AllZip, flat_map};
ghost use Rattle.std.specs.Option.{option_zip};
ghost use Rattle.std.specs.Prelude.{◌≡◌, ◌↔◌, ◌<◌, ◌≤◌, ◌∷◌, ◌++◌, [], ℕ, IfSome, IsTrue, List, MatchOption, None, Option, Some, length, map, slice_index, slice_index_or, zip};
ghost use Rattle.ndarray_layout.specs.declared.Order.TheVariants.{RowMajor};
ghost use Rattle.ndarray_layout.specs.declared.Row.{Row};
ghost use Rattle.ndarray_layout.specs.Bounds.{IsInBounds};
ghost use Rattle.ndarray_layout.specs.Indices.{indices_in};
ghost use Rattle.ndarray_layout.specs.JoinedInAll.{IsJoined, row_lens};
ghost use Rattle.ndarray_layout.specs.Rows.{rows_places};
ghost use Rattle.ndarray_layout.specs.Signed.{all_signed};
ghost use Rattle.ndarray_layout.specs.Size.{size};
ghost use Rattle.ndarray_layout.specs.ValidLayout.{IsValidLayout};
ghost use Rattle.ndarray_layout.specs.View.{IsView, view_places};
ghost use Rattle.nd_access.specs.Items.{item_at};
ghost use Rattle.nd_access.specs.LentRow.{RowValue, places_of, row_items};
ghost use Rattle.nd_access.specs.Read.{HaveMarks};
ghost use Rattle.nd_access.specs.Zipped.{pairs_of};
ghost use Rattle.nd_loops.specs.Beside.{nothing_beside};
ghost use Rattle.nd_loops.specs.LentLayout.{array_of_lent};

use nd_access::{LentRow, LentRows, Reader};
use ndarray_layout::{Lengths, Order, Row, Strided, rows_along};
use std::marker::Model;

/// Arrays that stand beside another one of their shape, to be read.
pub trait Beside: Sized + Drop {
    /// What is shown beside an item.
    type Item;

    /// What stands beside the rows of that one.
    type Rows: Drop;

    /// And beside the items of one of them.
    type One: Drop;

    // What a contract sees of what is shown.
    ghost Value: { Type 0 };

    ghost value: { Self.Item → Value };

    // Whether each array has this shape.
    ghost have_shape: { Self → List ℕ → Type 0 };

    // What stands beside the item of an index.
    ghost at: { Self → List ℕ → Option Value };

    // The strides of each array.
    ghost layouts: { Self → List (List ℕ) };

    // What stands beside each of these rows.
    ghost ones: { Self.Rows → List Row → List Self.One };

    // The values beside the items of a row, in its order.
    ghost values: { Self.One → List (Option Value) };

    /// Whether each array has this shape.
    fn have_shape(&self, lens: &[usize]) -> bool
        ensures { IsTrue result ↔ have_shape self.now lens.now };

    /// How many arrays they are.
    fn count(&self) -> usize
        requires { length (layouts self.now) ≤ 5 }
        ensures count { result ≡ length (layouts self.now) }
        ensures valid { (lens : List ℕ) → have_shape self.now lens
            → All (λ strides. IsValidLayout lens (all_signed strides)) (layouts self.now) };

    /// The stride of an axis of the array of a number; any number where there is no such axis.
    fn stride(&self, number: usize, axis: usize) -> usize
        requires { length (layouts self.now) ≤ 5 }
        ensures { axis < length (slice_index_or (layouts self.now) number []) →
            result ≡ slice_index (slice_index_or (layouts self.now) number []) axis };

    /// The rows along joined axes, of which `along` has the stride in each array (`joined_in_each`).
    fn into_rows(self, lens: &[usize], joined: (usize, usize), along: &[usize]) -> Self::Rows
        requires few { length (layouts self) ≤ 5 }
        requires count { length along.now ≡ length (layouts self) }
        requires shape { have_shape self lens.now }
        requires axes { joined.0 ≤ length lens.now }
        requires joined { (number : ℕ) → number < length (layouts self) → IsJoined RowMajor lens.now
            (slice_index_or (layouts self) number []) joined.0 joined.1 (slice_index along.now number) }
        ensures count { (rows : List Row) → map (λ row. row.len) rows ≡ row_lens RowMajor lens.now joined.0 joined.1
            → AllZip (λ row one. length (values one) ≡ row.len) rows (ones result rows) }
        ensures values { (rows : List Row) → map (λ row. row.len) rows ≡ row_lens RowMajor lens.now joined.0 joined.1
            → length (rows_places rows) ≡ size lens.now
            → flat_map values (ones result rows) ≡ map (at self) (indices_in RowMajor lens.now) };

    /// What stands beside the next row.
    fn next_beside(rows: &mut Self::Rows, row: Row) -> Option<Self::One>
        ensures { (others : List Row) → MatchOption result (ones rows.old (row ∷ others) ≡ [])
            (λ one. ones rows.old (row ∷ others) ≡ one ∷ ones rows.new others) };

    /// What stands beside the item of a coordinate. The caller ensures that it is one of the row.
    fn item(one: &Self::One, coordinate: usize) -> Self::Item
        requires { coordinate < length (values one.now) }
        ensures { slice_index_or (values one.now) coordinate None ≡ Some (value result) };

    /// The same as slices, where the items follow one another; else `None`.
    fn alone(one: &Self::One) -> Option<Self::One>
        ensures { IfSome result (λ row. values row ≡ values one.now) };

    /// The same by the stride -1 as a number that rustc knows, where that is the stride; else `None`.
    fn backwards(one: &Self::One) -> Option<Self::One>
        ensures { IfSome result (λ row. row ≡ one.now) };
}

/// The number of an axis.
#[inline(always)]
pub(crate) fn number_at(numbers: &[usize], axis: usize) -> usize
    requires { axis < length numbers.now }
    ensures { result ≡ slice_index numbers.now axis }
{
    numbers[axis]
}

/// The number of an axis; 0 where there is no such axis.
#[inline(always)]
fn number_or_zero(numbers: &[usize], axis: usize) -> usize
    ensures { axis < length numbers.now → result ≡ slice_index numbers.now axis }
{
    if axis < numbers.len() {
        numbers[axis]
    } else {
        0
    }
}

/// A row by the stride -1 as a number that rustc knows, where that is its stride; else `None`.
#[inline(always)]
pub(crate) fn back(row: Row) -> Option<Row>
    ensures { IfSome result (λ known. known ≡ row) }
{
    if row.stride != -1 {
        return None;
    }
    Some(Row {
        start: row.start,
        stride: -1,
        len: row.len,
    })
}

/// Nothing beside the items of a row.
#[derive(Drop)]
pub struct Nothing {
    row: Row,
}

impl Beside for () {
    type Item = ();

    type Rows = ();

    type One = Nothing;

    ghost Value = { Unit {0} };

    ghost value = { λ item. tt };

    ghost have_shape = { λ nothing lens. Unit {0} };

    ghost at = { λ nothing index. Some tt };

    ghost layouts = { λ nothing. [] };

    ghost ones = { λ nothing rows. map (λ row. record { row = row }) rows };

    ghost values = { λ nothing. nothing_beside (places_of nothing.row) };

    #[inline(always)]
    fn have_shape(&self, _lens: &[usize]) -> bool {
        true
    }

    #[inline(always)]
    fn count(&self) -> usize {
        0
    }

    #[inline(always)]
    fn stride(&self, _number: usize, _axis: usize) -> usize {
        0
    }

    #[inline(always)]
    fn into_rows(self, _lens: &[usize], _joined: (usize, usize), _along: &[usize]) {}

    #[inline(always)]
    fn next_beside(_rows: &mut (), row: Row) -> Option<Nothing> {
        Some(Nothing { row })
    }

    #[inline(always)]
    fn item(_one: &Nothing, _coordinate: usize) {}

    #[inline(always)]
    fn alone(one: &Nothing) -> Option<Nothing> {
        Some(Nothing { row: one.row })
    }

    #[inline(always)]
    fn backwards(one: &Nothing) -> Option<Nothing> {
        Some(Nothing { row: one.row })
    }
}

/// An array whose items are lent to be read beside those of another one, with its lengths and strides as lists.
#[derive(Drop)]
pub struct LentView<'a, U> {
    pub reader: Reader<'a, U>,
    pub start: usize,
    pub lens: &'a [usize],
    pub strides: &'a [usize],
}

impl<'a, U> Model for LentView<'a, U> {
    ghost use Rattle.std.specs.Prelude.{length};
    ghost use Rattle.ndarray_layout.specs.View.{view_of};
    ghost use Rattle.nd_access.specs.Read.{IsRead};
    ghost use Rattle.nd_loops.specs.LentLayout.{LentLayout};

    ghost Value = { LentLayout U };

    ghost view = { λ lent. record {
      items = lent.reader.items;
      start = lent.start;
      lens = lent.lens.now;
      strides = lent.strides.now;
    } };

    ghost invariant = { λ lent. IsRead lent.reader.marks (length lent.reader.items)
        (view_of lent.start lent.lens.now lent.strides.now) };
}

/// The array of these items and this view, to be read beside another one.
#[inline(always)]
pub fn lent_view<'a, U, D: Lengths>(reader: Reader<'a, U>, view: &'a Strided<D>) -> LentView<'a, U>
    requires is_view { IsView view.now }
    requires items { All (IsInBounds (length reader.items)) (view_places RowMajor view.now) }
    requires marked { HaveMarks reader.marks (view_places RowMajor view.now) }
    ensures lens { result.lens ≡ view.now.shape }
    ensures array { array_of_lent result ≡ record { items = reader.entry.items; view = view.now } }
{
    LentView {
        reader,
        start: view.start(),
        lens: view.dim().slice(),
        strides: view.strides().slice(),
    }
}

impl<'a, U> Beside for LentView<'a, U> {
    type Item = &'a U;

    type Rows = LentRows<'a, U>;

    type One = LentRow<'a, U>;

    ghost Value = { U };

    ghost value = { λ item. item.now };

    ghost have_shape = { λ lent lens. lens ≡ lent.lens };

    ghost at = { λ lent. item_at (array_of_lent lent) };

    ghost layouts = { λ lent. lent.strides ∷ [] };

    ghost ones = { λ sources rows. sources };

    ghost values = { row_items };

    #[inline(always)]
    fn have_shape(&self, lens: &[usize]) -> bool {
        lens == self.lens
    }

    #[inline(always)]
    fn count(&self) -> usize {
        // (read, so that its invariant is known)
        let _lens = self.lens;
        1
    }

    #[inline(always)]
    fn stride(&self, _number: usize, axis: usize) -> usize {
        number_or_zero(self.strides, axis)
    }

    #[inline(always)]
    fn into_rows(
        self,
        _lens: &[usize],
        joined: (usize, usize),
        along: &[usize],
    ) -> LentRows<'a, U> {
        let LentView {
            reader,
            start,
            lens,
            strides,
        } = self;
        let rows = rows_along(
            Order::RowMajor,
            start,
            lens,
            strides,
            joined,
            number_at(along, 0),
        );
        LentRows::new(reader, rows)
    }

    #[inline(always)]
    fn next_beside(rows: &mut LentRows<'a, U>, _row: Row) -> Option<LentRow<'a, U>> {
        rows.next()
    }

    #[inline(always)]
    fn item(one: &LentRow<'a, U>, coordinate: usize) -> &'a U {
        one.item(coordinate)
    }

    #[inline(always)]
    fn alone(one: &LentRow<'a, U>) -> Option<LentRow<'a, U>> {
        one.alone()
    }

    #[inline(always)]
    fn backwards(one: &LentRow<'a, U>) -> Option<LentRow<'a, U>> {
        let row = back(one.row)?;
        Some(LentRow {
            reader: one.reader.copied(),
            row,
        })
    }
}

impl<A: Beside, B: Beside> Beside for (A, B) {
    type Item = (A::Item, B::Item);

    type Rows = (A::Rows, B::Rows);

    type One = (A::One, B::One);

    ghost Value = { A.Value × B.Value };

    ghost value = { λ item. (A.value item.0, B.value item.1) };

    ghost have_shape = { λ both lens. A.have_shape both.0 lens × B.have_shape both.1 lens };

    ghost at = { λ both index. option_zip (A.at both.0 index) (B.at both.1 index) };

    ghost layouts = { λ both. A.layouts both.0 ++ B.layouts both.1 };

    ghost ones = { λ both rows. zip (A.ones both.0 rows) (B.ones both.1 rows) };

    ghost values = { λ both. pairs_of (A.values both.0) (B.values both.1) };

    #[inline(always)]
    fn have_shape(&self, lens: &[usize]) -> bool {
        self.0.have_shape(lens) && self.1.have_shape(lens)
    }

    #[inline(always)]
    fn count(&self) -> usize {
        self.0.count() + self.1.count()
    }

    #[inline(always)]
    fn stride(&self, number: usize, axis: usize) -> usize {
        let first = self.0.count();
        if number < first {
            return self.0.stride(number, axis);
        }
        self.1.stride(number - first, axis)
    }

    #[inline(always)]
    fn into_rows(
        self,
        lens: &[usize],
        joined: (usize, usize),
        along: &[usize],
    ) -> (A::Rows, B::Rows) {
        let (first, second) = self;
        let (these, others) = along.split_at(first.count());
        let first = first.into_rows(lens, joined, these);
        (first, second.into_rows(lens, joined, others))
    }

    #[inline(always)]
    fn next_beside(rows: &mut (A::Rows, B::Rows), row: Row) -> Option<(A::One, B::One)> {
        let first = A::next_beside(&mut rows.0, row)?;
        Some((first, B::next_beside(&mut rows.1, row)?))
    }

    #[inline(always)]
    fn item(one: &(A::One, B::One), coordinate: usize) -> (A::Item, B::Item) {
        (A::item(&one.0, coordinate), B::item(&one.1, coordinate))
    }

    #[inline(always)]
    fn alone(one: &(A::One, B::One)) -> Option<(A::One, B::One)> {
        let first = A::alone(&one.0)?;
        Some((first, B::alone(&one.1)?))
    }

    #[inline(always)]
    fn backwards(one: &(A::One, B::One)) -> Option<(A::One, B::One)> {
        let first = A::backwards(&one.0)?;
        Some((first, B::backwards(&one.1)?))
    }
}
