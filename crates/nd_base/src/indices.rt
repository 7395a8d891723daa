//! Which lists are indices of a shape.
ghost use Rattle.std.specs.Prelude.{◌≡◌};
ghost use Rattle.nd_base.specs.Indices.{is_index as is_index_of_shape};

/// Whether a list is an index of the shape: it has one coordinate for each axis, each below the
/// length of its axis.
///
/// `stride_offset_checked` returns `Some` if and only if this is true, and `next_for` and
/// `next_for_f` ask it of their callers.
///
/// Takes time in proportion to the count of axes.
///
/// (1,2) of `[2,3]`: true; (2,0): false. The project's own.
#[inline]
pub fn is_index(shape: &[usize], index: &[usize]) -> bool
    ensures { result ≡ is_index_of_shape shape.now index.now }
{
    shape.len() == index.len()
        && shape
            .iter()
            .zip(index)
            .all(|(len, coordinate)| coordinate < len)
}
