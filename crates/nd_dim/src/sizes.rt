//! Products of lengths.
ghost use Rattle.std.specs.Prelude.{◌≡◌, ◌<◌, ◌^◌, SomeIff};
ghost use Rattle.nd_base.specs.Size.{size};

/// The product of the lengths, where it fits; 0 wherever one of them is 0.
pub(crate) fn checked_size(lens: &[usize]) -> Option<usize>
    ensures { SomeIff result (size lens.now < 2 ^ 64) (size lens.now) }
{
    if lens.contains(&0) {
        return Some(0);
    }
    let mut size = 1usize;
    for len in lens {
        size = size.checked_mul(*len)?;
    }
    Some(size)
}

/// The product of the lengths; 0 where one of them is 0.
///
/// The caller ensures that it is below 2^64.
///
/// Takes time in proportion to the count of lengths.
///
/// `[2,3]`: 6. What `Dimension::size` returns, of a list. The project's own.
pub fn product(lens: &[usize]) -> usize
    requires { size lens.now < 2 ^ 64 }
    ensures { result ≡ size lens.now }
{
    if lens.contains(&0) {
        return 0;
    }
    let mut size = 1usize;
    for len in lens {
        size *= *len;
    }
    size
}
