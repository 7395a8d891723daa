//! Lists of lengths with an axis more.
ghost use Rattle.std.specs.Prelude.{◌≡◌, ◌+◌, ◌≤◌, length, insert};

/// Writes the lengths with an axis of length 1 before the axis `axis`, or after all of them.
pub(crate) fn insert_axis_into(lens: &[usize], axis: usize, larger: &mut [usize])
    requires within { axis ≤ length lens.now }
    requires one_more { length larger.old ≡ length lens.now + 1 }
    ensures { larger.new ≡ insert lens.now axis 1 }
{
    larger[..axis].copy_from_slice(&lens[..axis]);
    larger[axis] = 1;
    larger[axis + 1..].copy_from_slice(&lens[axis..]);
}
