//! The length of the last axis.
ghost use Rattle.std.specs.Prelude.{◌≡◌, ◌-◌, ◌<◌, length, slice_set};
ghost use Rattle.nd_dim.specs.LastLen.{last_len as last_of_lengths};

/// The length of the last axis, or 0 where there is none.
pub(crate) fn last_len(lens: &[usize]) -> usize
    ensures { result ≡ last_of_lengths lens.now }
{
    lens.last().copied().unwrap_or(0)
}

/// Gives the last axis another length.
pub(crate) fn set_last_len(lens: &mut [usize], len: usize)
    requires { 0 < length lens.old }
    ensures { lens.new ≡ slice_set lens.old (length lens.old - 1) len }
{
    let last = lens.len() - 1;
    lens[last] = len;
}
