//! The version of the library.
ghost use Rattle.std.specs.Prelude.{◌≡◌};
ghost use Rattle.ndarray_layout_c.specs.Statuses.{ok};
ghost use Rattle.ndarray_layout_c.specs.Version.{version};

use crate::statuses::OK;

/// Writes the three numbers of the library's version.
#[unsafe(no_mangle)]
pub extern "C" fn nd_version(major: &mut i32, minor: &mut i32, patch: &mut i32) -> i32
    ensures status { result ≡ ok }
    ensures version { (major.new, minor.new, patch.new) ≡ version }
{
    *major = 0;
    *minor = 1;
    *patch = 0;
    OK
}
