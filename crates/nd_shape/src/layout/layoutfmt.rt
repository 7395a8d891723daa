//! What a `Layout` prints.
ghost use Rattle.std.specs.Prelude.{◌≡◌, ◌<◌, Some};
ghost use Rattle.nd_shape.specs.Layout.{layout_text};

use crate::layout::Layout;
use std::fmt;

/// The letters of the bits that are set, or a word where none is, and the bits as a number.
fn text_of(bits: u32) -> &'static str
    requires { bits < 16 }
    ensures { result.now ≡ layout_text bits }
{
    match bits {
        0 => "Custom (0x0)",
        1 => "C (0x1)",
        2 => "F (0x2)",
        3 => "CF (0x3)",
        4 => "c (0x4)",
        5 => "Cc (0x5)",
        6 => "Fc (0x6)",
        7 => "CFc (0x7)",
        8 => "f (0x8)",
        9 => "Cf (0x9)",
        10 => "Ff (0xa)",
        11 => "CFf (0xb)",
        12 => "cf (0xc)",
        13 => "Ccf (0xd)",
        14 => "Fcf (0xe)",
        _ => "CFcf (0xf)",
    }
}

impl fmt::Debug for Layout {
    ghost debug_output = { λ layout. Some (layout_text layout) };

    fn fmt<W: fmt::Write>(&self, f: &mut fmt::Formatter<W>) -> fmt::Result {
        f.write_str(text_of(self.bits))
    }
}
