//! Pictures in grey.
use std::marker::Model;

/// How many rows and columns a picture has.
#[derive(Clone, Copy, Debug, PartialEq, Eq)]
pub struct Extent {
    /// How many rows.
    pub rows: u32,
    /// How many columns.
    pub columns: u32,
}

impl Extent {
    ghost use Rattle.std.specs.Prelude.{◌≡◌};
    ghost use Rattle.example_tiles_edits.specs.Picture.{pixel_count};

    /// How many pixels a picture of this extent has.
    pub(crate) fn pixel_count(self) -> usize
        ensures { result ≡ pixel_count self }
    {
        self.rows as usize * self.columns as usize
    }
}

/// A picture: its pixels row by row, from 0 for black up to a value for white.
#[derive(Debug, Drop)]
pub struct Picture {
    pub(crate) extent: Extent,
    pub(crate) white: u8,
    pub(crate) pixels: Vec<u8>,
}

impl Model for Picture {
    ghost use Rattle.std.specs.Prelude.{◌≡◌, length};
    ghost use Rattle.example_tiles_edits.specs.Picture.{Image, pixel_count};

    ghost Value = { Image };

    ghost view = { λ p. record { extent = p.extent; white = p.white; pixels = p.pixels.items } };

    ghost invariant = { λ p. length p.pixels.items ≡ pixel_count p.extent };
}
