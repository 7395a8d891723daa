//! In which orders a layout can be iterated over.
ghost use Rattle.std.specs.Prelude.{◌≡◌, ◌≢◌, ◌<◌, ◌↔◌, pos, ◌≤ℤ◌, IsTrue, bit_and, bit_or};
ghost use Rattle.nd_shape.specs.Layout.{flag_at, tendency as tendency_of_bits};

use std::marker::Model;

mod layoutfmt;

/// In which orders the indices of a layout lie one after another, and which order is better to
/// iterate in: a set of bits. ndarray's `Layout`.
#[derive(Clone, Copy)]
pub struct Layout {
    bits: u32,
}

impl Model for Layout {
    ghost use Rattle.std.specs.Prelude.{ℕ, ◌<◌};

    ghost Value = { ℕ };

    ghost view = { λ layout. layout.bits };

    ghost inverse = { λ bits. record { bits = bits } };

    ghost invariant = { λ layout. layout.bits < 16 };
}

impl Layout {
    /// The bit of a row-major layout.
    pub const CORDER: u32 = 0b01;

    /// The bit of a column-major layout.
    pub const FORDER: u32 = 0b10;

    /// The bit of a layout for which row-major order is better.
    pub const CPREFER: u32 = 0b0100;

    /// The bit of a layout for which column-major order is better.
    pub const FPREFER: u32 = 0b1000;

    /// Whether some bit of `flag` is set. ndarray's `is`.
    #[inline(always)]
    pub fn is(self, flag: u32) -> bool
        ensures { IsTrue result ↔ (bit_and self flag ≢ 0) }
    {
        self.bits & flag != 0
    }

    /// The bits that are set in both. ndarray's `intersect`.
    #[inline(always)]
    pub fn intersect(self, other: Layout) -> Layout
        ensures { result ≡ bit_and self other }
    {
        Layout {
            bits: self.bits & other.bits,
        }
    }

    /// The bits that are set in either. ndarray's `also`.
    #[inline(always)]
    pub fn also(self, other: Layout) -> Layout
        ensures { result ≡ bit_or self other }
    {
        Layout {
            bits: self.bits | other.bits,
        }
    }

    /// The layout with at most one axis of length greater than 1: both orders, all bits. ndarray's
    /// `one_dimensional`.
    #[inline(always)]
    pub fn one_dimensional() -> Layout
        ensures { result ≡ 15 }
    {
        Layout::c().also(Layout::f())
    }

    /// The row-major layout. ndarray's `c`.
    #[inline(always)]
    pub fn c() -> Layout
        ensures { result ≡ 5 }
    {
        Layout {
            bits: Layout::CORDER | Layout::CPREFER,
        }
    }

    /// The column-major layout. ndarray's `f`.
    #[inline(always)]
    pub fn f() -> Layout
        ensures { result ≡ 10 }
    {
        Layout {
            bits: Layout::FORDER | Layout::FPREFER,
        }
    }

    /// The layout in neither order for which row-major order is better. ndarray's `cpref`.
    #[inline(always)]
    pub fn cpref() -> Layout
        ensures { result ≡ 4 }
    {
        Layout {
            bits: Layout::CPREFER,
        }
    }

    /// The layout in neither order for which column-major order is better. ndarray's `fpref`.
    #[inline(always)]
    pub fn fpref() -> Layout
        ensures { result ≡ 8 }
    {
        Layout {
            bits: Layout::FPREFER,
        }
    }

    /// The layout in neither order, of which neither is better. ndarray's `none`.
    #[inline(always)]
    pub fn none() -> Layout
        ensures { result ≡ 0 }
    {
        Layout { bits: 0 }
    }

    /// From -2 to 2: above 0 where row-major order is better, below 0 where column-major order is.
    /// ndarray's `tendency`.
    #[inline]
    pub fn tendency(self) -> i32
        ensures { result ≡ tendency_of_bits self }
    {
        (self.flag_at(Layout::CORDER) - self.flag_at(Layout::FORDER))
            + (self.flag_at(Layout::CPREFER) - self.flag_at(Layout::FPREFER))
    }

    /// 1 where some bit of `flag` is set, or else 0.
    #[inline(always)]
    fn flag_at(self, flag: u32) -> i32
        ensures value { result ≡ flag_at self flag }
        ensures least { pos 0 ≤ℤ result }
        ensures greatest { result ≤ℤ pos 1 }
    {
        if self.is(flag) { 1 } else { 0 }
    }
}
