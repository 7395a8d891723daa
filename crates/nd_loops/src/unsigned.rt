//! Numbers without a sign, which are summed.
ghost use Rattle.std.specs.Prelude.{◌≡◌, ℕ};

/// An unsigned number of any of the widths. num_traits' `Unsigned`.
pub trait Unsigned: Copy {
    // The number.
    ghost number: { Self → ℕ };

    /// The number, by the greatest width. `3_u8` as a `u64`: 3. num_traits' `to_u64`.
    fn to_u64(self) -> u64
        ensures { result ≡ number self };
}

impl Unsigned for u8 {
    ghost number = { λ n. n };

    #[inline(always)]
    fn to_u64(self) -> u64 {
        u64::from(self)
    }
}

impl Unsigned for u16 {
    ghost number = { λ n. n };

    #[inline(always)]
    fn to_u64(self) -> u64 {
        u64::from(self)
    }
}

impl Unsigned for u32 {
    ghost number = { λ n. n };

    #[inline(always)]
    fn to_u64(self) -> u64 {
        u64::from(self)
    }
}

impl Unsigned for u64 {
    ghost number = { λ n. n };

    #[inline(always)]
    fn to_u64(self) -> u64 {
        self
    }
}

impl Unsigned for usize {
    ghost number = { λ n. n };

    #[inline(always)]
    fn to_u64(self) -> u64 {
        self as u64
    }
}
