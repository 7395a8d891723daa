//! What the operators of every dimension type do: arithmetic of lists, number by number.
ghost use Rattle.std.specs.Prelude.{◌≡◌, ℕ};
ghost use Rattle.nd_base.specs.Elementwise.{sums, differences, products, scaled, SumsFit, DifferencesFit, ProductsFit, ScaledFit};

use crate::dim::Dim;
use crate::lengths::Lengths;
use crate::numbers::AreLengths;
use std::ops::{Add, AddAssign, Mul, MulAssign, Sub, SubAssign};

/// Lists of lengths that are added, subtracted and multiplied coordinate by coordinate. The
/// operators that ndarray's `Dimension` asks for.
pub trait Arithmetic: Lengths
    + Add<Output = Self>
    + Sub<Output = Self>
    + Mul<Output = Self>
    + AddAssign
    + SubAssign
    + MulAssign {
    // Lists of one count are added where the sums fit,
    ghost can_add_fitting: { (d e : Self) → SumsFit (Self.list d) (Self.list e)
        → Self.can_add d e };

    // and the result is the list of sums.
    ghost add_gives_sums: { (d e r : Self) → Self.add_gives d e r
        → Self.list r ≡ sums (Self.list d) (Self.list e) };

    ghost can_add_assign_fitting: { (d e : Self) → SumsFit (Self.list d) (Self.list e)
        → Self.can_add_assign d e };

    ghost add_assign_gives_sums: { (d e r : Self) → Self.add_assign_gives d e r
        → Self.list r ≡ sums (Self.list d) (Self.list e) };

    // Lists of one count are subtracted where no difference is below 0,
    ghost can_sub_fitting: { (d e : Self) → DifferencesFit (Self.list d) (Self.list e)
        → Self.can_sub d e };

    ghost sub_gives_differences: { (d e r : Self) → Self.sub_gives d e r
        → Self.list r ≡ differences (Self.list d) (Self.list e) };

    ghost can_sub_assign_fitting: { (d e : Self) → DifferencesFit (Self.list d) (Self.list e)
        → Self.can_sub_assign d e };

    ghost sub_assign_gives_differences: { (d e r : Self) → Self.sub_assign_gives d e r
        → Self.list r ≡ differences (Self.list d) (Self.list e) };

    // Lists of one count are multiplied where the products fit,
    ghost can_mul_fitting: { (d e : Self) → ProductsFit (Self.list d) (Self.list e)
        → Self.can_mul d e };

    ghost mul_gives_products: { (d e r : Self) → Self.mul_gives d e r
        → Self.list r ≡ products (Self.list d) (Self.list e) };

    ghost can_mul_assign_fitting: { (d e : Self) → ProductsFit (Self.list d) (Self.list e)
        → Self.can_mul_assign d e };

    ghost mul_assign_gives_products: { (d e r : Self) → Self.mul_assign_gives d e r
        → Self.list r ≡ products (Self.list d) (Self.list e) };
}

/// Lists of lengths that one factor scales. The operators with a number that ndarray's
/// `Dimension` asks for.
pub trait Scale: Lengths + Mul<usize, Output = Self> + MulAssign<usize> {
    ghost can_mul_scaling: { (d : Self) (factor : ℕ) → ScaledFit (Self.list d) factor
        → Self.can_mul d factor };

    ghost mul_gives_scaled: { (d : Self) (factor : ℕ) (r : Self) → Self.mul_gives d factor r
        → Self.list r ≡ scaled (Self.list d) factor };

    ghost can_mul_assign_scaling: { (d : Self) (factor : ℕ) → ScaledFit (Self.list d) factor
        → Self.can_mul_assign d factor };

    ghost mul_assign_gives_scaled: { (d : Self) (factor : ℕ) (r : Self)
        → Self.mul_assign_gives d factor r → Self.list r ≡ scaled (Self.list d) factor };
}

impl<I: AreLengths> Arithmetic for Dim<I>
where
    Dim<I>: Lengths,
{
    ghost can_add_fitting = { rw I.list_is_kept (λ d e h. h) };

    ghost add_gives_sums = { rw I.list_is_kept (λ d e r h. h) };

    ghost can_add_assign_fitting = { rw I.list_is_kept (λ d e h. h) };

    ghost add_assign_gives_sums = { rw I.list_is_kept (λ d e r h. h) };

    ghost can_sub_fitting = { rw I.list_is_kept (λ d e h. h) };

    ghost sub_gives_differences = { rw I.list_is_kept (λ d e r h. h) };

    ghost can_sub_assign_fitting = { rw I.list_is_kept (λ d e h. h) };

    ghost sub_assign_gives_differences = { rw I.list_is_kept (λ d e r h. h) };

    ghost can_mul_fitting = { rw I.list_is_kept (λ d e h. h) };

    ghost mul_gives_products = { rw I.list_is_kept (λ d e r h. h) };

    ghost can_mul_assign_fitting = { rw I.list_is_kept (λ d e h. h) };

    ghost mul_assign_gives_products = { rw I.list_is_kept (λ d e r h. h) };
}

impl<I: AreLengths> Scale for Dim<I>
where
    Dim<I>: Lengths,
{
    ghost can_mul_scaling = { rw I.list_is_kept (λ d factor h. h) };

    ghost mul_gives_scaled = { rw I.list_is_kept (λ d factor r h. h) };

    ghost can_mul_assign_scaling = { rw I.list_is_kept (λ d factor h. h) };

    ghost mul_assign_gives_scaled = { rw I.list_is_kept (λ d factor r h. h) };
}
