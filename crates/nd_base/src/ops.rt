//! The operators of dimensions. Their conditions rule out other counts and results that do not fit.
ghost use Rattle.std.specs.Prelude.{◌≡◌, ◌↔◌, [], ◌∷◌, replicate, IsTrue};
ghost use Rattle.nd_base.specs.Dim.{lengths, numbers_of};
ghost use Rattle.nd_base.specs.Elementwise.{sums, differences, products, scaled, SumsFit, DifferencesFit, ProductsFit, ScaledFit};

use crate::dim::{Dim, Ix1};
use crate::elementwise::{add_to, multiply_by, scale, subtract_from};
use crate::numbers::Numbers;
use std::ops::{Add, AddAssign, Mul, MulAssign, Sub, SubAssign};

impl<const N: usize> Dim<[usize; N]> {
    /// All lengths 0. ndarray's `zero`.
    pub fn zero() -> Self
        ensures { lengths result ≡ replicate N 0 }
    {
        Dim { index: [0; N] }
    }

    /// Whether all lengths are 0. ndarray's `is_zero`.
    pub fn is_zero(&self) -> bool
        ensures { IsTrue result ↔ (lengths self.now ≡ replicate N 0) }
    {
        self.index == [0; N]
    }
}

impl<I: Numbers> AddAssign<&Dim<I>> for Dim<I> {
    ghost can_add_assign = { λ dim others. SumsFit (I.list (numbers_of dim)) (I.list (numbers_of others.now)) };

    ghost add_assign_gives = { λ dim others result.
        I.list (numbers_of result) ≡ sums (I.list (numbers_of dim)) (I.list (numbers_of others.now)) };

    fn add_assign(&mut self, others: &Self) {
        add_to(self.index.slice_mut(), others.index.slice());
    }
}

impl<I: Numbers> AddAssign for Dim<I> {
    ghost can_add_assign = { λ dim others. SumsFit (I.list (numbers_of dim)) (I.list (numbers_of others)) };

    ghost add_assign_gives = { λ dim others result.
        I.list (numbers_of result) ≡ sums (I.list (numbers_of dim)) (I.list (numbers_of others)) };

    fn add_assign(&mut self, others: Self) {
        *self += &others;
    }
}

impl<I: Numbers> Add for Dim<I> {
    type Output = Self;

    ghost can_add = { λ dim others. SumsFit (I.list (numbers_of dim)) (I.list (numbers_of others)) };

    ghost add_gives = { λ dim others result.
        I.list (numbers_of result) ≡ sums (I.list (numbers_of dim)) (I.list (numbers_of others)) };

    fn add(mut self, others: Self) -> Self {
        self += &others;
        self
    }
}

impl<I: Numbers> SubAssign<&Dim<I>> for Dim<I> {
    ghost can_sub_assign = { λ dim others.
        DifferencesFit (I.list (numbers_of dim)) (I.list (numbers_of others.now)) };

    ghost sub_assign_gives = { λ dim others result.
        I.list (numbers_of result) ≡ differences (I.list (numbers_of dim)) (I.list (numbers_of others.now)) };

    fn sub_assign(&mut self, others: &Self) {
        subtract_from(self.index.slice_mut(), others.index.slice());
    }
}

impl<I: Numbers> SubAssign for Dim<I> {
    ghost can_sub_assign = { λ dim others.
        DifferencesFit (I.list (numbers_of dim)) (I.list (numbers_of others)) };

    ghost sub_assign_gives = { λ dim others result.
        I.list (numbers_of result) ≡ differences (I.list (numbers_of dim)) (I.list (numbers_of others)) };

    fn sub_assign(&mut self, others: Self) {
        *self -= &others;
    }
}

impl<I: Numbers> Sub for Dim<I> {
    type Output = Self;

    ghost can_sub = { λ dim others. DifferencesFit (I.list (numbers_of dim)) (I.list (numbers_of others)) };

    ghost sub_gives = { λ dim others result.
        I.list (numbers_of result) ≡ differences (I.list (numbers_of dim)) (I.list (numbers_of others)) };

    fn sub(mut self, others: Self) -> Self {
        self -= &others;
        self
    }
}

impl<I: Numbers> MulAssign<&Dim<I>> for Dim<I> {
    ghost can_mul_assign = { λ dim others.
        ProductsFit (I.list (numbers_of dim)) (I.list (numbers_of others.now)) };

    ghost mul_assign_gives = { λ dim others result.
        I.list (numbers_of result) ≡ products (I.list (numbers_of dim)) (I.list (numbers_of others.now)) };

    fn mul_assign(&mut self, others: &Self) {
        multiply_by(self.index.slice_mut(), others.index.slice());
    }
}

impl<I: Numbers> MulAssign for Dim<I> {
    ghost can_mul_assign = { λ dim others. ProductsFit (I.list (numbers_of dim)) (I.list (numbers_of others)) };

    ghost mul_assign_gives = { λ dim others result.
        I.list (numbers_of result) ≡ products (I.list (numbers_of dim)) (I.list (numbers_of others)) };

    fn mul_assign(&mut self, others: Self) {
        *self *= &others;
    }
}

impl<I: Numbers> Mul for Dim<I> {
    type Output = Self;

    ghost can_mul = { λ dim others. ProductsFit (I.list (numbers_of dim)) (I.list (numbers_of others)) };

    ghost mul_gives = { λ dim others result.
        I.list (numbers_of result) ≡ products (I.list (numbers_of dim)) (I.list (numbers_of others)) };

    fn mul(mut self, others: Self) -> Self {
        self *= &others;
        self
    }
}

impl<I: Numbers> MulAssign<usize> for Dim<I> {
    ghost can_mul_assign = { λ dim factor. ScaledFit (I.list (numbers_of dim)) factor };

    ghost mul_assign_gives = { λ dim factor result.
        I.list (numbers_of result) ≡ scaled (I.list (numbers_of dim)) factor };

    fn mul_assign(&mut self, factor: usize) {
        scale(self.index.slice_mut(), factor);
    }
}

impl<I: Numbers> Mul<usize> for Dim<I> {
    type Output = Self;

    ghost can_mul = { λ dim factor. ScaledFit (I.list (numbers_of dim)) factor };

    ghost mul_gives = { λ dim factor result.
        I.list (numbers_of result) ≡ scaled (I.list (numbers_of dim)) factor };

    fn mul(mut self, factor: usize) -> Self {
        self *= factor;
        self
    }
}

impl AddAssign<usize> for Ix1 {
    ghost can_add_assign = { λ dim len. SumsFit (lengths dim) (len ∷ []) };

    ghost add_assign_gives = { λ dim len result. lengths result ≡ sums (lengths dim) (len ∷ []) };

    fn add_assign(&mut self, len: usize) {
        add_to(&mut self.index, &[len]);
    }
}

impl Add<usize> for Ix1 {
    type Output = Self;

    ghost can_add = { λ dim len. SumsFit (lengths dim) (len ∷ []) };

    ghost add_gives = { λ dim len result. lengths result ≡ sums (lengths dim) (len ∷ []) };

    fn add(mut self, len: usize) -> Self {
        self += len;
        self
    }
}

impl SubAssign<usize> for Ix1 {
    ghost can_sub_assign = { λ dim len. DifferencesFit (lengths dim) (len ∷ []) };

    ghost sub_assign_gives = { λ dim len result.
        lengths result ≡ differences (lengths dim) (len ∷ []) };

    fn sub_assign(&mut self, len: usize) {
        subtract_from(&mut self.index, &[len]);
    }
}

impl Sub<usize> for Ix1 {
    type Output = Self;

    ghost can_sub = { λ dim len. DifferencesFit (lengths dim) (len ∷ []) };

    ghost sub_gives = { λ dim len result. lengths result ≡ differences (lengths dim) (len ∷ []) };

    fn sub(mut self, len: usize) -> Self {
        self -= len;
        self
    }
}
