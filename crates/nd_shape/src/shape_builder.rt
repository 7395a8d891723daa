//! Shapes with an order or with strides, and what they are built from.
ghost use Rattle.std.specs.Option.{IsSome, IfSome, option_map};
ghost use Rattle.std.specs.Prelude.{◌≡◌, ℕ, ◌<◌, ◌^◌, ◌↔◌, Bool, false, List, length, Option, Some, IsTrue, IsOk, IfOk, Ok, if◌then◌else◌};
ghost use Rattle.nd_base.specs.Memory.{NeedsNoMemory};
ghost use Rattle.nd_base.specs.Size.{size};
ghost use Rattle.nd_base.specs.declared.order.Order.{Order};
ghost use Rattle.nd_shape.specs.ShapeBuilder.{dim_of, order_of, custom_strides, strides_in, strides_list};

use nd_base::{Lengths, Order};
use nd_dim::{IntoDimension, default_strides, fortran_strides, product};
use std::alloc::{AllocError, Global};

/// A shape whose indices lie one after another, in one of the two orders. ndarray's `Shape`.
#[derive(Clone, Copy, Debug, Drop)]
pub struct Shape<D> {
    dim: D,
    order: Order,
}

/// A shape and its strides. ndarray's `StrideShape`.
#[derive(Clone, Copy, Debug, Drop)]
pub struct StrideShape<D> {
    /// The axis lengths.
    pub dim: D,
    /// The strides.
    pub strides: Strides<D>,
}

/// Which strides a shape has. ndarray's `Strides`.
#[derive(Clone, Copy, Debug, Drop)]
pub enum Strides<D> {
    /// Those of row-major order: the last axis moves fastest.
    C,
    /// Those of column-major order: the first axis moves fastest.
    F,
    /// Those that are given here.
    Custom(D),
}

impl<D: Lengths> Shape<D> {
    /// The number of indices.
    ///
    /// The caller ensures that the product of the lengths is less than 2^64
    /// (`size_of_shape_checked`).
    ///
    /// Takes time in proportion to the count of axes. ndarray's `size`.
    #[inline]
    pub fn size(&self) -> usize
        requires { size (D.list (dim_of self.now)) < 2 ^ 64 }
        ensures { result ≡ size (D.list (dim_of self.now)) }
    {
        product(self.dim.slice())
    }
}

impl<D> Shape<D> {
    /// The axis lengths. ndarray's `raw_dim`.
    #[inline]
    pub fn raw_dim(&self) -> &D
        ensures { result.now ≡ dim_of self.now }
    {
        &self.dim
    }

    /// Whether it is row-major: the last axis moves fastest. ndarray's `is_c`.
    #[inline]
    pub fn is_c(&self) -> bool
        ensures { IsTrue result ↔ (order_of self.now ≡ Order.RowMajor) }
    {
        self.order.is_row_major()
    }
}

impl<D: Lengths> From<D> for Shape<D> {
    ghost from_gives = { λ dim shape. (dim_of shape ≡ dim) × (order_of shape ≡ Order.RowMajor) };

    fn from(dim: D) -> Self {
        Shape {
            dim,
            order: Order::RowMajor,
        }
    }
}

impl<D> StrideShape<D> {
    /// The axis lengths. ndarray's `raw_dim`.
    #[inline]
    pub fn raw_dim(&self) -> &D
        ensures { result.now ≡ self.now.dim }
    {
        &self.dim
    }
}

impl<D: Lengths> StrideShape<D> {
    /// The shape that is built, with the strides of its order.
    ///
    /// # Errors
    ///
    /// Out of memory; never where the type fixes the count of axes or there are at most 4, nor from
    /// a `Shape`, a dimension, an `IxDynImpl` or a vector.
    ///
    /// In place of ndarray's `From<T> for StrideShape<D>`.
    pub fn from_builder<T: ShapeBuilder<Dim = D>>(
        alloc: Global,
        builder: T,
    ) -> Result<Self, AllocError>
        ensures dim { IfOk result (λ shape. D.list shape.dim ≡ T.built_lens builder) }
        ensures strides { IfOk result (λ shape.
            shape.strides ≡ strides_in (T.built_order builder)) }
        ensures memory { NeedsNoMemory D.NDIM (length (T.built_lens builder)) → IsOk result }
        ensures no_memory { T.build_needs_memory builder ≡ false → IsOk result }
    {
        let shape = builder.into_shape_with_order(alloc)?;
        let strides = if shape.is_c() { Strides::C } else { Strides::F };
        Ok(StrideShape {
            dim: shape.dim,
            strides,
        })
    }

    /// The number of indices.
    ///
    /// The caller ensures that the product of the lengths is less than 2^64
    /// (`size_of_shape_checked`).
    ///
    /// Takes time in proportion to the count of axes. ndarray's `size`.
    #[inline]
    pub fn size(&self) -> usize
        requires { size (D.list self.now.dim) < 2 ^ 64 }
        ensures { result ≡ size (D.list self.now.dim) }
    {
        product(self.dim.slice())
    }
}

impl<D> Strides<D> {
    /// The strides, in elements, of a shape of these lengths: those of its order, or the given
    /// ones.
    ///
    /// The caller ensures that the product of the lengths is less than 2^64
    /// (`size_of_shape_checked`), and that strides that are given are as many as the axes.
    ///
    /// # Errors
    ///
    /// Out of memory; never where the strides are given, the type fixes the count of axes or there
    /// are at most 4.
    ///
    /// Takes time in proportion to the count of axes.
    ///
    /// `Strides::F` for `[2,3]`: `[1,2]`. ndarray's `strides_for_dim`.
    pub fn strides_for_dim(self, alloc: Global, dim: &D) -> Result<D, AllocError>
    where
        D: Lengths,
        requires same_count { IfSome (custom_strides self)
            (λ strides. length (D.list strides) ≡ length (D.list dim.now)) }
        requires size_fits { size (D.list dim.now) < 2 ^ 64 }
        ensures list { IfOk result (λ strides.
            D.list strides ≡ strides_list D.list (D.list dim.now) self) }
        ensures given { IfSome (custom_strides self) (λ strides. result ≡ Ok strides) }
        ensures memory { NeedsNoMemory D.NDIM (length (D.list dim.now)) → IsOk result }
    {
        match self {
            Strides::C => default_strides(alloc, dim),
            Strides::F => fortran_strides(alloc, dim),
            Strides::Custom(strides) => Ok(strides),
        }
    }

    /// Whether the strides are given. ndarray's `is_custom`.
    #[inline]
    pub fn is_custom(&self) -> bool
        ensures { IsTrue result ↔ IsSome (custom_strides self.now) }
    {
        matches!(*self, Strides::Custom(_))
    }
}

/// What a shape with an order, or one with strides, can be built from. ndarray's `ShapeBuilder`.
pub trait ShapeBuilder {
    /// The dimension type of the shape.
    type Dim: Lengths;

    /// What strides are given by.
    type Strides;

    // The list of the shape,
    ghost built_lens: { Self → List ℕ };

    // its order,
    ghost built_order: { Self → Order };

    // the list of strides,
    ghost given_strides: { Self.Strides → List ℕ };

    // and whether memory is needed to make a dimension of the shape's list,
    ghost build_needs_memory: { Self → Bool };

    // or of that of the strides.
    ghost strides_need_memory: { Self.Strides → Bool };

    /// The shape with its order.
    ///
    /// # Errors
    ///
    /// Out of memory; never where the type fixes the count of axes or there are at most 4, nor from
    /// a `Shape`, a dimension, an `IxDynImpl` or a vector.
    ///
    /// ndarray's `into_shape_with_order`.
    fn into_shape_with_order(self, alloc: Global) -> Result<Shape<Self::Dim>, AllocError>
    where
        Self: Sized,
        ensures list { IfOk result (λ shape. Self.Dim.list (dim_of shape) ≡ built_lens self) }
        ensures order { IfOk result (λ shape. order_of shape ≡ built_order self) }
        ensures memory { NeedsNoMemory Self.Dim.NDIM (length (built_lens self)) → IsOk result }
        ensures no_memory { build_needs_memory self ≡ false → IsOk result };

    /// The shape in column-major order.
    ///
    /// # Errors
    ///
    /// Those of `into_shape_with_order`.
    ///
    /// ndarray's `f`.
    fn f(self, alloc: Global) -> Result<Shape<Self::Dim>, AllocError>
    where
        Self: Sized,
        ensures list { IfOk result (λ shape. Self.Dim.list (dim_of shape) ≡ built_lens self) }
        ensures order { IfOk result (λ shape. order_of shape ≡ Order.ColumnMajor) }
        ensures memory { NeedsNoMemory Self.Dim.NDIM (length (built_lens self)) → IsOk result }
        ensures no_memory { build_needs_memory self ≡ false → IsOk result }
    {
        self.set_f(alloc, true)
    }

    /// The shape in column-major order where `is_f` is true, and else in row-major order.
    ///
    /// # Errors
    ///
    /// Those of `into_shape_with_order`.
    ///
    /// ndarray's `set_f`.
    fn set_f(self, alloc: Global, is_f: bool) -> Result<Shape<Self::Dim>, AllocError>
    where
        Self: Sized,
        ensures list { IfOk result (λ shape. Self.Dim.list (dim_of shape) ≡ built_lens self) }
        ensures order { IfOk result (λ shape.
            order_of shape ≡ (if is_f then Order.ColumnMajor else Order.RowMajor)) }
        ensures memory { NeedsNoMemory Self.Dim.NDIM (length (built_lens self)) → IsOk result }
        ensures no_memory { build_needs_memory self ≡ false → IsOk result }
    {
        let mut shape = self.into_shape_with_order(alloc)?;
        shape.order = Order::column_major(is_f);
        Ok(shape)
    }

    /// The shape with these strides, in elements and with their sign (`signed`).
    ///
    /// # Errors
    ///
    /// Out of memory; never where the type fixes the count of axes, where there are at most 4 axes
    /// and at most 4 strides, nor where both are a `Shape`, a dimension, an `IxDynImpl` or a vector.
    ///
    /// ndarray's `strides`.
    fn strides(
        self,
        alloc: Global,
        strides: Self::Strides,
    ) -> Result<StrideShape<Self::Dim>, AllocError>
    where
        Self: Sized,
        ensures list { IfOk result (λ shape. Self.Dim.list shape.dim ≡ built_lens self) }
        ensures strides { IfOk result (λ shape.
            option_map Self.Dim.list (custom_strides shape.strides)
            ≡ Some (given_strides strides)) }
        ensures memory { NeedsNoMemory Self.Dim.NDIM (length (built_lens self))
            → NeedsNoMemory Self.Dim.NDIM (length (given_strides strides))
            → IsOk result }
        ensures no_memory { build_needs_memory self ≡ false
            → strides_need_memory strides ≡ false
            → IsOk result };
}

impl<T: IntoDimension> ShapeBuilder for T {
    type Dim = T::Dim;

    type Strides = T;

    ghost built_lens = { T.lens };

    ghost built_order = { λ _. Order.RowMajor };

    ghost given_strides = { T.lens };

    ghost build_needs_memory = { T.needs_memory };

    ghost strides_need_memory = { T.needs_memory };

    fn into_shape_with_order(self, alloc: Global) -> Result<Shape<T::Dim>, AllocError> {
        Ok(Shape {
            dim: self.into_dimension(alloc)?,
            order: Order::RowMajor,
        })
    }

    fn strides(self, alloc: Global, strides: T) -> Result<StrideShape<T::Dim>, AllocError> {
        let dim = self.into_dimension(alloc);
        let strides = strides.into_dimension(alloc);
        Ok(StrideShape {
            dim: dim?,
            strides: Strides::Custom(strides?),
        })
    }
}

impl<D: Lengths> ShapeBuilder for Shape<D> {
    type Dim = D;

    type Strides = D;

    ghost built_lens = { λ shape. D.list (dim_of shape) };

    ghost built_order = { order_of };

    ghost given_strides = { D.list };

    ghost build_needs_memory = { λ _. false };

    ghost strides_need_memory = { λ _. false };

    fn into_shape_with_order(self, _alloc: Global) -> Result<Self, AllocError>
        ensures { result ≡ Ok self }
    {
        Ok(self)
    }

    fn f(self, alloc: Global) -> Result<Self, AllocError>
        ensures shape { IfOk result (λ shape.
            (dim_of shape ≡ dim_of self) × (order_of shape ≡ Order.ColumnMajor)) }
        ensures memory { IsOk result }
    {
        self.set_f(alloc, true)
    }

    fn set_f(mut self, _alloc: Global, is_f: bool) -> Result<Self, AllocError>
        ensures shape { IfOk result (λ shape. (dim_of shape ≡ dim_of self)
            × (order_of shape ≡ (if is_f then Order.ColumnMajor else Order.RowMajor))) }
        ensures memory { IsOk result }
    {
        self.order = Order::column_major(is_f);
        Ok(self)
    }

    fn strides(self, _alloc: Global, strides: D) -> Result<StrideShape<D>, AllocError>
        ensures { result ≡ Ok (record { dim = dim_of self; strides = Strides.Custom strides }) }
    {
        Ok(StrideShape {
            dim: self.dim,
            strides: Strides::Custom(strides),
        })
    }
}
