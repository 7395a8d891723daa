//! In which order the indices of a shape are read.
ghost use Rattle.std.specs.Prelude.{◌≡◌, ◌↔◌, IsTrue, cond, if◌then◌else◌};
ghost use Rattle.nd_base.specs.Order.{transposed};

/// The order in which the indices of a shape are read: row-major, in which the last axis moves
/// fastest, or column-major, in which the first one does. ndarray's `Order`.
#[derive(Clone, Copy, PartialEq, Eq, Debug)]
pub enum Order {
    /// The last axis moves fastest.
    RowMajor,
    /// The first axis moves fastest.
    ColumnMajor,
}

impl Order {
    /// Row-major order under C's name. ndarray's `Order::C`.
    pub const C: Order = Order::RowMajor;

    /// Column-major order under Fortran's name. ndarray's `Order::F`.
    pub const F: Order = Order::ColumnMajor;

    /// Whether the last axis moves fastest. ndarray's `is_row_major`.
    #[inline]
    pub const fn is_row_major(self) -> bool
        ensures { IsTrue result ↔ (self ≡ Order.RowMajor) }
    {
        matches!(self, Order::RowMajor)
    }

    /// Whether the first axis moves fastest. ndarray's `is_column_major`.
    #[inline]
    pub const fn is_column_major(self) -> bool
        ensures { IsTrue result ↔ (self ≡ Order.ColumnMajor) }
    {
        matches!(self, Order::ColumnMajor)
    }

    /// Row-major order where the argument is true, and else column-major order. ndarray's
    /// `row_major`.
    #[inline]
    pub const fn row_major(row_major: bool) -> Order
        ensures { result ≡ (if row_major then Order.RowMajor else Order.ColumnMajor) }
    {
        if row_major {
            Order::RowMajor
        } else {
            Order::ColumnMajor
        }
    }

    /// Column-major order where the argument is true, and else row-major order. ndarray's
    /// `column_major`.
    #[inline]
    pub const fn column_major(column_major: bool) -> Order
        ensures { result ≡ (if column_major then Order.ColumnMajor else Order.RowMajor) }
    {
        if column_major {
            Order::ColumnMajor
        } else {
            Order::RowMajor
        }
    }

    /// The other order. ndarray's `transpose`.
    #[inline]
    pub const fn transpose(self) -> Order
        ensures other { result ≡ transposed self }
        ensures back { transposed result ≡ self }
    {
        match self {
            Order::RowMajor => Order::ColumnMajor,
            Order::ColumnMajor => Order::RowMajor,
        }
    }
}
