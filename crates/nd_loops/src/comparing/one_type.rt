//! Items that are compared with others of their own type. (The package has the impl by hand, for two types.)

use crate::comparing::EqualTo;

impl<T: PartialEq> EqualTo<T> for T {
    ghost equal_to = { T.eq };

    fn is_equal_to(&self, other: &T) -> bool {
        *self == *other
    }

    fn are_equal_to(items: &[T], others: &[T]) -> bool {
        items == others
    }
}
