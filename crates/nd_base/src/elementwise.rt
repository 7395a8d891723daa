//! The arithmetic of lists of lengths, number by number.
ghost use Rattle.std.specs.Prelude.{◌≡◌};
ghost use Rattle.nd_base.specs.Elementwise.{sums, differences, products, scaled, SumsFit, DifferencesFit, ProductsFit, ScaledFit};

/// Adds the numbers of `others`, of which there are as many.
pub(crate) fn add_to(lens: &mut [usize], others: &[usize])
    requires { SumsFit lens.old others.now }
    ensures { lens.new ≡ sums lens.old others.now }
{
    for (axis, other) in others.iter().enumerate() {
        lens[axis] += other;
    }
}

/// Subtracts the numbers of `others`, of which there are as many.
pub(crate) fn subtract_from(lens: &mut [usize], others: &[usize])
    requires { DifferencesFit lens.old others.now }
    ensures { lens.new ≡ differences lens.old others.now }
{
    for (axis, other) in others.iter().enumerate() {
        lens[axis] -= other;
    }
}

/// Multiplies by the numbers of `others`, of which there are as many.
pub(crate) fn multiply_by(lens: &mut [usize], others: &[usize])
    requires { ProductsFit lens.old others.now }
    ensures { lens.new ≡ products lens.old others.now }
{
    for (axis, other) in others.iter().enumerate() {
        lens[axis] *= other;
    }
}

/// Multiplies each number by one factor.
pub(crate) fn scale(lens: &mut [usize], factor: usize)
    requires { ScaledFit lens.old factor }
    ensures { lens.new ≡ scaled lens.old factor }
{
    for len in lens.iter_mut() {
        *len *= factor;
    }
}
