//! From the coordinates of an index to a tuple.
ghost use Rattle.std.specs.Prelude.{◌≡◌, [], ◌∷◌};

/// The coordinates of an index as a tuple of as many parts. ndarray's `Convert`.
pub trait Convert {
    /// The type of the parts.
    type To;

    // The parts are the coordinates, in order.
    ghost convert_gives: { Self → Self.To → Type 0 };

    /// The coordinates as a tuple. `[4,5]`: (4, 5). ndarray's `convert`.
    fn convert(self) -> Self::To
        ensures { convert_gives self result };
}

impl Convert for [usize; 0] {
    type To = ();

    ghost convert_gives = { λ index _. index ≡ [] };

    fn convert(self) -> () {}
}

impl Convert for [usize; 1] {
    type To = (usize,);

    ghost convert_gives = { λ index parts. index ≡ parts.0 ∷ [] };

    fn convert(self) -> (usize,) {
        let [i0] = self;
        (i0,)
    }
}

impl Convert for [usize; 2] {
    type To = (usize, usize);

    ghost convert_gives = { λ index parts. index ≡ parts.0 ∷ parts.1 ∷ [] };

    fn convert(self) -> (usize, usize) {
        let [i0, i1] = self;
        (i0, i1)
    }
}

impl Convert for [usize; 3] {
    type To = (usize, usize, usize);

    ghost convert_gives = { λ index parts. index ≡ parts.0 ∷ parts.1 ∷ parts.2 ∷ [] };

    fn convert(self) -> (usize, usize, usize) {
        let [i0, i1, i2] = self;
        (i0, i1, i2)
    }
}

impl Convert for [usize; 4] {
    type To = (usize, usize, usize, usize);

    ghost convert_gives = { λ index parts. index ≡ parts.0 ∷ parts.1 ∷ parts.2 ∷ parts.3 ∷ [] };

    fn convert(self) -> (usize, usize, usize, usize) {
        let [i0, i1, i2, i3] = self;
        (i0, i1, i2, i3)
    }
}

impl Convert for [usize; 5] {
    type To = (usize, usize, usize, usize, usize);

    ghost convert_gives = { λ index parts.
        index ≡ parts.0 ∷ parts.1 ∷ parts.2 ∷ parts.3 ∷ parts.4 ∷ [] };

    fn convert(self) -> (usize, usize, usize, usize, usize) {
        let [i0, i1, i2, i3, i4] = self;
        (i0, i1, i2, i3, i4)
    }
}

impl Convert for [usize; 6] {
    type To = (usize, usize, usize, usize, usize, usize);

    ghost convert_gives = { λ index parts.
        index ≡ parts.0 ∷ parts.1 ∷ parts.2 ∷ parts.3 ∷ parts.4 ∷ parts.5 ∷ [] };

    fn convert(self) -> (usize, usize, usize, usize, usize, usize) {
        let [i0, i1, i2, i3, i4, i5] = self;
        (i0, i1, i2, i3, i4, i5)
    }
}
