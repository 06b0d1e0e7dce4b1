//! What holds of each value, for the prover alone: to read a value tells the bounds of its type.
ghost use Rattle.std.specs.Prelude.{All};

/// Values that have bounds.
pub(crate) trait Bounded {
    /// What holds of each.
    ghost Is: { Self → Type 0 };

    /// Reads it, so that this is known.
    fn has_bounds(&self)
        ensures { Is self.now };
}

/// Reads each. It is inlined, as the law over maps is, so that LLVM sees that nothing is done, and leaves it out.
#[inline(always)]
pub(crate) fn have_bounds<T: Bounded>(values: &[T])
    ensures { All T.Is values.now }
{
    for value in values {
        value.has_bounds();
    }
}

impl Bounded for char {
    ghost use Rattle.std.specs.Char.{IsScalar};

    ghost Is = { IsScalar };

    fn has_bounds(&self) {
        let _ = *self as u32;
    }
}

impl Bounded for (char, char) {
    ghost use Rattle.keymap_core.specs.Accents.{AreScalars};

    ghost Is = { AreScalars };

    fn has_bounds(&self) {
        self.0.has_bounds();
        self.1.has_bounds();
    }
}
