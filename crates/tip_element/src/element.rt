// A kind of element: what a cell holds, and how elements are joined.
ghost use Rattle.std.specs.Prelude.{◌≡◌};
ghost use Rattle.tip_element.specs.Laws.{Laws, Exactly};

/// A value with a joining that is its own inverse, as exclusive or is.
/// All code over elements is written once, against this trait and its laws.
pub trait Element: Copy {
    /// The element that changes nothing.
    ghost zero: { Self };

    /// The joining.
    ghost join: { Self → Self → Self };

    /// What the builder of each kind proves.
    ghost laws: { Laws zero join };

    fn zero() -> Self
        ensures { result ≡ zero };

    fn join(self, other: Self) -> Self
        ensures { result ≡ join self other };

    /// Whether the element is zero, exactly.
    fn is_zero(self) -> bool
        ensures { Exactly result (self ≡ zero) };
}
