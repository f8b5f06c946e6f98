//! What of a text is drawn, and how.

ghost use Rattle.std.specs.Prelude.{◌≡◌};

/// What of a text is drawn, and how.
#[derive(Clone, Copy, Debug, PartialEq, Eq)]
pub struct View {
    /// The number of the call around which is drawn, where that is not all.
    pub around: Option<u64>,
    /// How wide the picture is, where that is asked for.
    pub width: Option<u64>,
    /// Whether each wait is one, however few threads are drawn.
    pub folds: bool,
}

impl View {
    /// Of all calls, or of those around the call of a number, as wide as they are drawn where no width is asked for.
    pub fn of(around: Option<u64>) -> View
        ensures { result.around ≡ around }
    {
        View {
            around,
            width: None,
            folds: false,
        }
    }
}
