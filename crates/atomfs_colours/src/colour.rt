//! Colours, and how a terminal is asked for them.

ghost use Rattle.std.specs.Prelude.{◌≡◌, ◌++◌, false, ℕ, List};
ghost use Rattle.atomfs_colours.specs.Colours.{plain_on};

/// The colour of a piece of text.
#[derive(Clone, Copy, Debug, PartialEq, Eq)]
pub(crate) enum Colour {
    /// That of the text around.
    Unchanged,
    Red,
    Green,
    Yellow,
    Blue,
    Magenta,
    Cyan,
}

/// The escape sequence from which on text has a colour.
#[tactic(auto, unfolding(crate::specs::Colours::plain_on))]
pub(crate) fn opening(colour: Colour) -> &'static [u8]
    ensures { (rest : List ℕ) → plain_on false (result.now ++ rest) ≡ plain_on false rest }
{
    match colour {
        Colour::Unchanged => b"",
        Colour::Red => b"\x1b[31m",
        Colour::Green => b"\x1b[32m",
        Colour::Yellow => b"\x1b[33m",
        Colour::Blue => b"\x1b[34m",
        Colour::Magenta => b"\x1b[35m",
        Colour::Cyan => b"\x1b[36m",
    }
}

/// The escape sequence after a piece of text with a colour.
#[tactic(auto, unfolding(crate::specs::Colours::plain_on))]
pub(crate) fn closing(colour: Colour) -> &'static [u8]
    ensures { (rest : List ℕ) → plain_on false (result.now ++ rest) ≡ plain_on false rest }
{
    match colour {
        Colour::Unchanged => b"",
        _ => b"\x1b[0m",
    }
}
