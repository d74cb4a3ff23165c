ghost use Rattle.std.specs.Prelude.{◌≡◌};
ghost use Rattle.ld_colour.specs.Colour.{colour_of, edge, under};

/// What a colour word means where it stands.
#[derive(Clone, Copy, Debug, PartialEq, Eq, Hash)]
pub enum Colour {
    /// The current colour.
    Main,
    /// The edge colour of the current colour.
    Edge,
    /// The colour of a code.
    Code(u32),
    /// The edge colour of a code's colour.
    EdgeOf(u32),
    /// Red, green and blue, eight bits each.
    Direct(u32),
}

/// The colour of a colour word's number.
#[tactic(auto, unfolding(crate::specs::Colour::colour_of))]
pub fn colour_of(word: u32) -> Colour
    ensures { result ≡ colour_of word }
{
    match word {
        16 => Colour::Main,
        24 => Colour::Edge,
        0x2000000..=0x2FFFFFF => Colour::Direct(word - 0x2000000),
        _ => Colour::Code(word),
    }
}

/// The colour of a colour's edges; the edge colour of an edge colour is itself.
pub fn edge(of: Colour) -> Colour
    ensures { result ≡ edge of }
{
    match of {
        Colour::Main | Colour::Edge => Colour::Edge,
        Colour::Code(code) | Colour::EdgeOf(code) => Colour::EdgeOf(code),
        Colour::Direct(_) => Colour::Direct(0x333333),
    }
}

/// A colour of a file, where another one is current for that file.
pub fn under(inner: Colour, current: Colour) -> Colour
    ensures { result ≡ under inner current }
{
    match inner {
        Colour::Main => current,
        Colour::Edge => edge(current),
        Colour::Code(_) | Colour::EdgeOf(_) | Colour::Direct(_) => inner,
    }
}
