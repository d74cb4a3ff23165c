//! Worked colours.
ghost use Rattle.std.specs.Prelude.{◌≡◌, [], ◌∷◌, map};
ghost use Rattle.ld_colour.specs.Colour.{colour_of, edge, under};
ghost use Rattle.ld_colour.specs.declared.colour.Colour.TheVariants.{Code, Direct, Edge, EdgeOf, Main};

use ld_colour::Colour::{self, Code, Direct, Edge, EdgeOf, Main};
use ld_colour::{Table, TableError, colour_of, edge, under};

// Whether a word of a line stands for a colour.
fn stands_for(word: u32, colour: Colour) -> bool {
    colour_of(word) == colour
}

// Whether a colour has an edge colour, and is this where Code(4) and that where Edge is current.
fn becomes(colour: Colour, of_edges: Colour, in_red: Colour, in_edge: Colour) -> bool {
    edge(colour) == of_edges && is_under(colour, Code(4), in_red) && is_under(colour, Edge, in_edge)
}

fn is_under(colour: Colour, current: Colour, wanted: Colour) -> bool {
    under(colour, current) == wanted
}

// A word of a line, and the colour that it stands for.
static WORDS: [(u32, Colour); 12] = [
    (0, Code(0)),
    (15, Code(15)),
    (16, Main),
    (17, Code(17)),
    (23, Code(23)),
    (24, Edge),
    (25, Code(25)),
    (0x1FFFFFF, Code(0x1FFFFFF)),
    (0x2000000, Direct(0)),
    (0x2FFFFFF, Direct(0xFFFFFF)),
    (0x3000000, Code(0x3000000)),
    (4294967295, Code(4294967295)),
];

#[test]
fn words_of_lines(rt: HostRuntime) {
    for (word, colour) in &WORDS {
        assert!(rt; stands_for(*word, *colour), "{word}");
    }
}

// A colour, its edge colour, and what it is where Code(4) and where Edge is current.
static BECOMES: [(Colour, Colour, Colour, Colour); 6] = [
    (Main, Edge, Code(4), Edge),
    (Edge, Edge, EdgeOf(4), Edge),
    (Code(1), EdgeOf(1), Code(1), Code(1)),
    (EdgeOf(1), EdgeOf(1), EdgeOf(1), EdgeOf(1)),
    (
        Direct(0xFF8000),
        Direct(0x333333),
        Direct(0xFF8000),
        Direct(0xFF8000),
    ),
    (Direct(0), Direct(0x333333), Direct(0), Direct(0)),
];

#[test]
fn edges_and_inheritance(rt: HostRuntime) {
    for (colour, of_edges, in_red, in_edge) in &BECOMES {
        assert!(rt;
            becomes(*colour, *of_edges, *in_red, *in_edge),
            "{colour:?}"
        );
    }
    assert!(rt; is_under(Edge, Direct(1), Direct(0x333333)));
    assert!(rt; is_under(Edge, EdgeOf(7), EdgeOf(7)));
}

// The definitions, by computing.
fn colours_by_definition()
    ensures words { map colour_of (16 ∷ 24 ∷ 4 ∷ 0x1FFFFFF ∷ 0x2000000 ∷ 0x2FFFFFF ∷ 0x3000000 ∷ []) ≡ Main ∷ Edge ∷ Code 4 ∷ Code 0x1FFFFFF ∷ Direct 0 ∷ Direct 0xFFFFFF ∷ Code 0x3000000 ∷ [] }
    ensures edges { map edge (Main ∷ Edge ∷ Code 4 ∷ EdgeOf 4 ∷ Direct 9 ∷ []) ≡ Edge ∷ Edge ∷ EdgeOf 4 ∷ EdgeOf 4 ∷ Direct 0x333333 ∷ [] }
    ensures inherited { map (λ c. under c (Code 4)) (Main ∷ Edge ∷ Code 1 ∷ EdgeOf 1 ∷ Direct 9 ∷ []) ≡ Code 4 ∷ EdgeOf 4 ∷ Code 1 ∷ EdgeOf 1 ∷ Direct 9 ∷ [] }
{}
