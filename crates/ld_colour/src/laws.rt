ghost use Rattle.ld_colour.specs.Laws.{LawfulColours, UnderLaws};

/// Inheritance of colours composes, and the main colour is its unit.
pub fn under_laws()
    ensures { UnderLaws }
{}

/// Words give lawful colours, and edges and inheritance keep them so.
pub fn lawful_colours()
    ensures { LawfulColours }
{}
