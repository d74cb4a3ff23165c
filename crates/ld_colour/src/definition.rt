ghost use Rattle.std.specs.Prelude.{◌≡◌, ◌∷◌, List, ℕ};
ghost use Rattle.ld_line.specs.Field.{fields};
ghost use Rattle.ld_colour.specs.Definition.{are_keywords, colour_line, defined_by, defining, edge_value, is_optional, is_rest, is_up_to_255, made, rgb_value, six_hex_digits};

use ld_line::{read_digits, read_number, split_field};

// What a line defines for a code.
#[derive(Clone, Copy, Debug, PartialEq, Eq)]
pub(crate) struct Definition {
    pub value: u32,
    pub edge: DefinedEdge,
}

// An edge colour: red, green and blue, or the VALUE of another code.
#[derive(Clone, Copy, Debug, PartialEq, Eq)]
pub(crate) enum DefinedEdge {
    Value(u32),
    ValueOf(u32),
}

// What a line is to a colour file.
#[derive(Clone, Copy, Debug, PartialEq, Eq)]
pub(crate) enum ColourLine {
    Other,
    // A definition outside the grammar.
    Bad,
    Defines(u32, Definition),
}

#[tactic(auto, unfolding(crate::specs::Definition::colour_line))]
pub(crate) fn colour_line(line: &[u8]) -> ColourLine
    ensures { result ≡ colour_line line.now }
{
    let Some((kind, rest)) = split_field(line) else {
        return ColourLine::Other;
    };
    let Some((command, rest)) = split_field(rest) else {
        return ColourLine::Other;
    };
    if kind != b"0".as_slice() || command != b"!COLOUR".as_slice() {
        return ColourLine::Other;
    }
    defining(read_definition(rest))
}

fn defining(definition: Option<(u32, Definition)>) -> ColourLine
    ensures { result ≡ defining definition }
{
    match definition {
        Some((code, definition)) => ColourLine::Defines(code, definition),
        None => ColourLine::Bad,
    }
}

// A code and its definition, by what stands behind `!COLOUR`.
fn read_definition(rest: &[u8]) -> Option<(u32, Definition)>
    ensures { result ≡ defined_by (fields rest.now) }
{
    let (_name, rest) = split_field(rest)?;
    let (code_word, rest) = split_field(rest)?;
    let (code, rest) = split_field(rest)?;
    read_values(code_word, code, rest)
}

// The same by a code's two fields and what stands behind them.
fn read_values(code_word: &[u8], code: &[u8], rest: &[u8]) -> Option<(u32, Definition)>
    ensures { (name : List ℕ) → result ≡ defined_by (name ∷ code_word.now ∷ code.now ∷ fields rest.now) }
{
    let (value_word, rest) = split_field(rest)?;
    let (value, rest) = split_field(rest)?;
    let (edge_word, rest) = split_field(rest)?;
    let (edge, rest) = split_field(rest)?;
    if !are_keywords(code_word, value_word, edge_word) || !is_rest(rest) {
        return None;
    }
    make(read_number(code), rgb_value(value), edge_value(edge))
}

fn are_keywords(code: &[u8], value: &[u8], edge: &[u8]) -> bool
    ensures { result ≡ are_keywords code.now value.now edge.now }
{
    code == b"CODE".as_slice() && value == b"VALUE".as_slice() && edge == b"EDGE".as_slice()
}

fn make(
    code: Option<u32>,
    value: Option<u32>,
    edge: Option<DefinedEdge>,
) -> Option<(u32, Definition)>
    ensures { result ≡ made code value edge }
{
    match (code, value, edge) {
        (Some(code), Some(value), Some(edge)) => Some((code, Definition { value, edge })),
        _ => None,
    }
}

fn edge_value(field: &[u8]) -> Option<DefinedEdge>
    ensures { result ≡ edge_value field.now }
{
    match rgb_value(field) {
        Some(value) => Some(DefinedEdge::Value(value)),
        None => match read_number(field) {
            Some(code) => Some(DefinedEdge::ValueOf(code)),
            None => None,
        },
    }
}

fn rgb_value(field: &[u8]) -> Option<u32>
    ensures { result ≡ rgb_value field.now }
{
    match field.strip_prefix(b"#") {
        Some(digits) => six_hex_digits(digits),
        None => match field.strip_prefix(b"0x") {
            Some(digits) => six_hex_digits(digits),
            None => None,
        },
    }
}

fn six_hex_digits(digits: &[u8]) -> Option<u32>
    ensures { result ≡ six_hex_digits digits.now }
{
    if digits.len() != 6 {
        return None;
    }
    read_digits(16, 6, digits)
}

// Whether ALPHA and LUMINANCE have their numbers up to the end, or up to where a finish begins.
fn is_rest(line: &[u8]) -> bool
    ensures { result ≡ is_rest (fields line.now) }
{
    let mut rest = line;
    while let Some((word, more)) = split_field(rest) {
        if !is_optional(word) {
            return true;
        }
        let Some((number, more)) = split_field(more) else {
            return false;
        };
        if !is_up_to_255(number) {
            return false;
        }
        rest = more;
    }
    true
}

fn is_optional(word: &[u8]) -> bool
    ensures { result ≡ is_optional word.now }
{
    word == b"ALPHA".as_slice() || word == b"LUMINANCE".as_slice()
}

fn is_up_to_255(field: &[u8]) -> bool
    ensures { result ≡ is_up_to_255 field.now }
{
    match read_digits(10, 3, field) {
        Some(number) => number <= 255,
        None => false,
    }
}
