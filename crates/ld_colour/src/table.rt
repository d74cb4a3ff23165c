ghost use Rattle.std.specs.Prelude.{◌≡◌, ◌<◌, ◌+◌, ◌^◌, ◌∷◌, IfErr, IfOk, None, Ok, OnOk, length, map};
ghost use Rattle.ld_line.specs.Cut.{lines_from};
ghost use Rattle.ld_colour.specs.Definition.{colour_line};
ghost use Rattle.ld_colour.specs.Table.{FindsRgb, IsRefused, bad_in, counting, definitions_from, edge_in, overruled, table_error, rgb_in, table_in, value_in};

use crate::colour::Colour;
use crate::definition::{ColourLine, DefinedEdge, Definition, colour_line};
use ld_line::{split_line, unmarked};
use std::alloc::{AllocError, Global};
use std::collections::HashMap;
use std::marker::Model;

/// Why a colour file gives no table.
#[derive(Clone, Copy, Debug, PartialEq, Eq)]
pub enum TableError {
    /// The number of the first line, from 1, that begins a definition and is none.
    BadColour(u32),
    Memory,
}

impl From<AllocError> for TableError {
    ghost use Rattle.std.specs.Prelude.{◌≡◌};
    ghost use Rattle.ld_colour.specs.declared.table.TableError.TheVariants.{Memory};

    ghost from_gives = { λ _ e. e ≡ Memory };

    fn from(_error: AllocError) -> TableError {
        TableError::Memory
    }
}

/// The colours that a colour file defines (Colour Definition Language Extension). Contracts see each
/// code with the definition that counts for it.
#[derive(Debug, Drop)]
pub struct Table {
    definitions: HashMap<u32, Definition>,
}

impl Model for Table {
    ghost use Rattle.std.specs.Prelude.{List, ℕ, All};
    ghost use Rattle.std.specs.Map.{values_of};
    ghost use Rattle.ld_colour.specs.Rgb.{HasRgb};
    ghost use Rattle.ld_colour.specs.declared.definition.Definition.{Definition};

    ghost Value = { List (ℕ × Definition) };

    ghost view = { λ table. table.definitions.entries };

    ghost invariant = { λ table. All HasRgb (values_of table.definitions.entries) };
}

impl Table {
    /// No colour is defined.
    pub fn empty(alloc: Global) -> Table
        ensures { counting result ≡ (λ _. None) }
    {
        Table {
            definitions: HashMap::new(alloc),
        }
    }

    /// The table of a colour file's lines. Want of memory comes only where every definition is in the
    /// grammar.
    pub fn read(alloc: Global, bytes: &[u8]) -> Result<Table, TableError>
        requires { length bytes.now < 2 ^ 32 }
        ensures read { IfOk result (λ table. table_in bytes.now ≡ Ok (counting table)) }
        ensures refused { IfErr result (λ e. IsRefused (table_in bytes.now) e) }
    {
        let mut table = Table::empty(alloc);
        let mut rest = unmarked(bytes);
        let mut number = 0u32;
        while let Some((line, more)) = split_line(rest) {
            number += 1;
            table.enter(number, line, more)?;
            rest = more;
        }
        Ok(table)
    }

    // What the line with this number defines counts from here on.
    fn enter(&mut self, number: u32, line: &[u8], behind: &[u8]) -> Result<(), TableError>
        requires { number + length behind.now < 2 ^ 32 }
        ensures entered { OnOk result (overruled (counting self.old) (definitions_from number (colour_line line.now ∷ map colour_line (lines_from behind.now)))
            ≡ overruled (counting self.new) (definitions_from (number + 1) (map colour_line (lines_from behind.now)))) }
        ensures refused { IfErr result (λ e. IsRefused (overruled (counting self.old) (definitions_from number (colour_line line.now ∷ map colour_line (lines_from behind.now)))) e) }
    {
        match colour_line(line) {
            ColourLine::Other => Ok(()),
            ColourLine::Bad => Err(TableError::BadColour(number)),
            ColourLine::Defines(code, definition) => {
                match self.definitions.insert(code, definition) {
                    Ok(_) => Ok(()),
                    Err(_) => Err(refusal(number, behind)),
                }
            }
        }
    }

    /// Red, green and blue of a colour, eight bits each; `None` where a code that is needed has no
    /// definition.
    #[tactic(auto, unfolding(crate::specs::Table::rgb_in))]
    pub fn rgb(&self, colour: Colour) -> Option<u32>
        ensures { result ≡ rgb_in (counting self.now) colour }
    {
        match colour {
            Colour::Main => self.value(16),
            Colour::Edge => self.value(24),
            Colour::Code(code) => self.value(code),
            Colour::EdgeOf(code) => self.edge_value(code),
            Colour::Direct(value) => Some(value),
        }
    }

    /// Red, green and blue have eight bits each in every value that is found of a lawful colour.
    pub fn rgb_law(&self)
        ensures { FindsRgb (counting self.now) }
    {
        let _ = &self.definitions;
    }

    fn value(&self, code: u32) -> Option<u32>
        ensures { result ≡ value_in (counting self.now) code }
    {
        match self.definitions.get(&code) {
            Some(definition) => Some(definition.value),
            None => None,
        }
    }

    fn edge_value(&self, code: u32) -> Option<u32>
        ensures { result ≡ edge_in (counting self.now) code }
    {
        match self.definitions.get(&code) {
            Some(definition) => match definition.edge {
                DefinedEdge::Value(value) => Some(value),
                DefinedEdge::ValueOf(other) => self.value(other),
            },
            None => None,
        }
    }
}

// The first bad line behind the one with this number, or else want of memory.
fn refusal(before: u32, behind: &[u8]) -> TableError
    requires { before + length behind.now < 2 ^ 32 }
    ensures { result ≡ table_error (bad_in (definitions_from (before + 1) (map colour_line (lines_from behind.now)))) }
{
    let mut rest = behind;
    let mut number = before;
    while let Some((line, more)) = split_line(rest) {
        number += 1;
        if colour_line(line) == ColourLine::Bad {
            return TableError::BadColour(number);
        }
        rest = more;
    }
    TableError::Memory
}
