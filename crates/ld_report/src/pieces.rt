ghost use Rattle.std.specs.Prelude.{◌≡◌, ◌++◌, codes, decimal, IfOk, OnOk};
ghost use Rattle.ld_colour.specs.Table.{counting, rgb_in};
ghost use Rattle.ld_texts.specs.Known.{file_at};
ghost use Rattle.ld_report.specs.Extending.{Extends};
ghost use Rattle.ld_report.specs.Pieces.{colour_text, file_text, folder_text, numbered_text, point_text, rgb_text, source_text};

use itoa::Buffer;
use ld_colour::{Colour, Table};
use ld_entry::Source;
use ld_line::six_hex;
use ld_names::{FileId, Folder, TextId};
use ld_num::{Point, print_dec};
use ld_texts::Texts;
use std::alloc::{AllocError, Global};

#[tactic(auto, using(crate::proofs::Extending::extending), unfolding(ld_line::specs::Printing::direct_text))]
pub(crate) fn print_colour(colour: Colour, into: &mut Vec<u8>) -> Result<(), AllocError>
    ensures ok { OnOk result (into.new.items ≡ into.old.items ++ colour_text colour) }
    ensures keeps { Extends into.old.items into.new.items }
{
    match colour {
        Colour::Main => into.extend_from_slice(b"16"),
        Colour::Edge => into.extend_from_slice(b"24"),
        Colour::Code(code) => print_number(u64::from(code), into),
        Colour::EdgeOf(code) => {
            into.push(b'e')?;
            print_number(u64::from(code), into)
        }
        Colour::Direct(value) => {
            let [a, b, c, d, e, f] = six_hex(value);
            into.extend_from_slice(&[b'0', b'x', b'2', a, b, c, d, e, f])
        }
    }
}

// A space, and red, green and blue.
#[tactic(auto, using(crate::proofs::Extending::extending))]
fn print_rgb(rgb: Option<u32>, into: &mut Vec<u8>) -> Result<(), AllocError>
    ensures ok { OnOk result (into.new.items ≡ into.old.items ++ codes " " ++ rgb_text rgb) }
    ensures keeps { Extends into.old.items into.new.items }
{
    match rgb {
        Some(value) => {
            let [a, b, c, d, e, f] = six_hex(value);
            into.extend_from_slice(&[b' ', b'#', a, b, c, d, e, f])
        }
        None => into.extend_from_slice(b" -"),
    }
}

// The word that begins an entry's line, with the space behind it, its colour, and the colour's red, green and blue.
#[tactic(auto, using(crate::proofs::Extending::extending))]
pub(crate) fn print_head(
    word: &[u8],
    table: &Table,
    colour: Colour,
    into: &mut Vec<u8>,
) -> Result<(), AllocError>
    ensures ok { OnOk result (into.new.items ≡ into.old.items ++ (word.now ++ colour_text colour ++ codes " " ++ rgb_text (rgb_in (counting table.now) colour))) }
    ensures keeps { Extends into.old.items into.new.items }
{
    into.extend_from_slice(word)?;
    print_colour(colour, into)?;
    print_rgb(table.rgb(colour), into)
}

#[tactic(auto, using(crate::proofs::Extending::extending))]
pub(crate) fn print_number(number: u64, into: &mut Vec<u8>) -> Result<(), AllocError>
    ensures ok { OnOk result (into.new.items ≡ into.old.items ++ decimal number) }
    ensures keeps { Extends into.old.items into.new.items }
{
    // Most codes of colours have one digit.
    if number < 10 {
        into.push(b'0' + number as u8)?;
        return Ok(());
    }
    into.extend_from_slice(Buffer::new().format(number).as_bytes())
}

#[tactic(auto, using(crate::proofs::Extending::extending))]
pub(crate) fn print_point(point: &Point, into: &mut Vec<u8>) -> Result<(), AllocError>
    ensures ok { OnOk result (into.new.items ≡ into.old.items ++ point_text point.now) }
    ensures keeps { Extends into.old.items into.new.items }
{
    print_dec(point.x, into)?;
    into.push(b',')?;
    print_dec(point.y, into)?;
    into.push(b',')?;
    print_dec(point.z, into)
}

#[tactic(auto, using(crate::proofs::Extending::extending))]
pub(crate) fn print_file(texts: &Texts, id: TextId, into: &mut Vec<u8>) -> Result<(), AllocError>
    ensures ok { OnOk result (into.new.items ≡ into.old.items ++ numbered_text (file_at texts.now.known id.0)) }
    ensures keeps { Extends into.old.items into.new.items }
{
    let Some(file) = texts.file(id) else {
        return Ok(());
    };
    append_file(file, into)
}

/// A file as it is printed: the word of its folder, and its name.
pub fn printed_file(alloc: Global, file: &FileId) -> Result<Vec<u8>, AllocError>
    ensures { IfOk result (λ text. text.items ≡ file_text file.now) }
{
    let mut text = Vec::new(alloc);
    append_file(file, &mut text)?;
    Ok(text)
}

#[tactic(auto, using(crate::proofs::Extending::extending))]
fn append_file(file: &FileId, into: &mut Vec<u8>) -> Result<(), AllocError>
    ensures ok { OnOk result (into.new.items ≡ into.old.items ++ file_text file.now) }
    ensures keeps { Extends into.old.items into.new.items }
{
    append_folder(file.folder, into)?;
    into.extend_from_slice(file.name.bytes())
}

#[tactic(auto, using(crate::proofs::Extending::extending))]
fn append_folder(folder: Folder, into: &mut Vec<u8>) -> Result<(), AllocError>
    ensures ok { OnOk result (into.new.items ≡ into.old.items ++ folder_text folder) }
    ensures keeps { Extends into.old.items into.new.items }
{
    match folder {
        Folder::Model(1) => into.extend_from_slice(b"model/"),
        Folder::Model(document) => append_document(document, into),
        Folder::Parts => into.extend_from_slice(b"parts/"),
        Folder::P => into.extend_from_slice(b"p/"),
    }
}

// The folder of a document behind the first.
#[tactic(auto, using(crate::proofs::Extending::extending))]
fn append_document(document: u8, into: &mut Vec<u8>) -> Result<(), AllocError>
    ensures ok { OnOk result (into.new.items ≡ into.old.items ++ codes "model" ++ decimal document ++ codes "/") }
    ensures keeps { Extends into.old.items into.new.items }
{
    into.extend_from_slice(b"model")?;
    print_number(u64::from(document), into)?;
    into.push(b'/')?;
    Ok(())
}

#[tactic(auto, using(crate::proofs::Extending::extending))]
pub(crate) fn print_source(
    texts: &Texts,
    source: Source,
    into: &mut Vec<u8>,
) -> Result<(), AllocError>
    ensures ok { OnOk result (into.new.items ≡ into.old.items ++ source_text texts.now.known source) }
    ensures keeps { Extends into.old.items into.new.items }
{
    print_file(texts, source.text, into)?;
    into.push(b':')?;
    print_number(u64::from(source.line), into)
}
