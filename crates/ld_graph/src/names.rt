// The names of the references of texts, as they stand and after an edit.
ghost use Rattle.std.specs.Prelude.{◌≡◌, ◌++◌, ◌∷◌, ◌-◌, [], None, IfOk, OnOk, option_map, slice_set};
ghost use Rattle.std.specs.List.{insert, remove};
ghost use Rattle.std.specs.Option.{option_copied};
ghost use Rattle.ld_line.specs.Moved.{name_in};
ghost use Rattle.ld_texts.specs.Editing.{misfit, misses, text_of};
ghost use Rattle.ld_graph.specs.Agreeing.{names_among, names_of};
ghost use Rattle.ld_graph.specs.Inside.Naming.{written_text};

use ld_line::{Line, read_line};
use ld_names::{Bytes, FileId, Name};
use ld_texts::{Edit, Texts};
use std::alloc::{AllocError, Global};

// The names of a text that may be absent.
pub(crate) fn names_of(
    alloc: Global,
    lines: Option<&[Bytes]>,
) -> Result<Option<Vec<Name>>, AllocError>
    ensures { IfOk result (λ names. option_map (λ all. all.items) names ≡ names_of (option_copied lines.entry)) }
{
    let Some(lines) = lines else {
        return Ok(None);
    };
    let mut names = Vec::new(alloc);
    push_names(alloc, lines, &mut names)?;
    Ok(Some(names))
}

// The names that the text which an edit writes has after it.
pub(crate) fn names_after(
    alloc: Global,
    texts: &Texts,
    edit: &Edit,
) -> Result<Option<Vec<Name>>, AllocError>
    requires { misfit (text_of texts.now.known) edit.now ≡ None }
    ensures { IfOk result (λ names. option_map (λ all. all.items) names ≡ names_of (written_text (text_of texts.now.known) edit.now)) }
{
    match edit {
        Edit::Set { file, line, text } => {
            names_set(alloc, lines_of(texts, file), *line, text.as_slice())
        }
        Edit::Insert { file, line, text } => {
            names_inserted(alloc, lines_of(texts, file), *line, text.as_slice())
        }
        Edit::Delete { file, line } => names_deleted(alloc, lines_of(texts, file), *line),
        Edit::New { .. } => Ok(Some(Vec::new(alloc))),
        Edit::Restore { lines, .. } => names_of(alloc, Some(lines.as_slice())),
        Edit::Drop { .. } => Ok(None),
        Edit::Move { from, .. } => names_of(alloc, lines_of(texts, from)),
    }
}

// The lines of a known file that is present.
fn lines_of<'a>(texts: &'a Texts, file: &FileId) -> Option<&'a [Bytes]>
    ensures { option_copied result ≡ text_of texts.now.known file.now }
{
    let id = texts.id(file)?;
    texts.lines(id)
}

// With another line in the place of one.
fn names_set(
    alloc: Global,
    lines: Option<&[Bytes]>,
    line: u32,
    text: &[u8],
) -> Result<Option<Vec<Name>>, AllocError>
    requires { misses 0 line (option_copied lines) ≡ None }
    ensures { IfOk result (λ names. option_map (λ all. all.items) names ≡ names_of (option_map (λ all. slice_set all (line - 1) text.now) (option_copied lines.entry))) }
{
    let Some(lines) = lines else {
        return Ok(None);
    };
    let (before, rest) = lines.split_at(line as usize - 1);
    let (_, behind) = rest.split_at(1);
    let names = names_around(alloc, before, text, behind)?;
    Ok(Some(names))
}

// With a further line before one.
fn names_inserted(
    alloc: Global,
    lines: Option<&[Bytes]>,
    line: u32,
    text: &[u8],
) -> Result<Option<Vec<Name>>, AllocError>
    requires { misses 1 line (option_copied lines) ≡ None }
    ensures { IfOk result (λ names. option_map (λ all. all.items) names ≡ names_of (option_map (λ all. insert all (line - 1) text.now) (option_copied lines.entry))) }
{
    let Some(lines) = lines else {
        return Ok(None);
    };
    let (before, behind) = lines.split_at(line as usize - 1);
    let names = names_around(alloc, before, text, behind)?;
    Ok(Some(names))
}

// Without a line.
fn names_deleted(
    alloc: Global,
    lines: Option<&[Bytes]>,
    line: u32,
) -> Result<Option<Vec<Name>>, AllocError>
    requires { misses 0 line (option_copied lines) ≡ None }
    ensures { IfOk result (λ names. option_map (λ all. all.items) names ≡ names_of (option_map (λ all. remove all (line - 1)) (option_copied lines.entry))) }
{
    let Some(lines) = lines else {
        return Ok(None);
    };
    let (before, rest) = lines.split_at(line as usize - 1);
    let (_, behind) = rest.split_at(1);
    let mut names = Vec::new(alloc);
    push_names(alloc, before, &mut names)?;
    push_names(alloc, behind, &mut names)?;
    Ok(Some(names))
}

// The names of lines with another one between them.
#[tactic(auto, using(crate::proofs::Named::names_between))]
fn names_around(
    alloc: Global,
    before: &[Bytes],
    line: &[u8],
    behind: &[Bytes],
) -> Result<Vec<Name>, AllocError>
    ensures { IfOk result (λ names. names.items ≡ names_among (before.now ++ line.now ∷ behind.now)) }
{
    let mut names = Vec::new(alloc);
    push_names(alloc, before, &mut names)?;
    push_name(alloc, line, &mut names)?;
    push_names(alloc, behind, &mut names)?;
    Ok(names)
}

// Appends the names of lines, in order.
fn push_names(alloc: Global, lines: &[Bytes], into: &mut Vec<Name>) -> Result<(), AllocError>
    ensures { OnOk result (into.new.items ≡ into.old.items ++ names_among lines.now) }
{
    let mut rest = lines;
    while let Some((line, more)) = rest.split_first() {
        push_name(alloc, line.as_slice(), into)?;
        rest = more;
    }
    Ok(())
}

// Appends the name of a line, if it is a reference with one.
fn push_name(alloc: Global, line: &[u8], into: &mut Vec<Name>) -> Result<(), AllocError>
    ensures { OnOk result (into.new.items ≡ into.old.items ++ names_among (line.now ∷ [])) }
{
    let line = read_line(alloc, line)?;
    let Some(name) = name_in(line) else {
        return Ok(());
    };
    into.push(name)?;
    Ok(())
}

fn name_in(line: Line) -> Option<Name>
    ensures { result ≡ name_in line }
{
    match line {
        Line::Ref { name, .. } => name,
        _ => None,
    }
}
