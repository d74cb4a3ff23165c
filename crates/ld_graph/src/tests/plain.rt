//! Plain answers about texts: whole walks over the files and the names of their references.

use ld_line::{Line, read_line};
use ld_names::{Bytes, FileId, Folder, Name, TextId, order};
use ld_texts::Texts;
use std::alloc::{AllocError, Global};

// A known text: its file, and the names of its references; `None` of an absent one.
#[derive(Drop)]
pub struct PlainText {
    file: FileId,
    names: Option<Vec<Name>>,
}

fn names_in(alloc: Global, lines: &[Bytes]) -> Result<Vec<Name>, AllocError> {
    let mut names = Vec::new(alloc);
    for line in lines {
        if let Line::Ref {
            name: Some(name),
            ..
        } = read_line(alloc, line.as_slice())?
        {
            names.push(name)?;
        }
    }
    Ok(names)
}

fn text_at(alloc: Global, texts: &Texts, id: TextId) -> Result<Option<PlainText>, AllocError> {
    let Some(file) = texts.file(id) else {
        return Ok(None);
    };
    let file = file.copy(alloc)?;
    let names = match texts.lines(id) {
        Some(lines) => Some(names_in(alloc, lines)?),
        None => None,
    };
    Ok(Some(PlainText { file, names }))
}

fn texts_of(alloc: Global, texts: &Texts) -> Result<Vec<PlainText>, AllocError> {
    let mut plain = Vec::new(alloc);
    for id in 0..texts.known() {
        if let Some(text) = text_at(alloc, texts, TextId(id))? {
            plain.push(text)?;
        }
    }
    Ok(plain)
}

/// The known texts, by their numbers, and the texts that each refers to.
#[derive(Drop)]
pub struct PlainTexts {
    texts: Vec<PlainText>,
    children: Vec<Vec<usize>>,
}

/// What is known, read from its lines.
pub fn plain_texts(alloc: Global, texts: &Texts) -> Result<PlainTexts, AllocError> {
    let texts = texts_of(alloc, texts)?;
    let mut children = Vec::new(alloc);
    for text in &texts {
        children.push(children_of(alloc, &texts, text)?)?;
    }
    Ok(PlainTexts { texts, children })
}

fn is_of(text: &PlainText, folder: Folder, name: &Name) -> bool {
    text.file.folder == folder && text.file.name == *name
}

// The text that a name finds from a folder.
fn found(texts: &[PlainText], from: Folder, name: &Name) -> Option<usize> {
    let folders = order(from);
    for folder in folders.list.iter().take(folders.count as usize) {
        let id = texts.iter().position(|text| is_of(text, *folder, name))?;
        if texts.get(id)?.names.is_some() {
            return Some(id);
        }
    }
    None
}

fn children_of(
    alloc: Global,
    texts: &[PlainText],
    text: &PlainText,
) -> Result<Vec<usize>, AllocError> {
    let mut children = Vec::new(alloc);
    let Some(names) = &text.names else {
        return Ok(children);
    };
    for name in names {
        if let Some(id) = found(texts, text.file.folder, name) {
            children.push(id)?;
        }
    }
    Ok(children)
}

fn names_text(text: &PlainText, other: &PlainText) -> bool {
    let folders = order(text.file.folder);
    let looks = folders
        .list
        .iter()
        .take(folders.count as usize)
        .any(|folder| *folder == other.file.folder);
    match &text.names {
        Some(names) => looks && names.iter().any(|name| *name == other.file.name),
        None => false,
    }
}

/// Heights by one more round for each text of a walk.
pub fn plain_heights(alloc: Global, plain: &PlainTexts, cap: u32) -> Result<Vec<u32>, AllocError> {
    let mut heights = vec![in alloc; 0; plain.texts.len()]?;
    for _ in 0..cap {
        heights = higher(alloc, plain, &heights)?;
    }
    Ok(heights)
}

fn higher(alloc: Global, plain: &PlainTexts, heights: &[u32]) -> Result<Vec<u32>, AllocError> {
    let mut next = Vec::new(alloc);
    for (text, children) in plain.texts.iter().zip(plain.children.iter()) {
        next.push(match text.names {
            Some(_) => over(heights, children),
            None => 0,
        })?;
    }
    Ok(next)
}

fn over(heights: &[u32], children: &[usize]) -> u32 {
    let mut most = 0;
    for child in children {
        most = heights.get(*child).copied().unwrap_or(0).max(most);
    }
    most.saturating_add(1)
}

fn is_changed(changed: &[TextId], id: usize) -> bool {
    changed.iter().any(|text| text.0 as usize == id)
}

fn turned(before: &PlainTexts, after: &PlainTexts, id: usize) -> bool {
    match (before.texts.get(id), after.texts.get(id)) {
        (Some(old), Some(new)) => old.names.is_some() != new.names.is_some(),
        _ => false,
    }
}

// The touched ones among texts: the changed ones, and those that name one that turned.
fn touched(
    alloc: Global,
    texts: &[PlainText],
    turned: &[bool],
    changed: &[TextId],
) -> Result<Vec<bool>, AllocError> {
    let mut marks = Vec::new(alloc);
    for (id, text) in texts.iter().enumerate() {
        let names = texts
            .iter()
            .zip(turned.iter())
            .any(|(other, turned)| *turned && names_text(text, other));
        marks.push(is_changed(changed, id) || names)?;
    }
    Ok(marks)
}

fn leads(marks: &[bool], children: &[usize]) -> bool {
    children
        .iter()
        .any(|child| marks.get(*child).copied().unwrap_or(false))
}

// The marked ones, and those that refer to a marked one.
fn further(alloc: Global, plain: &PlainTexts, marks: &[bool]) -> Result<Vec<bool>, AllocError> {
    let mut more = Vec::new(alloc);
    for (children, mark) in plain.children.iter().zip(marks.iter()) {
        more.push(*mark || leads(marks, children))?;
    }
    Ok(more)
}

fn reaching(alloc: Global, plain: &PlainTexts, marks: Vec<bool>) -> Result<Vec<bool>, AllocError> {
    let mut marks = marks;
    for _ in 0..plain.texts.len() {
        marks = further(alloc, plain, &marks)?;
    }
    Ok(marks)
}

/// The dirt of a change: a walk before or after it leads to a touched text.
pub fn plain_dirt(
    alloc: Global,
    before: &PlainTexts,
    after: &PlainTexts,
    changed: &[TextId],
) -> Result<Vec<bool>, AllocError> {
    let mut turns = Vec::new(alloc);
    for id in 0..after.texts.len() {
        turns.push(turned(before, after, id))?;
    }
    let old = touched(alloc, &before.texts, &turns, changed)?;
    let new = touched(alloc, &after.texts, &turns, changed)?;
    let old = reaching(alloc, before, old)?;
    let new = reaching(alloc, after, new)?;
    let mut dirt = Vec::new(alloc);
    for (old, new) in old.iter().zip(new.iter()) {
        dirt.push(*old || *new)?;
    }
    Ok(dirt)
}
