// The first five lines of a part (Official Library Header Specification).
ghost use Rattle.std.specs.Prelude.{◌≡◌, ◌≢◌, ◌++◌, ◌==◌, ◌<◌, position, length, IfOk, IfSome, MatchOption, None, OnErr, OnOk, Some, drop, is_some};
ghost use Rattle.ld_line.specs.Field.{after_fields, fields};
ghost use Rattle.ld_line.specs.Reading.{line_of};
ghost use Rattle.ld_names.specs.Normal.{normal_of};
ghost use Rattle.ld_check.specs.Inside.AtLine.{header_findings};
ghost use Rattle.ld_check.specs.Header.{begins_with, has_value, is_description, is_part_type, last_component, names_another, normal_form, stated_name};

use crate::finding::{Finding, note};
use ld_line::{header_line, split_field};
use ld_names::{FileId, Name, NameError, normal};
use std::alloc::{AllocError, Global};

// Appends the findings of a header line.
pub(crate) fn check_header(
    alloc: Global,
    file: &FileId,
    number: u32,
    line: &[u8],
    into: &mut Vec<Finding>,
) -> Result<(), AllocError>
    ensures { OnOk result (into.new.items ≡ into.old.items ++ header_findings file.now line.now number) }
{
    match number {
        1 => note(number, 101, !is_description(line), into),
        2 => check_name(alloc, file, line, into),
        3 => note(number, 104, !has_value(line, b"Author:"), into),
        4 => note(number, 105, !is_part_type(line), into),
        5 => note(number, 106, !has_value(line, b"!LICENSE"), into),
        _ => Ok(()),
    }
}

fn is_description(line: &[u8]) -> bool
    ensures { result ≡ is_description (fields line.now) }
{
    let Some((kind, rest)) = split_field(line) else {
        return false;
    };
    split_field(rest).is_some() && kind == b"0".as_slice()
}

// What stands behind `0` and the word.
fn behind<'a>(line: &'a [u8], key: &[u8]) -> Option<&'a [u8]>
    ensures begins { is_some result ≡ begins_with key.now (fields line.now) }
    ensures rest { IfSome result (λ rest. rest.now ≡ after_fields 2 line.now) }
    ensures value { IfSome result (λ rest. fields rest.now ≡ drop 2 (fields line.now)) }
{
    let (kind, rest) = split_field(line)?;
    let (word, rest) = split_field(rest)?;
    if kind == b"0".as_slice() && word == key {
        Some(rest)
    } else {
        None
    }
}

fn has_value(line: &[u8], key: &[u8]) -> bool
    ensures { result ≡ has_value key.now (fields line.now) }
{
    match behind(line, key) {
        Some(value) => split_field(value).is_some(),
        None => false,
    }
}

fn is_part_type(line: &[u8]) -> bool
    ensures { result ≡ is_part_type (line_of line.now) }
{
    header_line(line).unwrap_or(false)
}

fn check_name(
    alloc: Global,
    file: &FileId,
    line: &[u8],
    into: &mut Vec<Finding>,
) -> Result<(), AllocError>
    ensures { OnOk result (into.new.items ≡ into.old.items ++ header_findings file.now line.now 2) }
{
    match stated_name(alloc, line)? {
        Some(name) => note(2, 103, names_another(file.name.bytes(), name.bytes()), into),
        None => note(2, 102, true, into),
    }
}

fn stated_name(alloc: Global, line: &[u8]) -> Result<Option<Name>, AllocError>
    ensures name { IfOk result (λ name. name ≡ stated_name line.now) }
    ensures memory { OnErr result (stated_name line.now ≢ None) }
{
    match behind(line, b"Name:") {
        Some(text) => normal_form(alloc, text),
        None => Ok(None),
    }
}

fn normal_form(alloc: Global, text: &[u8]) -> Result<Option<Name>, AllocError>
    ensures name { IfOk result (λ name. name ≡ normal_form (normal_of text.now)) }
    ensures memory { OnErr result (normal_form (normal_of text.now) ≢ None) }
{
    match normal(alloc, text) {
        Ok(name) => Ok(Some(name)),
        Err(NameError::Memory) => Err(AllocError),
        Err(_) => Ok(None),
    }
}

fn names_another(own: &[u8], stated: &[u8]) -> bool
    ensures { result ≡ names_another own.now (Some stated.now) }
{
    last_component(stated) != last_component(own)
}

fn last_component(name: &[u8]) -> &[u8]
    ensures { result.now ≡ last_component name.now }
{
    let mut rest = name;
    while let Some(behind) = behind_slash(rest) {
        rest = behind;
    }
    rest
}

fn behind_slash(name: &[u8]) -> Option<&[u8]>
    ensures { MatchOption result (name.now ≡ last_component name.now)
        (λ rest. (last_component rest.now ≡ last_component name.now) × (length rest.now < length name.now)) }
{
    let Some(place) = slash_in(name) else {
        return None;
    };
    let (_, behind) = name.split_at(place + 1);
    Some(behind)
}

fn slash_in(name: &[u8]) -> Option<usize>
    ensures place { result ≡ position (λ byte. byte == 47) name.now }
    ensures within { IfSome result (λ place. place < length name.now) }
{
    name.iter().position(|byte| *byte == b'/')
}
