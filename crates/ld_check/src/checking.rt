ghost use Rattle.std.specs.Prelude.{◌≡◌, ◌+◌, ◌++◌, ◌^◌, ◌<◌, ◌&&◌, IfOk, OnOk, length, not};
ghost use Rattle.ld_line.specs.Reading.{line_of};
ghost use Rattle.ld_check.specs.Findings.{findings_of, found};
ghost use Rattle.ld_check.specs.Inside.AtLine.{missing_findings, said_findings, written_findings};
ghost use Rattle.ld_check.specs.Inside.Passing.{ChecksLine};
ghost use Rattle.ld_check.specs.Inside.Ranking.{place_of_rank};
ghost use Rattle.ld_check.specs.Order.{is_below, is_body};

use crate::finding::{Finding, note};
use crate::geometry::{has_equal_points, is_bent_quad, is_straight_triangle, is_uneven_quad};
use crate::header::check_header;
use crate::order::{Rank, is_below};
use crate::passed::Passed;
use crate::said::{
    has_more_fields, is_edge_off_24, is_face_in_24, is_malformed, is_out_of_range,
    is_singular_reference, is_unnamed,
};
use ld_line::{Line, read_line};
use ld_names::{Bytes, FileId};
use std::alloc::{AllocError, Global};

/// What is wrong with a part of these lines, in order of line and then of rule.
#[tactic(auto, unfolding(crate::specs::Findings::findings_of))]
pub fn check(alloc: Global, file: &FileId, lines: &[Bytes]) -> Result<Vec<Finding>, AllocError>
    requires { length lines.now + 5 < 2 ^ 32 }
    ensures { IfOk result (λ findings. findings.items ≡ findings_of file.now lines.now) }
{
    let mut findings = Vec::new(alloc);
    let mut passed = Passed::new(alloc);
    for (before, line) in lines.iter().enumerate() {
        let number = before as u32 + 1;
        check_line(
            alloc,
            file,
            number,
            line.as_slice(),
            &mut passed,
            &mut findings,
        )?;
    }
    check_missing(lines.len(), &mut findings)?;
    Ok(findings)
}

// The findings of the header lines that a text of so many lines lacks.
fn check_missing(count: usize, into: &mut Vec<Finding>) -> Result<(), AllocError>
    ensures { OnOk result (into.new.items ≡ into.old.items ++ missing_findings count) }
{
    note(1, 101, count < 1, into)?;
    note(2, 102, count < 2, into)?;
    note(3, 104, count < 3, into)?;
    note(4, 105, count < 4, into)?;
    note(5, 106, count < 5, into)
}

fn check_line(
    alloc: Global,
    file: &FileId,
    number: u32,
    bytes: &[u8],
    passed: &mut Passed,
    into: &mut Vec<Finding>,
) -> Result<(), AllocError>
    requires { 0 < number }
    ensures { OnOk result (ChecksLine file.now number bytes.now passed.old passed.new into.old.items into.new.items) }
{
    let line = read_line(alloc, bytes)?;
    check_read_line(alloc, file, number, bytes, &line, passed, into)
}

#[inline]
fn check_read_line(
    alloc: Global,
    file: &FileId,
    number: u32,
    bytes: &[u8],
    line: &Line,
    passed: &mut Passed,
    into: &mut Vec<Finding>,
) -> Result<(), AllocError>
    requires number { 0 < number }
    requires line { line.now ≡ line_of bytes.now }
    ensures { OnOk result (ChecksLine file.now number bytes.now passed.old passed.new into.old.items into.new.items) }
{
    let rank = passed.rank(number, bytes, line);
    check_header(alloc, file, number, bytes, into)?;
    check_place(number, rank, line, passed, into)?;
    check_said(number, line, into)?;
    note(number, 306, passed.drawings.draw(line)?, into)?;
    check_written(number, bytes, line, into)?;
    passed.note(rank, line);
    Ok(())
}

// The findings of where a line stands.
#[inline]
fn check_place(
    number: u32,
    rank: Option<Rank>,
    line: &Line,
    passed: &Passed,
    into: &mut Vec<Finding>,
) -> Result<(), AllocError>
    ensures { OnOk result (into.new.items ≡ into.old.items ++ found number (107, is_body line.now && not passed.now.has_body && not passed.now.has_statement) ++ found number (108, is_below (place_of_rank rank) (place_of_rank passed.now.highest))) }
{
    note(number, 107, passed.lacks_statement(line), into)?;
    note(number, 108, is_below(rank, passed.highest), into)
}

// The findings of what a line says by itself.
fn check_said(number: u32, line: &Line, into: &mut Vec<Finding>) -> Result<(), AllocError>
    ensures { OnOk result (into.new.items ≡ into.old.items ++ said_findings number line.now) }
{
    note(number, 201, is_malformed(line), into)?;
    note(number, 202, is_out_of_range(line), into)?;
    note(number, 203, is_unnamed(line), into)?;
    note(number, 301, has_equal_points(line), into)?;
    note(number, 302, is_straight_triangle(line), into)?;
    note(number, 303, is_bent_quad(line), into)?;
    note(number, 304, is_uneven_quad(line), into)?;
    note(number, 305, is_singular_reference(line), into)
}

// The findings of a line's fields and its colour.
fn check_written(
    number: u32,
    bytes: &[u8],
    line: &Line,
    into: &mut Vec<Finding>,
) -> Result<(), AllocError>
    ensures { OnOk result (into.new.items ≡ into.old.items ++ written_findings number bytes.now line.now) }
{
    note(number, 307, has_more_fields(bytes, line), into)?;
    note(number, 308, is_edge_off_24(line), into)?;
    note(number, 309, is_face_in_24(line), into)
}
