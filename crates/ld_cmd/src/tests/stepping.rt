//! Worked texts, cut into their steps.
ghost use Rattle.std.specs.Prelude.{◌≡◌, [], ◌∷◌, codes, map};
ghost use Rattle.ld_line.specs.Reading.{line_of};
ghost use Rattle.ld_steps.specs.Parts.{step_parts};
ghost use Rattle.ld_steps.specs.Steps.{steps_of};
ghost use Rattle.ld_steps.specs.declared.step.StepMark.{StepMark};

use ld_line::{Line, read_line};
use ld_num::{Dec, print_dec};
use ld_steps::{StepMark, Turn, steps_of};
use std::alloc::{AllocError, Global};
use std::test::Fail;

// The lines of a text between bars, and its steps: their lines and turns. The second is the worked
// example steps.
const TEXTS: &str = " => 1-0;\n\
2 24 0 0 0 1 0 0|0 STEP|0 STEP|0 ROTSTEP 0 45 0 REL|0 ROTSTEP 10 0 0 ADD|1 16 0 0 0 1 0 0 0 1 0 0 0 1 s.ldr|\
0 ROTSTEP END|2 24 0 0 0 2 0 0|0 STEP \
=> 1-2;3-3;4-4 rel:0,45,0;5-5 rel:0,45,0 rel:10,0,0;6-7;8-9;\n\
0 a note => 1-1;\n\
0 STEP => 1-1;\n\
0 STEP|0 a note|0 BFC CERTIFY => 1-1;\n\
0 STEP|6 junk|2 24 2000000 0 0 1 0 0 => 1-1;\n\
0 a note|0 STEP|0 a note|5 24 0 0 0 1 0 0 0 1 0 0 0 1|0 a note => 1-2;3-5;\n\
0 STEP|1 16 0 0 0 1 0 0 0 1 0 0 0 1 ../s.ldr => 1-1;2-2;\n\
0 ROTSTEP END|0 ROTSTEP END => 1-1;2-2;\n\
0 ROTSTEP 1 2 3 ABS|0 STEP|0 ROTSTEP 0 0 -.5|2 24 0 0 0 1 0 0 \
=> 1-1 abs:1,2,3;2-2 abs:1,2,3;3-3 rel:0,0,-0.5;4-4 rel:0,0,-0.5;\n\
0 ROTSTEP 1 0 0 ABS|0 ROTSTEP 2 0 0 ADD|0 ROTSTEP 3 0 0 ADD|0 ROTSTEP 4 0 0 ABS|0 ROTSTEP END|0 ROTSTEP 5 0 0 ADD \
=> 1-1 abs:1,0,0;2-2 abs:1,0,0 rel:2,0,0;3-3 abs:1,0,0 rel:2,0,0 rel:3,0,0;4-4 abs:4,0,0;5-5;6-6 rel:5,0,0;\n\
0 ROTSTEP 1 0 0 ADD|0 ROTSTEP 2 0 0 ADD|0 ROTSTEP 3 0 0 ADD|0 ROTSTEP 4 0 0 ADD|0 ROTSTEP 5 0 0 ADD|\
0 ROTSTEP 6 0 0 ADD|0 ROTSTEP 7 0 0 ADD|0 ROTSTEP 8 0 0 ADD|0 ROTSTEP 9 0 0 ADD \
=> 1-1 rel:1,0,0;2-2 rel:1,0,0 rel:2,0,0;3-3 rel:1,0,0 rel:2,0,0 rel:3,0,0;\
4-4 rel:1,0,0 rel:2,0,0 rel:3,0,0 rel:4,0,0;5-5 rel:1,0,0 rel:2,0,0 rel:3,0,0 rel:4,0,0 rel:5,0,0;\
6-6 rel:1,0,0 rel:2,0,0 rel:3,0,0 rel:4,0,0 rel:5,0,0 rel:6,0,0;\
7-7 rel:1,0,0 rel:2,0,0 rel:3,0,0 rel:4,0,0 rel:5,0,0 rel:6,0,0 rel:7,0,0;\
8-8 rel:1,0,0 rel:2,0,0 rel:3,0,0 rel:4,0,0 rel:5,0,0 rel:6,0,0 rel:7,0,0 rel:8,0,0;\
9-9 rel:2,0,0 rel:3,0,0 rel:4,0,0 rel:5,0,0 rel:6,0,0 rel:7,0,0 rel:8,0,0 rel:9,0,0;";

fn lines_of(alloc: Global, text: &str) -> Result<Vec<Line>, AllocError> {
    let mut lines = Vec::new(alloc);
    if !text.is_empty() {
        for line in text.split('|') {
            lines.push(read_line(alloc, line.as_bytes())?)?;
        }
    }
    Ok(lines)
}

fn marked(alloc: Global, lines: &[Line]) -> Result<Vec<StepMark>, Fail> {
    if lines.len() > 1_000_000 {
        return Err("too many lines".into());
    }
    Ok(steps_of(alloc, lines)?)
}

fn show_number(number: Dec, end: &[u8], into: &mut Vec<u8>) -> Result<(), AllocError> {
    print_dec(number, into)?;
    into.extend_from_slice(end)
}

fn show_turn(turn: &Turn, into: &mut Vec<u8>) -> Result<(), AllocError> {
    into.extend_from_slice(if turn.absolute { b" abs:" } else { b" rel:" })?;
    show_number(turn.angles.x, b",", into)?;
    show_number(turn.angles.y, b",", into)?;
    show_number(turn.angles.z, b"", into)
}

fn shown(alloc: Global, marks: &[StepMark]) -> Result<Vec<u8>, AllocError> {
    let mut text = Vec::new(alloc);
    for mark in marks {
        let (first, last) = (mark.first_line, mark.last_line);
        text.extend_from_slice(format!(in alloc; "{first}-{last}")?.as_bytes())?;
        for turn in mark.view.as_slice() {
            show_turn(turn, &mut text)?;
        }
        text.push(b';')?;
    }
    Ok(text)
}

fn steps_text(alloc: Global, text: &str) -> Result<Vec<u8>, Fail> {
    let lines = lines_of(alloc, text)?;
    let marks = marked(alloc, lines.as_slice())?;
    Ok(shown(alloc, marks.as_slice())?)
}

fn is_cut(alloc: Global, row: &str) -> Result<bool, Fail> {
    let (text, want) = row.split_once(" => ").ok_or("a row without =>")?;
    let got = steps_text(alloc, text)?;
    Ok(got.as_slice() == want.as_bytes())
}

#[test]
fn texts_cut_into_steps(rt: HostRuntime) -> Result<(), Fail> {
    let alloc = rt.alloc();
    for row in TEXTS.lines() {
        assert!(rt; is_cut(alloc, row)?, "{row}");
    }
    Ok(())
}

#[test]
fn a_hundred_thousand_steps(rt: HostRuntime) -> Result<(), Fail> {
    let alloc = rt.alloc();
    let mut lines = Vec::new(alloc);
    for _ in 0..100_000 {
        lines.push(Line::Step)?;
    }
    let marks = marked(alloc, lines.as_slice())?;
    assert_eq!(rt; marks.len(), 100_000);
    Ok(())
}

// The definitions, by computing.
fn steps_by_definition()
    ensures no_lines { steps_of [] ≡ record { first_line = 1; last_line = 0; view = [] } ∷ [] }
    ensures dropped { steps_of (map line_of (codes "0 STEP" ∷ codes "0 ROTSTEP END" ∷ codes "0 STEPS" ∷ [])) ≡
        record { first_line = 1; last_line = 1; view = [] } ∷ record { first_line = 2; last_line = 2; view = [] } ∷ [] }
    ensures ranges { step_parts (map line_of (codes "2 24 0 0 0 1 0 0" ∷ codes "0 STEP" ∷ codes "2 24 0 0 0 1 0 0" ∷ [])) (1 ∷ 0 ∷ 3 ∷ []) ≡
        record { first = 0; end = 1; view = [] } ∷ record { first = 1; end = 4; view = [] } ∷ [] }
{}
