ghost use Rattle.std.specs.Prelude.{◌≡◌, ◌++◌, ◌-◌, codes, OnErr, OnOk};
ghost use Rattle.std.specs.List.{flat_map};
ghost use Rattle.ld_colour.specs.Table.{counting};
ghost use Rattle.ld_steps.specs.Parts.{entries_in};
ghost use Rattle.ld_report.specs.Extending.{Extends};
ghost use Rattle.ld_report.specs.Pieces.{line_text};
ghost use Rattle.ld_report.specs.Steps.{step_heading, step_text, steps_text, turn_text, turn_word, view_words};

use crate::entry::append_entries;
use crate::pieces::{print_number, print_point};
use crate::undoing::or_undone;
use ld_colour::Table;
use ld_entry::Entry;
use ld_num::Point;
use ld_steps::{StepPart, Turn};
use ld_texts::Texts;
use std::alloc::AllocError;

/// Appends the steps of an answer, in this project's own words: of each a line `step K entries N view
/// V`, numbered from 1, and then the lines of its entries. A view is its turns, the oldest first,
/// each `abs:x,y,z` or `rel:x,y,z` in degrees, or `-` where it has none. A step whose range is not
/// among the entries is followed by as many as are.
///
/// # Errors
///
/// Want of memory. The text is then as before.
pub fn print_steps(
    texts: &Texts,
    table: &Table,
    answer_entries: &[Entry],
    steps: &[StepPart],
    into: &mut Vec<u8>,
) -> Result<(), AllocError>
    ensures ok { OnOk result (into.new.items ≡ into.old.items ++ steps_text texts.now.known (counting table.now) answer_entries.now steps.now) }
    ensures err { OnErr result (into.new.items ≡ into.old.items) }
{
    let length = into.len();
    let outcome = append_steps(texts, table, answer_entries, steps, into);
    or_undone(outcome, length, into)
}

#[tactic(auto, using(crate::proofs::Extending::extending), unfolding(crate::specs::Steps::steps_text))]
fn append_steps(
    texts: &Texts,
    table: &Table,
    answer_entries: &[Entry],
    steps: &[StepPart],
    into: &mut Vec<u8>,
) -> Result<(), AllocError>
    ensures ok { OnOk result (into.new.items ≡ into.old.items ++ steps_text texts.now.known (counting table.now) answer_entries.now steps.now) }
    ensures keeps { Extends into.old.items into.new.items }
{
    for (before, step) in steps.iter().enumerate() {
        append_step(texts, table, answer_entries, before + 1, step, into)?;
    }
    Ok(())
}

#[tactic(auto, using(crate::proofs::Extending::extending))]
fn append_step(
    texts: &Texts,
    table: &Table,
    answer_entries: &[Entry],
    number: usize,
    step: &StepPart,
    into: &mut Vec<u8>,
) -> Result<(), AllocError>
    ensures ok { OnOk result (into.new.items ≡ into.old.items ++ step_text texts.now.known (counting table.now) answer_entries.now number step.now) }
    ensures keeps { Extends into.old.items into.new.items }
{
    print_step(number, step, into)?;
    append_entries(texts, table, entries_in(answer_entries, step), into)?;
    Ok(())
}

#[tactic(auto, using(crate::proofs::Extending::extending))]
fn print_step(number: usize, step: &StepPart, into: &mut Vec<u8>) -> Result<(), AllocError>
    ensures ok { OnOk result (into.new.items ≡ into.old.items ++ line_text (step_heading number step.now)) }
    ensures keeps { Extends into.old.items into.new.items }
{
    into.extend_from_slice(b"step ")?;
    print_number(number as u64, into)?;
    into.extend_from_slice(b" entries ")?;
    print_number(u64::from(step.end.saturating_sub(step.first)), into)?;
    into.extend_from_slice(b" view")?;
    print_view(step.view.as_slice(), into)?;
    into.push(b'\n')?;
    Ok(())
}

fn entries_in<'a>(entries: &'a [Entry], step: &StepPart) -> &'a [Entry]
    ensures { result.now ≡ entries_in entries.now step.now }
{
    let first = entries.len().min(step.first as usize);
    let (_, behind) = entries.split_at(first);
    let count = behind
        .len()
        .min(step.end.saturating_sub(step.first) as usize);
    let (shown, _) = behind.split_at(count);
    shown
}

#[tactic(auto, using(crate::proofs::Extending::extending))]
fn print_view(view: &[Turn], into: &mut Vec<u8>) -> Result<(), AllocError>
    ensures ok { OnOk result (into.new.items ≡ into.old.items ++ flat_map (λ word. codes " " ++ word) (view_words view.now)) }
    ensures keeps { Extends into.old.items into.new.items }
{
    if view.is_empty() {
        return into.extend_from_slice(b" -");
    }
    print_turns(view, into)?;
    Ok(())
}

#[tactic(auto, using(crate::proofs::Extending::extending))]
fn print_turns(turns: &[Turn], into: &mut Vec<u8>) -> Result<(), AllocError>
    ensures ok { OnOk result (into.new.items ≡ into.old.items ++ flat_map (λ turn. codes " " ++ turn_text turn) turns.now) }
    ensures keeps { Extends into.old.items into.new.items }
{
    for turn in turns {
        into.push(b' ')?;
        print_turn(turn, into)?;
    }
    Ok(())
}

#[tactic(auto, using(crate::proofs::Extending::extending))]
fn print_turn(turn: &Turn, into: &mut Vec<u8>) -> Result<(), AllocError>
    ensures ok { OnOk result (into.new.items ≡ into.old.items ++ turn_text turn.now) }
    ensures keeps { Extends into.old.items into.new.items }
{
    let angles = turn.angles;
    into.extend_from_slice(turn_word(turn.absolute))?;
    let point = Point {
        x: angles.x,
        y: angles.y,
        z: angles.z,
    };
    print_point(&point, into)
}

fn turn_word(absolute: bool) -> &'static [u8]
    ensures { result.now ≡ turn_word absolute }
{
    if absolute { b"abs:" } else { b"rel:" }
}
