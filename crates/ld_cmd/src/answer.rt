// What is shown of an answer.
ghost use Rattle.std.specs.Prelude.{◌≡◌, ◌≢◌, ◌<◌, ◌^◌, Err, IfOk, length};
ghost use Rattle.ld_colour.specs.Table.{counting};
ghost use Rattle.ld_report.specs.Entries.{entries_text};
ghost use Rattle.ld_report.specs.Parts.{parts_of, parts_text};
ghost use Rattle.ld_report.specs.Steps.{steps_text};
ghost use Rattle.ld_inline.specs.Text.{inlined_text};
ghost use Rattle.ld_steps.specs.Laws.{AreSteps};
ghost use Rattle.ld_cmd.specs.Made.{Makes};
ghost use Rattle.ld_cmd.specs.Output.{answered_output, inlined_output};
ghost use Rattle.ld_cmd.specs.Generator.{summary_text};
ghost use Rattle.ld_cmd.specs.Written.{form_of, shown_text};

use crate::generator::summary;
use crate::lines::about_number;
use crate::made::{Made, Stop};
use crate::status::Status;
use ld_colour::Table;
use ld_engine::Answer;
use ld_entry::Entry;
use ld_inline::{InlineError, inline};
use ld_report::{parts_list, print_entries, print_parts, print_steps};
use ld_texts::Texts;
use ld_words::Listing;
use std::alloc::{AllocError, Global};

// What a command shows of an answer.
#[derive(Clone, Copy)]
pub(crate) enum Shown {
    Faces,
    Steps,
    Parts,
    Summary,
}

// What a command makes of an answer.
#[derive(Clone, Copy)]
pub(crate) enum Form {
    Listed(Shown),
    // One text without references.
    Inlined,
}

// What a command makes of an answer, if it asks for one.
pub(crate) fn form_of(what: Listing) -> Option<Form>
    ensures { result ≡ form_of what }
{
    match what {
        Listing::Faces => Some(Form::Listed(Shown::Faces)),
        Listing::Steps => Some(Form::Listed(Shown::Steps)),
        Listing::Parts => Some(Form::Listed(Shown::Parts)),
        Listing::Inline => Some(Form::Inlined),
        Listing::Check => None,
    }
}

pub(crate) fn make_answer(
    alloc: Global,
    what: Form,
    texts: &Texts,
    table: &Table,
    answer: &Answer,
) -> Result<Made, Stop>
    requires size { length answer.now.entries < 2 ^ 32 }
    requires steps { AreSteps (length answer.now.entries) answer.now.steps }
    ensures told { Makes (answered_output what (counting table.now) texts.now.known answer.now) result }
    ensures no_fault { result ≢ Err Stop.ReadFault }
{
    match what {
        Form::Listed(what) => Ok(Made {
            text: print_answer(alloc, what, texts, table, answer)?,
            status: Status::Done,
        }),
        Form::Inlined => make_inlined(alloc, table, answer),
    }
}

fn make_inlined(alloc: Global, table: &Table, answer: &Answer) -> Result<Made, Stop>
    requires { AreSteps (length answer.now.entries) answer.now.steps }
    ensures told { Makes (inlined_output (inlined_text answer.now.entries answer.now.steps (counting table.now))) result }
    ensures no_fault { result ≢ Err Stop.ReadFault }
{
    match inline(
        alloc,
        answer.entries.as_slice(),
        answer.steps.as_slice(),
        table,
    ) {
        Ok(text) => Ok(Made {
            text,
            status: Status::Done,
        }),
        Err(InlineError::NoColour(code)) => Err(about_number(
            alloc,
            b"nocolour ",
            u64::from(code),
            Status::Faulted,
        )),
        Err(InlineError::Memory) => Err(Stop::Memory),
    }
}

pub(crate) fn print_answer(
    alloc: Global,
    what: Shown,
    texts: &Texts,
    table: &Table,
    answer: &Answer,
) -> Result<Vec<u8>, AllocError>
    requires { length answer.now.entries < 2 ^ 32 }
    ensures { IfOk result (λ text. text.items ≡ shown_text what (counting table.now) texts.now.known answer.now) }
{
    match what {
        Shown::Faces => print_faces(alloc, texts, table, answer.entries.as_slice()),
        Shown::Steps => print_with_steps(alloc, texts, table, answer),
        Shown::Parts => print_parts_list(alloc, texts, answer.entries.as_slice()),
        Shown::Summary => print_summary(alloc, answer),
    }
}

fn print_faces(
    alloc: Global,
    texts: &Texts,
    table: &Table,
    entries: &[Entry],
) -> Result<Vec<u8>, AllocError>
    ensures { IfOk result (λ text. text.items ≡ entries_text texts.now.known (counting table.now) entries.now) }
{
    let mut text = Vec::new(alloc);
    print_entries(texts, table, entries, &mut text)?;
    Ok(text)
}

fn print_with_steps(
    alloc: Global,
    texts: &Texts,
    table: &Table,
    answer: &Answer,
) -> Result<Vec<u8>, AllocError>
    ensures { IfOk result (λ text. text.items ≡ steps_text texts.now.known (counting table.now) answer.now.entries answer.now.steps) }
{
    let mut text = Vec::new(alloc);
    print_steps(
        texts,
        table,
        answer.entries.as_slice(),
        answer.steps.as_slice(),
        &mut text,
    )?;
    Ok(text)
}

fn print_parts_list(alloc: Global, texts: &Texts, entries: &[Entry]) -> Result<Vec<u8>, AllocError>
    requires { length entries.now < 2 ^ 32 }
    ensures { IfOk result (λ text. text.items ≡ parts_text texts.now.known (parts_of entries.now)) }
{
    let parts = parts_list(alloc, entries)?;
    let mut text = Vec::new(alloc);
    print_parts(texts, parts.as_slice(), &mut text)?;
    Ok(text)
}

fn print_summary(alloc: Global, answer: &Answer) -> Result<Vec<u8>, AllocError>
    requires { length answer.now.entries < 2 ^ 32 }
    ensures { IfOk result (λ text. text.items ≡ summary_text (length answer.now.entries) (length (parts_of answer.now.entries)) (length answer.now.steps)) }
{
    let entries = answer.entries.as_slice();
    let parts = parts_list(alloc, entries)?;
    summary(
        alloc,
        entries.len(),
        parts.len(),
        answer.steps.as_slice().len(),
    )
}
