// A model: its texts are known, and its main model is asked for.
ghost use Rattle.std.specs.Prelude.{◌≡◌, ◌≢◌, ◌≤◌, ◌<◌, ◌^◌, ◌↔◌, [], Ok, Err, IfOk, IfSome, Some, length, None};
ghost use Rattle.ld_io.specs.Shelf.{IsOnlyRead};
ghost use Rattle.ld_mpd.specs.Blocks.{text_blocks, text_of};
ghost use Rattle.ld_colour.specs.Table.{counting};
ghost use Rattle.ld_engine.specs.Limits.{bad_limit};
ghost use Rattle.ld_engine.specs.Loading.{BeginsWith, load};
ghost use Rattle.ld_report.specs.Entries.{fault_text};
ghost use Rattle.ld_steps.specs.Laws.{AreSteps};
ghost use Rattle.ld_words.specs.Shown.{options_shown};
ghost use Rattle.ld_cmd.specs.Made.{Gives, Makes, queried_output};
ghost use Rattle.ld_cmd.specs.Output.{answered_output, file_bytes, limits_of, loaded_by, main_file, main_output, model_output};
ghost use Rattle.ld_cmd.specs.Written.{Output};
ghost use Rattle.ld_cmd.specs.Querying.{IsFirst, answer_queried};

use crate::answer::{Form, make_answer};
use crate::inputs::FILE_BYTES;
use crate::lines::{about_file, about_limit};
use crate::made::{Made, Stop};
use crate::query::ask;
use crate::status::Status;
use ld_colour::{Table, colour_of};
use ld_engine::{Answer, AnswerError, Limits, LoadError, OpenError, Workspace, first_law};
use ld_entry::Fault;
use ld_io::Shelf;
use ld_names::{FileId, Name};
use ld_report::print_fault;
use ld_texts::Texts;
use ld_words::Options;
use std::alloc::{AllocError, Global};

// The most files that may be known.
const TEXTS: u32 = 65_535;

// The most that their texts may weigh, by the bytes of their lines and 32 more for each line.
const TOTAL_WEIGHT: u64 = 268_435_456;

pub(crate) fn limits_of(options: &Options) -> Limits
    ensures { result ≡ limits_of (options_shown options.now) }
{
    Limits {
        entries: options.max_entries,
        depth: options.max_depth,
        cache: options.cache,
        texts: TEXTS,
        file_bytes: FILE_BYTES,
        total_weight: TOTAL_WEIGHT,
    }
}

// What a model shows, by its name and its bytes.
#[tactic(auto, unfolding(crate::specs::Output::model_output))]
pub(crate) fn show_model<S: Shelf>(
    alloc: Global,
    what: Form,
    options: &Options,
    own: &Name,
    bytes: &[u8],
    table: &Table,
    shelf: &mut S,
) -> Result<Made, Stop>
    requires bounds { bad_limit (limits_of (options_shown options.now)) ≡ None }
    requires size { length bytes.now ≤ file_bytes }
    ensures told { IfSome (S.files shelf.old) (λ files. Makes (model_output (answered_output what (counting table.now)) (options_shown options.now) files own.now bytes.now) result) }
    ensures shelf { IsOnlyRead (S.files shelf.old) (S.files shelf.new) (S.faults shelf.old) (S.faults shelf.new) (result ≡ Err Stop.ReadFault) }
{
    let mut workspace = open_workspace(alloc, options)?;
    match load_model(alloc, &mut workspace, own, bytes) {
        Ok(main) => show_main(alloc, what, options, &mut workspace, &main, table, shelf),
        Err(stop) => Err(stop),
    }
}

// A workspace that knows nothing.
pub(crate) fn open_workspace(alloc: Global, options: &Options) -> Result<Workspace, AllocError>
    requires bounds { bad_limit (limits_of (options_shown options.now)) ≡ None }
    ensures limits { IfOk result (λ workspace. workspace.limits ≡ limits_of (options_shown options.now)) }
    ensures nothing_known { IfOk result (λ workspace. workspace.texts.known ≡ []) }
{
    match Workspace::open(alloc, limits_of(options)) {
        Ok(workspace) => Ok(workspace),
        Err(OpenError::BadLimit(_)) => unreachable!(),
        Err(OpenError::Memory) => Err(AllocError),
    }
}

// Makes the texts of a model's file known, and gives its main model.
pub(crate) fn load_model(
    alloc: Global,
    workspace: &mut Workspace,
    own: &Name,
    bytes: &[u8],
) -> Result<FileId, Stop>
    requires nothing_known { workspace.old.texts.known ≡ [] }
    requires size { length bytes.now ≤ workspace.old.limits.file_bytes }
    ensures limits { workspace.new.limits ≡ workspace.old.limits }
    ensures loaded { Gives (λ main. workspace.new.texts.known) (loaded_by (load workspace.old.limits [] (text_blocks own.now bytes.now))) result }
    ensures main { IfOk result (λ main. main_file own.now (text_blocks own.now bytes.now) ≡ main) }
    ensures first { IfOk result (λ main. BeginsWith main (text_of own.now bytes.now) workspace.new.texts.known) }
    ensures no_fault { result ≢ Err Stop.ReadFault }
{
    first_law();
    match workspace.load(own, bytes) {
        Ok(main) => Ok(main),
        Err(LoadError::Full(over)) => Err(about_limit(alloc, over)),
        Err(LoadError::Memory) => Err(Stop::Memory),
    }
}

fn show_main<S: Shelf>(
    alloc: Global,
    what: Form,
    options: &Options,
    workspace: &mut Workspace,
    main: &FileId,
    table: &Table,
    shelf: &mut S,
) -> Result<Made, Stop>
    requires limits { workspace.old.limits ≡ limits_of (options_shown options.now) }
    requires first { IsFirst main.now workspace.old.texts.known }
    ensures told { IfSome (S.files shelf.old) (λ files. Makes (main_output (answered_output what (counting table.now)) (options_shown options.now) files main.now workspace.old.texts.known) result) }
    ensures shelf { IsOnlyRead (S.files shelf.old) (S.files shelf.new) (S.faults shelf.old) (S.faults shelf.new) (result ≡ Err Stop.ReadFault) }
{
    first_law();
    // Read here, so that the limit on entries is seen to be below 2^32.
    let _most = options.max_entries;
    let answer = ask(workspace, shelf, main, colour_of(options.main));
    show_answer(alloc, what, workspace.texts(), table, answer)
}

fn show_answer(
    alloc: Global,
    what: Form,
    texts: &Texts,
    table: &Table,
    answer: Result<Answer, AnswerError>,
) -> Result<Made, Stop>
    requires size { IfOk answer (λ answer. length answer.entries < 2 ^ 32) }
    requires steps { IfOk answer (λ answer. AreSteps (length answer.entries) answer.steps) }
    requires root { answer ≢ Err AnswerError.NoRoot }
    ensures shown { (wanted : Output) → IfSome (answer_queried answer) (λ given. queried_output (answered_output what (counting table.now)) texts.now.known given ≡ Some wanted) → Makes wanted result }
    ensures fault { result ≡ Err Stop.ReadFault ↔ answer ≡ Err AnswerError.ReadFault }
{
    match answer {
        Ok(answer) => make_answer(alloc, what, texts, table, &answer),
        Err(AnswerError::Fault(fault)) => Ok(Made {
            text: fault_line(alloc, texts, &fault)?,
            status: Status::Faulted,
        }),
        Err(AnswerError::TooBig(file)) => Err(about_file(alloc, &file)),
        Err(AnswerError::Full(over)) => Err(about_limit(alloc, over)),
        Err(AnswerError::NoRoot) => unreachable!(),
        Err(AnswerError::ReadFault) => Err(Stop::ReadFault),
        Err(AnswerError::Memory) => Err(Stop::Memory),
    }
}

pub(crate) fn fault_line(alloc: Global, texts: &Texts, fault: &Fault) -> Result<Vec<u8>, AllocError>
    ensures { IfOk result (λ text. text.items ≡ fault_text texts.now.known fault.now) }
{
    let mut text = Vec::new(alloc);
    print_fault(texts, fault, &mut text)?;
    Ok(text)
}
