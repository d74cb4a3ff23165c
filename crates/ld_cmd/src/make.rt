// The output of the words.
ghost use Rattle.std.specs.Prelude.{◌≡◌, ◌≤◌, ◌↔◌, Err, IsSome, List, ℕ, Option, Result, IfOk, IfSome, None, OnOk, Some, codes, map, string_bytes};
ghost use Rattle.std.specs.Result.{IsErr};
ghost use Rattle.ld_names.specs.Normal.{GivesName};
ghost use Rattle.ld_names.specs.declared.name.NameError.{NameError};
ghost use Rattle.ld_engine.specs.Limits.{bad_limit};
ghost use Rattle.ld_words.specs.Shown.{intent_shown, options_shown, task_shown};
ghost use Rattle.ld_words.specs.Words.{IsBounded, intent_of};
ghost use Rattle.ld_io.specs.Shelf.{Files, IsOnlyRead};
ghost use Rattle.ld_cmd.specs.Ending.{PutsOnce, PutsOnceFor};
ghost use Rattle.ld_cmd.specs.Made.{Makes};
ghost use Rattle.ld_cmd.specs.Replying.{IsNoScript, OpensSession, Works};
ghost use Rattle.ld_cmd.specs.Written.{Output, form_of};
ghost use Rattle.ld_cmd.specs.declared.made.Stop.{Stop};
ghost use Rattle.ld_cmd.specs.Output.{after_slash, form_output, generated_output, limits_of, name_or_default, output, own_name, shown_output, task_output};

use crate::answer::{Form, Shown, form_of};
use crate::check::check_file;
use crate::generator::generate;
use crate::inputs::{read_input, read_table};
use crate::made::{Made, Stop};
use crate::model::show_model;
use crate::script::open_replay;
use crate::session::{Session, Work};
use ld_io::Shelf;
use ld_names::{Name, NameError, normal};
use ld_words::{Listing, Options, Request, Task, given_words, read_request};
use std::alloc::{AllocError, Global};

// What the words, which are in the grammar, give.
#[tactic(auto, unfolding(crate::specs::Output::output))]
pub(crate) fn make_work<S: Shelf>(
    alloc: Global,
    words: &[String],
    shelf: &mut S,
) -> Result<Work, Stop>
    requires in_grammar { IsSome (intent_of (map string_bytes words.now)) }
    ensures told { IfSome (S.files shelf.old) (λ files. Works (output (map string_bytes words.now) files) files result) }
    ensures once { PutsOnce (intent_of (map string_bytes words.now)) → IsNoScript result }
    ensures shelf { IsOnlyRead (S.files shelf.old) (S.files shelf.new) (S.faults shelf.old) (S.faults shelf.new) (result ≡ Err Stop.ReadFault) }
{
    let given = given_words(alloc, words)?;
    let request = read_request(alloc, words, given.as_slice())?;
    make_request(alloc, &request, shelf)
}

#[tactic(auto, using(crate::proofs::Bounds::limits_are_good))]
fn make_request<S: Shelf>(alloc: Global, request: &Request, shelf: &mut S) -> Result<Work, Stop>
    requires bounds { IsBounded (intent_shown request.now) }
    ensures told { IfSome (S.files shelf.old)
        (λ files. Works (task_output (task_shown request.now.task) (options_shown request.now.options) files) files result) }
    ensures once { PutsOnceFor (task_shown request.now.task) → IsNoScript result }
    ensures shelf { IsOnlyRead (S.files shelf.old) (S.files shelf.new) (S.faults shelf.old) (S.faults shelf.new) (result ≡ Err Stop.ReadFault) }
{
    let options = &request.options;
    match request.task {
        Task::Show(what, file) => written(show_listing(alloc, what, file, options, shelf)),
        Task::Replay(file, script) => played(open_replay(alloc, file, script, options, shelf)),
        Task::Generate(count) => written(show_generated(alloc, count, options, shelf)),
    }
}

fn written(made: Result<Made, Stop>) -> Result<Work, Stop>
    ensures told { (files : Option Files) (wanted : Files → Output)
        → IfSome files (λ all. Makes (wanted all) made) → IfSome files (λ all. Works (wanted all) all result) }
    ensures once { IsNoScript result }
    ensures stopped { (stop : Stop) → result ≡ Err stop → made ≡ Err stop }
{
    match made {
        Ok(made) => Ok(Work::Write(made)),
        Err(stop) => Err(stop),
    }
}

fn played(session: Result<Session, Stop>) -> Result<Work, Stop>
    ensures told { (files : Option Files) (wanted : Files → Output)
        → IfSome files (λ all. OpensSession (wanted all) all session) → IfSome files (λ all. Works (wanted all) all result) }
    ensures stopped { (stop : Stop) → result ≡ Err stop → session ≡ Err stop }
{
    match session {
        Ok(session) => Ok(Work::Play(session)),
        Err(stop) => Err(stop),
    }
}

fn show_listing<S: Shelf>(
    alloc: Global,
    what: Listing,
    file: &str,
    options: &Options,
    shelf: &mut S,
) -> Result<Made, Stop>
    requires bounds { bad_limit (limits_of (options_shown options.now)) ≡ None }
    ensures told { IfSome (S.files shelf.old) (λ files. Makes (form_output (form_of what) file.now (options_shown options.now) files) result) }
    ensures shelf { IsOnlyRead (S.files shelf.old) (S.files shelf.new) (S.faults shelf.old) (S.faults shelf.new) (result ≡ Err Stop.ReadFault) }
{
    match form_of(what) {
        Some(form) => show_file(alloc, form, file, options, shelf),
        None => check_file(alloc, file, options, shelf),
    }
}

// What a file shows.
fn show_file<S: Shelf>(
    alloc: Global,
    what: Form,
    file: &str,
    options: &Options,
    shelf: &mut S,
) -> Result<Made, Stop>
    requires bounds { bad_limit (limits_of (options_shown options.now)) ≡ None }
    ensures told { IfSome (S.files shelf.old) (λ files. Makes (shown_output what file.now (options_shown options.now) files) result) }
    ensures shelf { IsOnlyRead (S.files shelf.old) (S.files shelf.new) (S.faults shelf.old) (S.faults shelf.new) (result ≡ Err Stop.ReadFault) }
{
    let bytes = match read_input(alloc, file.as_bytes(), shelf) {
        Ok(bytes) => bytes,
        Err(stop) => return Err(stop),
    };
    let table = match read_table(alloc, options.colours, shelf) {
        Ok(table) => table,
        Err(stop) => return Err(stop),
    };
    let own = own_name(alloc, file.as_bytes())?;
    show_model(alloc, what, options, &own, bytes.as_slice(), &table, shelf)
}

// What a generated model of so many bricks comes to.
fn show_generated<S: Shelf>(
    alloc: Global,
    count: u32,
    options: &Options,
    shelf: &mut S,
) -> Result<Made, Stop>
    requires bounds { bad_limit (limits_of (options_shown options.now)) ≡ None }
    requires count { count ≤ 100000 }
    ensures told { IfSome (S.files shelf.old) (λ files. Makes (generated_output count (options_shown options.now) files) result) }
    ensures shelf { IsOnlyRead (S.files shelf.old) (S.files shelf.new) (S.faults shelf.old) (S.faults shelf.new) (result ≡ Err Stop.ReadFault) }
{
    let table = match read_table(alloc, options.colours, shelf) {
        Ok(table) => table,
        Err(stop) => return Err(stop),
    };
    let own = generated_name(alloc)?;
    let bytes = generate(alloc, count)?;
    show_model(
        alloc,
        Form::Listed(Shown::Summary),
        options,
        &own,
        bytes.as_slice(),
        &table,
        shelf,
    )
}

#[tactic(auto, unfolding(ld_names::specs::Normal::normal_of))]
fn generated_name(alloc: Global) -> Result<Name, AllocError>
    ensures { IfOk result (λ name. name ≡ codes "gen.mpd") }
{
    match normal(alloc, b"gen.mpd") {
        Ok(name) => Ok(name),
        Err(_) => Err(AllocError),
    }
}

// The main model's own name, by the word that names its file.
pub(crate) fn own_name(alloc: Global, word: &[u8]) -> Result<Name, AllocError>
    ensures { IfOk result (λ name. name ≡ own_name word.now) }
{
    match normal(alloc, after_slash(word)) {
        Ok(name) => Ok(name),
        Err(error) => default_name(alloc, error),
    }
}

// The name of a model whose file's name has no normal form.
fn default_name(alloc: Global, error: NameError) -> Result<Name, AllocError>
    ensures { (wanted : Result (List ℕ) NameError) → GivesName (Err error) wanted → IfOk result (λ name. name ≡ name_or_default wanted) }
{
    unless_memory(error)?;
    model_name(alloc)
}

// A bad name has a default, want of memory has none.
fn unless_memory(error: NameError) -> Result<(), AllocError>
    ensures named { (wanted : Result (List ℕ) NameError) → GivesName (Err error) wanted → OnOk result (name_or_default wanted ≡ codes "model.ldr") }
    ensures memory { IsErr result ↔ error ≡ NameError.Memory }
{
    match error {
        NameError::Memory => Err(AllocError),
        NameError::Empty | NameError::TooLong | NameError::NotRelative | NameError::Control => {
            Ok(())
        }
    }
}

#[tactic(auto, unfolding(ld_names::specs::Normal::normal_of))]
fn model_name(alloc: Global) -> Result<Name, AllocError>
    ensures { IfOk result (λ name. name ≡ codes "model.ldr") }
{
    match normal(alloc, b"model.ldr") {
        Ok(name) => Ok(name),
        Err(_) => Err(AllocError),
    }
}

fn after_slash(word: &[u8]) -> &[u8]
    ensures { result.now ≡ after_slash word.now }
{
    let mut last = word;
    let mut rest = word;
    while let Some((first, more)) = rest.split_first() {
        if *first == b'/' || *first == b'\\' {
            last = more;
        }
        rest = more;
    }
    last
}
