// What is found in a model's text.
ghost use Rattle.std.specs.Prelude.{◌≡◌, ◌≢◌, ◌≤◌, ◌+◌, ◌<◌, ◌^◌, ◌==◌, ℕ, List, Err, IfOk, IfSome, None, if◌then◌else◌, length};
ghost use Rattle.ld_io.specs.Shelf.{IsOnlyRead};
ghost use Rattle.ld_check.specs.Findings.{findings_of};
ghost use Rattle.ld_engine.specs.Limits.{bad_limit};
ghost use Rattle.ld_engine.specs.Loading.{BeginsWith};
ghost use Rattle.ld_words.specs.Shown.{options_shown};
ghost use Rattle.ld_cmd.specs.Ending.{IsWhole};
ghost use Rattle.ld_cmd.specs.Made.{Makes, output_of};
ghost use Rattle.ld_cmd.specs.Querying.{IsFirst};
ghost use Rattle.ld_cmd.specs.Output.{check_output, checked_output, file_bytes, found_output, limits_of};

use crate::inputs::{read_input, read_table};
use crate::made::{Made, Stop};
use crate::make::own_name;
use crate::model::{load_model, open_workspace};
use crate::status::Status;
use ld_check::{Finding, check};
use ld_engine::{Workspace, first_law};
use ld_io::Shelf;
use ld_names::{Bytes, FileId, Name, TextId};
use ld_report::print_findings;
use ld_texts::number_law;
use ld_words::Options;
use std::alloc::{AllocError, Global};

pub(crate) fn check_file<S: Shelf>(
    alloc: Global,
    file: &str,
    options: &Options,
    shelf: &mut S,
) -> Result<Made, Stop>
    requires bounds { bad_limit (limits_of (options_shown options.now)) ≡ None }
    ensures told { IfSome (S.files shelf.old) (λ files. Makes (check_output file.now (options_shown options.now) files) result) }
    ensures shelf { IsOnlyRead (S.files shelf.old) (S.files shelf.new) (S.faults shelf.old) (S.faults shelf.new) (result ≡ Err Stop.ReadFault) }
{
    let bytes = match read_input(alloc, file.as_bytes(), shelf) {
        Ok(bytes) => bytes,
        Err(stop) => return Err(stop),
    };
    // Its colours matter to no rule, but the file is read as for every command.
    match read_table(alloc, options.colours, shelf) {
        Ok(_table) => {}
        Err(stop) => return Err(stop),
    }
    let own = own_name(alloc, file.as_bytes())?;
    check_model(alloc, options, &own, bytes.as_slice())
}

#[tactic(auto, unfolding(crate::specs::Output::checked_output))]
fn check_model(alloc: Global, options: &Options, own: &Name, bytes: &[u8]) -> Result<Made, Stop>
    requires bounds { bad_limit (limits_of (options_shown options.now)) ≡ None }
    requires size { length bytes.now ≤ file_bytes }
    ensures told { Makes (checked_output (options_shown options.now) own.now bytes.now) result }
    ensures no_fault { result ≢ Err Stop.ReadFault }
{
    let mut workspace = open_workspace(alloc, options)?;
    match load_model(alloc, &mut workspace, own, bytes) {
        Ok(main) => Ok(check_loaded(alloc, &workspace, &main)?),
        Err(stop) => Err(stop),
    }
}

// What is found in the text of a model that is loaded.
fn check_loaded(alloc: Global, workspace: &Workspace, main: &FileId) -> Result<Made, AllocError>
    requires weight { workspace.now.limits.total_weight ≡ 268435456 }
    requires first { IsFirst main.now workspace.now.texts.known }
    ensures { (lines : List (List ℕ)) → BeginsWith main.now lines workspace.now.texts.known → IfOk result (λ made. output_of made ≡ found_output (findings_of main.now lines)) }
{
    first_law();
    number_law();
    let texts = workspace.texts();
    // Its clauses say how much the lines may weigh, and so how many there may be.
    let _weight = texts.weight();
    // The main model is the first text.
    found(alloc, main, texts.lines(TextId(0)).unwrap())
}

fn found(alloc: Global, file: &FileId, lines: &[Bytes]) -> Result<Made, AllocError>
    requires { length lines.now + 5 < 2 ^ 32 }
    ensures { IfOk result (λ made. output_of made ≡ found_output (findings_of file.now lines.now)) }
{
    let findings = check(alloc, file, lines)?;
    let mut text = Vec::new(alloc);
    print_findings(findings.as_slice(), &mut text)?;
    Ok(Made {
        text,
        status: status_of(findings.as_slice()),
    })
}

fn status_of(findings: &[Finding]) -> Status
    ensures status { result ≡ (if length findings.now == 0 then Status.Done else Status.Faulted) }
    ensures whole { IsWhole result }
    ensures answers { result ≢ Status.Usage }
{
    if findings.is_empty() {
        Status::Done
    } else {
        Status::Faulted
    }
}
