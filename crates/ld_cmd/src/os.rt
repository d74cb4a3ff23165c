// The command line, the disk and standard output: the one part that no test in memory reaches.
ghost use Rattle.std.specs.Prelude.{◌≡◌, [], Err, IfOk, Ok, drop, map, string_bytes};
ghost use Rattle.std.specs.Result.{IsErr};
ghost use Rattle.std.specs.Vec.Iter.{into_iter_items};
ghost use Rattle.ld_words.specs.Words.{intent_of};
ghost use Rattle.ld_cmd.specs.Ending.{UsageIsExact};
ghost use Rattle.ld_cmd.specs.Folders.{model_folder};

use crate::folders::{Unusable, library_folder, model_folder};
use crate::run::run;
use crate::status::Status;
use ld_io::{OsShelf, StdSink};
use std::alloc::{AllocError, Global};
use std::env::Args;
use std::rt::{Env, Files};
use std::{env, io};

// What the system says beside files.
#[derive(Drop)]
struct Given {
    words: Vec<String>,
    library: String,
}

/// Answers the command line.
pub(crate) fn answer<R: Env + Files + Print + AllocGlobal + Copy>(rt: R) -> Status {
    match usable(rt.alloc(), ask(&rt)) {
        Ok(given) => answer_words(rt, given),
        Err(_) => Status::Memory,
    }
}

// Words that are no text are outside the grammar, as no words are.
fn usable(alloc: Global, asked: Result<Given, Unusable>) -> Result<Given, AllocError>
    ensures text { IfOk asked (λ given. result ≡ Ok given) }
    ensures no_text { asked ≡ Err Unusable.NotText → IfOk result (λ given. given.words.items ≡ []) }
    ensures memory { IsErr result → asked ≡ Err Unusable.Memory }
{
    match asked {
        Ok(given) => Ok(given),
        Err(Unusable::NotText) => Ok(Given {
            words: Vec::new(alloc),
            library: String::new(alloc),
        }),
        Err(Unusable::Memory) => Err(AllocError),
    }
}

fn answer_words<R: Env + Files + Print + AllocGlobal + Copy>(rt: R, given: Given) -> Status
    ensures usage { UsageIsExact (intent_of (map string_bytes given.words.items)) result }
{
    let alloc = rt.alloc();
    let Given { words, library } = given;
    let Ok(mut shelf) = shelf_of(alloc, rt, words.as_slice(), library) else {
        return Status::Memory;
    };
    let mut out = StdSink::new(rt);
    run(alloc, words.as_slice(), &mut shelf, &mut out)
}

// The files of the system, by the folders that the words and the environment name.
fn shelf_of<R: Drop>(
    alloc: Global,
    rt: R,
    words: &[String],
    library: String,
) -> Result<OsShelf<R>, AllocError>
    ensures model { IfOk result (λ shelf. shelf.model ≡ model_folder (map string_bytes words.now)) }
    ensures library { IfOk result (λ shelf. shelf.library ≡ string_bytes library) }
{
    let model = String::from_str(alloc, model_folder(words))?;
    Ok(OsShelf::new(rt, library, model))
}

fn ask<R: Env + AllocGlobal>(rt: &R) -> Result<Given, Unusable> {
    let library = library_folder(rt.alloc(), env::var(rt, "LDRAWDIR"))?;
    match env::args(rt) {
        Ok(args) => {
            let words = words_behind(rt.alloc(), args)?;
            Ok(Given { words, library })
        }
        Err(error) if error.kind() == io::ErrorKind::OutOfMemory => Err(Unusable::Memory),
        Err(_) => Err(Unusable::NotText),
    }
}

// The words after the program's name.
fn words_behind(alloc: Global, args: Args) -> Result<Vec<String>, AllocError>
    ensures { IfOk result (λ words. words.items ≡ drop 1 (into_iter_items args)) }
{
    let mut rest = args;
    let _program = rest.next();
    let mut words = Vec::new(alloc);
    while let Some(word) = rest.next() {
        words.push(word)?;
    }
    Ok(words)
}
