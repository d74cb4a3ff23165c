ghost use Rattle.std.specs.Prelude.{◌≡◌, ◌∷◌, IfErr, IfOk, IfSome, IsSome, List, ℕ, Some, codes, map, option_map, string_bytes};
ghost use Rattle.clap.specs.Simple.{App};
ghost use Rattle.clap.specs.Words.{app_of, first_value, found_of, kind_of, new_rule, with_rule};
ghost use Rattle.ld_line.specs.Colour.{colour_word};
ghost use Rattle.ld_words.specs.Ldraw.{intent_from, ldraw, ldraw_places, task_from, with_option};
ghost use Rattle.ld_words.specs.Shown.{intent_shown, options_shown, task_shown};
ghost use Rattle.ld_words.specs.Words.{Intent, IsBetween, IsBounded, IsBoundedTask, intent_of, most_cache, most_depth, most_entries, most_workers, number_in, options_from, task_of, value_or};

use crate::request::{Options, Request, Task};
use crate::value::{
    MOST_CACHE, MOST_DEPTH, MOST_ENTRIES, MOST_WORKERS, colour, number_in, one_word, two_words,
};
use clap::error::ErrorKind;
use clap::{Arg, ArgMatches, Command, Error};
use std::alloc::{AllocError, Global};

/// The words that clap is given: `ldraw` for the program's name, and then all of these.
pub fn given_words<'a>(alloc: Global, words: &'a [String]) -> Result<Vec<&'a str>, AllocError>
    ensures { IfOk result (λ given. map (λ word. word.now) given.items ≡ codes "ldraw" ∷ map string_bytes words.entry.now) }
{
    let mut given = Vec::with_capacity(alloc, words.len() + 1)?;
    given.push("ldraw")?;
    for word in words {
        given.push(word.as_str())?;
    }
    Ok(given)
}

/// The request that clap's values make of words that are in the grammar, which `is_command` tests.
pub fn read_request<'a>(
    alloc: Global,
    words: &[String],
    given: &'a [&'a str],
) -> Result<Request<'a>, AllocError>
    requires in_grammar { IsSome (intent_of (map string_bytes words.now)) }
    requires given { map (λ word. word.now) given.now ≡ codes "ldraw" ∷ map string_bytes words.now }
    ensures request { IfOk result (λ request. intent_of (map string_bytes words.now) ≡ Some (intent_shown request)) }
    ensures bounds { IfOk result (λ request. IsBounded (intent_shown request)) }
{
    match matches_of_words(alloc, given) {
        Ok(matches) => match request_from(&matches) {
            Some(request) => Ok(request),
            None => unreachable!(),
        },
        Err(error) => match error.kind() {
            ErrorKind::OutOfMemory => Err(AllocError),
            _ => unreachable!(),
        },
    }
}

// What clap reads of the words, the first of which is `ldraw`.
fn matches_of_words<'a>(alloc: Global, words: &'a [&'a str]) -> Result<ArgMatches<'a>, Error>
    ensures ok { (rest : List (List ℕ)) (intent : Intent) → map (λ word. word.now) words.entry.now ≡ codes "ldraw" ∷ rest
        → intent_of rest ≡ Some intent
        → IfOk result (λ m. intent_from (first_value (found_of m)) ≡ Some intent) }
    ensures err { (rest : List (List ℕ)) (intent : Intent) → map (λ word. word.now) words.entry.now ≡ codes "ldraw" ∷ rest
        → intent_of rest ≡ Some intent
        → IfErr result (λ e. kind_of e ≡ ErrorKind.OutOfMemory) }
{
    let command = make_command(alloc)?;
    command.try_get_matches_from(words)
}

fn make_command<'a>(alloc: Global) -> Result<Command<'a>, AllocError>
    ensures { IfOk result (λ c. app_of c ≡ ldraw) }
{
    let command = make_places(alloc);
    let command = with_option(command, alloc, "--colours", "colours");
    let command = with_option(command, alloc, "--main", "main");
    let command = with_option(command, alloc, "--workers", "workers");
    let command = with_option(command, alloc, "--max-entries", "max-entries");
    let command = with_option(command, alloc, "--max-depth", "max-depth");
    with_option(command, alloc, "--cache", "cache")
}

// The command word and two positional words.
fn make_places<'a>(alloc: Global) -> Result<Command<'a>, AllocError>
    ensures { IfOk result (λ c. app_of c ≡ ldraw_places) }
{
    let command = Command::new(alloc, "ldraw");
    let command = with_place(command, alloc, "command")?;
    let command = with_place(command, alloc, "word")?;
    with_place(command, alloc, "second")
}

fn with_place<'a>(
    command: Command<'a>,
    alloc: Global,
    id: &'a str,
) -> Result<Command<'a>, AllocError>
    ensures { IfOk result (λ c. app_of c ≡ with_rule (app_of command.entry) (new_rule id.entry.now)) }
{
    command.arg(Arg::new(alloc, id))
}

// A command that was made, with one option more. The option's id is the word itself, with its hyphens.
fn with_option<'a>(
    command: Result<Command<'a>, AllocError>,
    alloc: Global,
    name: &'a str,
    long: &'a str,
) -> Result<Command<'a>, AllocError>
    ensures { (app : App) → IfOk command.entry (λ c. app_of c ≡ app) → IfOk result (λ c. app_of c ≡ with_option name.entry.now long.entry.now app) }
{
    command?.arg(Arg::new(alloc, name).long(long))
}

fn request_from<'a>(matches: &ArgMatches<'a>) -> Option<Request<'a>>
    ensures intent { option_map intent_shown result ≡ intent_from (first_value (found_of matches.now)) }
    ensures bounds { IfSome result (λ request. IsBounded (intent_shown request)) }
{
    let task = task_in(matches)?;
    Some(Request {
        task,
        options: options_from(matches),
    })
}

fn task_in<'a>(matches: &ArgMatches<'a>) -> Option<Task<'a>>
    ensures task { option_map task_shown result ≡ task_from (first_value (found_of matches.now) (codes "command")) (first_value (found_of matches.now) (codes "word")) (first_value (found_of matches.now) (codes "second")) }
    ensures bounds { IfSome result (λ task. IsBoundedTask (task_shown task)) }
{
    let command = matches.get_str("command")?;
    let word = matches.get_str("word")?;
    task_from(command, word, matches.get_str("second"))
}

fn task_from<'a>(command: &str, word: &'a str, second: Option<&'a str>) -> Option<Task<'a>>
    ensures task { option_map task_shown result ≡ task_of command.now word.entry.now (option_map (λ w. w.now) second.entry) }
    ensures bounds { IfSome result (λ task. IsBoundedTask (task_shown task)) }
{
    match second {
        Some(second) => two_words(command, word, second),
        None => one_word(command, word),
    }
}

fn options_from<'a>(matches: &ArgMatches<'a>) -> Options<'a>
    ensures values { options_shown result ≡ options_from (first_value (found_of matches.now)) }
    ensures workers { IsBetween 1 most_workers result.workers }
    ensures max_entries { IsBetween 1 most_entries result.max_entries }
    ensures max_depth { IsBetween 1 most_depth result.max_depth }
    ensures cache { IsBetween 0 most_cache result.cache }
{
    Options {
        colours: matches.get_str("--colours"),
        main: colour_or_main(matches.get_str("--main")),
        workers: number_or(4, 1, MOST_WORKERS, matches.get_str("--workers")),
        max_entries: number_or(2_000_000, 1, MOST_ENTRIES, matches.get_str("--max-entries")),
        max_depth: number_or(32, 1, MOST_DEPTH, matches.get_str("--max-depth")),
        cache: number_or(524_288, 0, MOST_CACHE, matches.get_str("--cache")),
    }
}

fn number_or(default: u32, low: u32, high: u32, word: Option<&str>) -> u32
    requires { IsBetween low high default }
    ensures bounds { IsBetween low high result }
    ensures value { result ≡ value_or default (number_in low high) (option_map (λ w. w.now) word.entry) }
{
    match word {
        Some(word) => number_in(low, high, word).unwrap_or(default),
        None => default,
    }
}

fn colour_or_main(word: Option<&str>) -> u32
    ensures { result ≡ value_or 16 colour_word (option_map (λ w. w.now) word.entry) }
{
    match word {
        Some(word) => colour(word).unwrap_or(16),
        None => 16,
    }
}
