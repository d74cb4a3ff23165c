ghost use Rattle.std.specs.Prelude.{◌≡◌, ◌<◌, IfSome, is_some, option_map};
ghost use Rattle.ld_line.specs.Colour.{colour_word};
ghost use Rattle.ld_words.specs.Shown.{task_shown};
ghost use Rattle.ld_words.specs.Words.{IsBetween, IsBoundedTask, is_argument, number_in, one_word, two_words, value_fits};

use crate::listing::listing_of;
use crate::request::Task;
use ld_line::{read_colour, read_number};

pub(crate) const MOST_WORKERS: u32 = 16;

pub(crate) const MOST_ENTRIES: u32 = 4_000_000;

pub(crate) const MOST_DEPTH: u32 = 64;

pub(crate) const MOST_CACHE: u32 = 8_000_000;

const MOST_BRICKS: u32 = 100_000;

// Neither empty nor with `-` at its start.
pub(crate) fn is_argument(word: &str) -> bool
    ensures { result ≡ is_argument word.now }
{
    match word.as_bytes() {
        [first, ..] => *first != b'-',
        [] => false,
    }
}

pub(crate) fn number_in(low: u32, high: u32, word: &str) -> Option<u32>
    ensures number { result ≡ number_in low high word.now }
    ensures bounds { IfSome result (λ number. IsBetween low high number) }
{
    let value = read_number(word.as_bytes())?;
    if low <= value && value <= high {
        Some(value)
    } else {
        None
    }
}

pub(crate) fn colour(word: &str) -> Option<u32>
    ensures { result ≡ colour_word word.now }
{
    read_colour(word.as_bytes())
}

// The value fits the option of this name.
pub(crate) fn value_fits(name: &str, value: &str) -> bool
    ensures { result ≡ value_fits name.now value.now }
{
    match name {
        "--colours" => true,
        "--main" => colour(value).is_some(),
        "--workers" => number_in(1, MOST_WORKERS, value).is_some(),
        "--max-entries" => number_in(1, MOST_ENTRIES, value).is_some(),
        "--max-depth" => number_in(1, MOST_DEPTH, value).is_some(),
        "--cache" => number_in(0, MOST_CACHE, value).is_some(),
        _ => false,
    }
}

// What a command with one positional word is to do.
pub(crate) fn one_word<'a>(command: &str, word: &'a str) -> Option<Task<'a>>
    ensures task { option_map task_shown result ≡ one_word command.now word.entry.now }
    ensures bounds { IfSome result (λ task. IsBoundedTask (task_shown task)) }
{
    if command == "gen" {
        let count = number_in(1, MOST_BRICKS, word)?;
        return Some(Task::Generate(count));
    }
    let what = listing_of(command)?;
    Some(Task::Show(what, word))
}

// What a command with two positional words is to do.
pub(crate) fn two_words<'a>(command: &str, file: &'a str, script: &'a str) -> Option<Task<'a>>
    ensures task { option_map task_shown result ≡ two_words command.now file.entry.now script.entry.now }
    ensures bounds { IfSome result (λ task. IsBoundedTask (task_shown task)) }
{
    if command == "replay" {
        Some(Task::Replay(file, script))
    } else {
        None
    }
}
