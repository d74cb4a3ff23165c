ghost use Rattle.std.specs.Prelude.{◌≡◌, ◌&&◌, None, Some, is_some, map, string_bytes};
ghost use Rattle.ld_words.specs.Words.{are_options, contains, intent_of, is_option, task_of, with_options, with_rest};

use crate::value::{is_argument, one_word, two_words, value_fits};

/// The line that is written where words are outside the grammar.
pub const USAGE: &[u8] =
    b"usage: ldraw (faces|steps|parts|inline|check) FILE | replay FILE SCRIPT | gen N\n";

/// Whether the words (those after the program's name) are in the grammar: a command word, its one or
/// two positional words, and options of two words each, in any order and none twice.
#[tactic(auto, unfolding(crate::specs::Words::intent_of))]
pub fn is_command(words: &[String]) -> bool
    ensures { result ≡ is_some (intent_of (map string_bytes words.now)) }
{
    match words {
        [command, word, rest @ ..] => {
            is_argument(command.as_str())
                && is_argument(word.as_str())
                && is_command_with(command.as_str(), word.as_str(), rest)
        }
        _ => false,
    }
}

// With what stands behind the first positional word.
fn is_command_with(command: &str, word: &str, rest: &[String]) -> bool
    ensures { result ≡ is_some (with_rest command.now word.now (map string_bytes rest.now)) }
{
    match rest {
        [] => one_word(command, word).is_some(),
        [next, options @ ..] => {
            if is_argument(next.as_str()) {
                is_two_word_command(command, word, next.as_str(), options)
            } else {
                is_one_word_command(command, word, rest)
            }
        }
    }
}

fn is_one_word_command(command: &str, word: &str, options: &[String]) -> bool
    ensures { result ≡ is_some (with_options (map string_bytes options.now) (task_of command.now word.now None)) }
{
    are_options(options) && one_word(command, word).is_some()
}

fn is_two_word_command(command: &str, word: &str, second: &str, options: &[String]) -> bool
    ensures { result ≡ is_some (with_options (map string_bytes options.now) (task_of command.now word.now (Some second.now))) }
{
    are_options(options) && two_words(command, word, second).is_some()
}

fn are_options(words: &[String]) -> bool
    ensures { result ≡ are_options (map string_bytes words.now) }
{
    let mut rest = words;
    while let [name, value, after @ ..] = rest {
        if !is_option(name.as_str(), value.as_str(), after) {
            return false;
        }
        rest = after;
    }
    rest.is_empty()
}

fn is_option(name: &str, value: &str, after: &[String]) -> bool
    ensures { result ≡ is_option name.now value.now (map string_bytes after.now) }
{
    is_argument(value) && value_fits(name, value) && !contains(name, after)
}

fn contains(name: &str, words: &[String]) -> bool
    ensures { result ≡ contains name.now (map string_bytes words.now) }
{
    let mut rest = words;
    while let [word, after @ ..] = rest {
        if word.as_str() == name {
            return true;
        }
        rest = after;
    }
    false
}
