//! Worked lists of words.

ghost use Rattle.std.specs.Prelude.{IsSome, map, string_bytes};
ghost use Rattle.ld_words.specs.Words.{intent_of};

use ld_words::{Options, Request, Task, given_words, is_command, read_request};
use std::alloc::{AllocError, Global};

// Words with a space between each two, `%` being an empty word, and whether they are in the grammar, or
// the request that they make: its task, then the colour file and the numbers of the options.
const WORDS: &str = " => no
% => no
faces => no
faces % => no
% m.ldr => no
faces m.ldr => yes
steps m.ldr => yes
parts m.ldr => yes
inline m.ldr => yes
check m.ldr => yes
Faces m.ldr => no
face m.ldr => no
help => no
help m.ldr => no
--help => no
-faces m.ldr => no
faces --help => no
faces m.ldr --help => no
faces m.ldr n.ldr => no
faces m.ldr % => no
faces -m.ldr => no
faces - => no
faces m.ldr - => no
faces -- m.ldr => no
faces m.ldr -- => no
faces m.ldr -- --main 4 => no
replay m.ldr => no
replay m.ldr s.txt => yes
replay m.ldr s.txt t.txt => no
replay m.ldr --main 4 => no
replay m.ldr --main 4 s.txt => no
replay m.ldr % => no
replay m.ldr -s.txt => no
replay m.ldr s.txt --main 4 => yes
gen => no
gen 0 => no
gen 1 => yes
gen 0000000001 => yes
gen 00000000001 => no
gen 100000 => yes
gen 100001 => no
gen 4294967297 => no
gen ten => no
gen +1 => no
gen -1 => no
gen 0x1 => no
gen 1 2 => no
gen 1 --workers 16 => yes
faces --main 4 m.ldr => no
faces m.ldr --main=4 => no
faces m.ldr --main => no
faces m.ldr --main 4 => yes
faces m.ldr --main 4 --main 4 => no
faces m.ldr --main 4 --cache 1 --main 5 => no
faces m.ldr --main 4 5 => no
faces m.ldr --main 4 % => no
faces m.ldr --main red => no
faces m.ldr --main % => no
faces m.ldr --main -4 => no
faces m.ldr --main --cache => no
faces m.ldr --main 0000000016 => yes
faces m.ldr --main 00000000016 => no
faces m.ldr --main 4294967295 => yes
faces m.ldr --main 4294967296 => no
faces m.ldr --main 0X2FF8000 => yes
faces m.ldr --main 0xffffffff => yes
faces m.ldr --main 0x002ff8000 => no
faces m.ldr --main 0x => no
faces m.ldr --colours => no
faces m.ldr --colours % => no
faces m.ldr --colours -c.ldr => no
faces m.ldr --colours c.ldr => yes
faces m.ldr --colours word --main 4 => yes
faces m.ldr --colours=c.ldr => no
faces m.ldr --colours c.ldr --colours d.ldr => no
faces m.ldr --colors c.ldr => no
faces m.ldr --Main 4 => no
faces m.ldr -main 4 => no
faces m.ldr main 4 => no
faces m.ldr --command x => no
faces m.ldr --workers 0 => no
faces m.ldr --workers 1 => yes
faces m.ldr --workers 16 => yes
faces m.ldr --workers 17 => no
faces m.ldr --workers 0000000016 => yes
faces m.ldr --workers 00000000016 => no
faces m.ldr --workers => no
faces m.ldr --workers=1 => no
faces m.ldr --workers 1 --workers 1 => no
faces m.ldr --max-entries 0 => no
faces m.ldr --max-entries 1 => yes
faces m.ldr --max-entries 4000000 => yes
faces m.ldr --max-entries 4000001 => no
faces m.ldr --max-entries => no
faces m.ldr --max-entries=1 => no
faces m.ldr --max-entries 1 --max-entries 1 => no
faces m.ldr --max-depth 0 => no
faces m.ldr --max-depth 1 => yes
faces m.ldr --max-depth 64 => yes
faces m.ldr --max-depth 65 => no
faces m.ldr --max-depth => no
faces m.ldr --max-depth=1 => no
faces m.ldr --max-depth 1 --max-depth 1 => no
faces m.ldr --cache 0 => yes
faces m.ldr --cache 8000000 => yes
faces m.ldr --cache 8000001 => no
faces m.ldr --cache 0x10 => no
faces m.ldr --cache => no
faces m.ldr --cache=1 => no
faces m.ldr --cache 1 --cache 1 => no
faces m.ldr --cache 1 --workers 1 --main 1 --max-depth 1 --colours 1 --max-entries 1 => yes
faces m.ldr => Faces m.ldr, - 16 4 2000000 32 524288
steps a/m.ldr --main 50298880 => Steps a/m.ldr, - 50298880 4 2000000 32 524288
parts word --cache 0 => Parts word, - 16 4 2000000 32 0
inline m.ldr --colours second => Inline m.ldr, second 16 4 2000000 32 524288
check command --max-depth 64 => Check command, - 16 4 2000000 64 524288
replay m.mpd s.txt --workers 1 => replay m.mpd s.txt, - 16 1 2000000 32 524288
gen 0000000025 --max-entries 3 => gen 25, - 16 4 3 32 524288
faces m.ldr --cache 7 --max-depth 2 --max-entries 4000000 --workers 16 --main 0x2ff8000 --colours c.ldr => Faces m.ldr, c.ldr 50298880 16 4000000 2 7";

fn push_word(alloc: Global, word: &str, into: &mut Vec<String>) -> Result<(), AllocError> {
    let text = if word == "%" { "" } else { word };
    let word = String::from_str(alloc, text)?;
    into.push(word)?;
    Ok(())
}

fn words(alloc: Global, text: &str) -> Result<Vec<String>, AllocError> {
    let mut words = Vec::new(alloc);
    if text.is_empty() {
        return Ok(words);
    }
    for word in text.split(' ') {
        push_word(alloc, word, &mut words)?;
    }
    Ok(words)
}

fn task_text(alloc: Global, task: Task) -> Result<String, AllocError> {
    match task {
        Task::Show(what, file) => format!(in alloc; "{what:?} {file}"),
        Task::Replay(file, script) => format!(in alloc; "replay {file} {script}"),
        Task::Generate(count) => format!(in alloc; "gen {count}"),
    }
}

fn limits_text(alloc: Global, options: &Options) -> Result<String, AllocError> {
    format!(in alloc;
        "{} {} {}",
        options.max_entries, options.max_depth, options.cache
    )
}

fn options_text(alloc: Global, options: &Options) -> Result<String, AllocError> {
    let colours = options.colours.unwrap_or("-");
    let limits = limits_text(alloc, options)?;
    format!(in alloc; "{colours} {} {} {limits}", options.main, options.workers)
}

fn shown(alloc: Global, request: &Request) -> Result<String, AllocError> {
    let task = task_text(alloc, request.task)?;
    let options = options_text(alloc, &request.options)?;
    format!(in alloc; "{task}, {options}")
}

fn read(alloc: Global, words: &[String]) -> Result<String, AllocError>
    requires { IsSome (intent_of (map string_bytes words.now)) }
{
    let given = given_words(alloc, words)?;
    let request = read_request(alloc, words, given.as_slice())?;
    shown(alloc, &request)
}

// The request that the words make, if they are in the grammar.
fn request_text(alloc: Global, text: &str) -> Result<Option<String>, AllocError> {
    let words = words(alloc, text)?;
    if !is_command(words.as_slice()) {
        return Ok(None);
    }
    let text = read(alloc, words.as_slice())?;
    Ok(Some(text))
}

// Whether the words make this request: any one for `yes`, and none for `no`.
fn is_asked(alloc: Global, text: &str, want: &str) -> Result<bool, AllocError> {
    match request_text(alloc, text)? {
        Some(request) => Ok(want == "yes" || request.as_str() == want),
        None => Ok(want == "no"),
    }
}

fn row_holds(alloc: Global, row: &str) -> Result<bool, AllocError> {
    match row.split_once(" => ") {
        Some((text, want)) => is_asked(alloc, text, want),
        None => Ok(false),
    }
}

#[test]
fn requests_of_words(rt: HostRuntime) -> Result<(), AllocError> {
    for row in WORDS.lines() {
        assert!(rt; row_holds(rt.alloc(), row)?, "{row}");
    }
    Ok(())
}
