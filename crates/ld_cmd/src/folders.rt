// Where files lie, by the words and by the environment.
ghost use Rattle.std.specs.Prelude.{◌≡◌, ◌⊎◌, Err, map, string_bytes};
ghost use Rattle.std.specs.Path.{rsplit_once, slash};
ghost use Rattle.std.specs.Result.{result_map_both};
ghost use Rattle.ld_cmd.specs.Folders.{folder_in, library_folder, model_folder};

use std::alloc::{AllocError, Global};
use std::env::VarError;

// Why the command line can't be used.
#[derive(Clone, Copy)]
pub(crate) enum Unusable {
    // A word, or the library's folder, is not UTF-8.
    NotText,
    Memory,
}

impl From<AllocError> for Unusable {
    ghost use Rattle.std.specs.Prelude.{◌≡◌};
    ghost use Rattle.ld_cmd.specs.declared.folders.Unusable.TheVariants.{Memory};

    ghost from_gives = { λ _ e. e ≡ Memory };

    fn from(_error: AllocError) -> Unusable {
        Unusable::Memory
    }
}

// The folder of the library, by what `LDRAWDIR` says.
pub(crate) fn library_folder(
    alloc: Global,
    set: Result<String, VarError>,
) -> Result<String, Unusable>
    // Memory is lacking only where the folder is made up here, or the system said so.
    ensures { ((result ≡ Err Unusable.Memory) × (set ≡ Err VarError.NotPresent)) ⊎ (result_map_both string_bytes (λ e. e) result ≡ library_folder (result_map_both string_bytes (λ e. e) set)) }
{
    match set {
        Ok(folder) => Ok(folder),
        Err(VarError::NotPresent) => match String::from_str(alloc, "ldraw") {
            Ok(folder) => Ok(folder),
            Err(_) => Err(Unusable::Memory),
        },
        Err(VarError::NotUnicode) => Err(Unusable::NotText),
        Err(VarError::OutOfMemory) => Err(Unusable::Memory),
    }
}

// The folder of the model.
pub(crate) fn model_folder(words: &[String]) -> &str
    ensures { result.now ≡ model_folder (map string_bytes words.now) }
{
    match words {
        [_, file, ..] => folder_of(file.as_str()),
        _ => ".",
    }
}

fn folder_of(word: &str) -> &str
    ensures { result.now ≡ folder_in (rsplit_once slash word.now) }
{
    match word.rfind('/') {
        Some(end) => { if end == 0 { "/" } else { &word[..end] } }
        None => ".",
    }
}
