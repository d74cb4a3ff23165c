ghost use Rattle.std.specs.Prelude.{◌≡◌};
ghost use Rattle.ld_words.specs.Words.{listing_of};

/// What is shown of a file, by the command word of the same name.
#[derive(Clone, Copy, Debug, PartialEq, Eq)]
pub enum Listing {
    Faces,
    Steps,
    Parts,
    Inline,
    Check,
}

pub(crate) fn listing_of(word: &str) -> Option<Listing>
    ensures { result ≡ listing_of word.now }
{
    match word {
        "faces" => Some(Listing::Faces),
        "steps" => Some(Listing::Steps),
        "parts" => Some(Listing::Parts),
        "inline" => Some(Listing::Inline),
        "check" => Some(Listing::Check),
        _ => None,
    }
}
