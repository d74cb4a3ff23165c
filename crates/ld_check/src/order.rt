// The order of a part's header lines (Official Library Header Specification).
ghost use Rattle.std.specs.Prelude.{◌≡◌};
ghost use Rattle.std.specs.Ordering.{nat_cmp};
ghost use Rattle.ld_line.specs.Field.{fields};
ghost use Rattle.ld_line.specs.Reading.{line_of};
ghost use Rattle.ld_check.specs.Inside.Ranking.{IsHigher, place_of_rank, rank_place};
ghost use Rattle.ld_check.specs.Order.{is_below, is_body, is_statement, rank_of, rank_of_fields, rank_of_word};
ghost use Rattle.ld_check.specs.declared.order.Rank.{Rank as SpecRank};

use ld_line::{Line, split_field};

// The kinds of header lines that come after the first five, in their order.
#[derive(Clone, Copy, PartialEq, Eq, PartialOrd, Ord)]
pub(crate) enum Rank {
    Help,
    Bfc,
    Category,
    Keywords,
    CommandLine,
    History,
}

// Ranks are ordered by their places.
fn rank_law()
    ensures { (rank other : SpecRank) → ⟦<Rank as Ord>⟧.cmp rank other ≡ nat_cmp (rank_place rank) (rank_place other) }
{}

pub(crate) fn is_body(line: &Line) -> bool
    ensures { result ≡ is_body line.now }
{
    matches!(line, Line::Ref { .. } | Line::Draw { .. })
}

pub(crate) fn is_statement(line: &Line) -> bool
    ensures { result ≡ is_statement line.now }
{
    matches!(line, Line::Bfc(_))
}

// The rank of a line of these bytes.
pub(crate) fn rank_of(bytes: &[u8], line: &Line) -> Option<Rank>
    requires { line.now ≡ line_of bytes.now }
    ensures { place_of_rank result ≡ rank_of bytes.now }
{
    if is_statement(line) {
        return Some(Rank::Bfc);
    }
    rank_by_fields(bytes)
}

fn rank_by_fields(bytes: &[u8]) -> Option<Rank>
    ensures { place_of_rank result ≡ rank_of_fields (fields bytes.now) }
{
    let (kind, rest) = split_field(bytes)?;
    let (word, _) = split_field(rest)?;
    if kind == b"0".as_slice() {
        rank_by_word(word)
    } else {
        None
    }
}

fn rank_by_word(word: &[u8]) -> Option<Rank>
    ensures { place_of_rank result ≡ rank_of_word word.now }
{
    if word == b"!HELP".as_slice() {
        Some(Rank::Help)
    } else if word == b"!CATEGORY".as_slice() {
        Some(Rank::Category)
    } else if word == b"!KEYWORDS".as_slice() {
        Some(Rank::Keywords)
    } else if word == b"!CMDLINE".as_slice() {
        Some(Rank::CommandLine)
    } else if word == b"!HISTORY".as_slice() {
        Some(Rank::History)
    } else {
        None
    }
}

pub(crate) fn is_below(rank: Option<Rank>, earlier: Option<Rank>) -> bool
    ensures { result ≡ is_below (place_of_rank rank) (place_of_rank earlier) }
{
    rank_law();
    match (rank, earlier) {
        (Some(rank), Some(earlier)) => rank < earlier,
        _ => false,
    }
}

// The higher of two ranks: what is below one of them is below it.
pub(crate) fn higher(first: Option<Rank>, second: Option<Rank>) -> Option<Rank>
    ensures { IsHigher first second result }
{
    if first.is_none() || is_below(first, second) {
        second
    } else {
        first
    }
}
