// What is remembered of the lines that are passed.
ghost use Rattle.std.specs.Prelude.{◌≡◌, ◌&&◌, ◌||◌, [], nat_lt, not};
ghost use Rattle.ld_line.specs.Reading.{line_of};
ghost use Rattle.ld_check.specs.Inside.Passing.{IsPassed, header_rank};
ghost use Rattle.ld_check.specs.Inside.Ranking.{IsHigher, place_of_rank};
ghost use Rattle.ld_check.specs.Order.{is_body, is_statement};

use crate::drawing::Drawings;
use crate::order::{Rank, higher, is_body, is_statement, rank_of};
use ld_line::Line;
use std::alloc::Global;

#[derive(Drop)]
pub(crate) struct Passed {
    pub has_body: bool,
    pub has_statement: bool,
    // The highest rank of a line after the first five, while no line of the body is passed.
    pub highest: Option<Rank>,
    pub drawings: Drawings,
}

impl Passed {
    pub(crate) fn new(alloc: Global) -> Passed
        ensures { IsPassed result [] }
    {
        Passed {
            has_body: false,
            has_statement: false,
            highest: None,
            drawings: Drawings::new(alloc),
        }
    }

    // Whether the body begins here without a statement of back face culling before it.
    pub(crate) fn lacks_statement(&self, line: &Line) -> bool
        ensures { result ≡ (is_body line.now && not self.now.has_body && not self.now.has_statement) }
    {
        is_body(line) && !self.has_body && !self.has_statement
    }

    // The rank of the line, if it stands after the first five and before the body.
    pub(crate) fn rank(&self, number: u32, bytes: &[u8], line: &Line) -> Option<Rank>
        requires { line.now ≡ line_of bytes.now }
        ensures { place_of_rank result ≡ header_rank number self.now bytes.now line.now }
    {
        if self.in_header(number, line) {
            rank_of(bytes, line)
        } else {
            None
        }
    }

    fn in_header(&self, number: u32, line: &Line) -> bool
        ensures { result ≡ (nat_lt 5 number && not self.now.has_body && not (is_body line.now)) }
    {
        number > 5 && !self.has_body && !is_body(line)
    }

    // One line more is passed, of this rank in the header.
    pub(crate) fn note(&mut self, rank: Option<Rank>, line: &Line)
        ensures body { self.new.has_body ≡ (self.old.has_body || is_body line.now) }
        ensures statement { self.new.has_statement ≡ (self.old.has_statement || is_statement line.now) }
        ensures highest { IsHigher self.old.highest rank self.new.highest }
        ensures drawings { self.new.drawings ≡ self.old.drawings }
    {
        self.has_body = self.has_body || is_body(line);
        self.has_statement = self.has_statement || is_statement(line);
        self.highest = higher(self.highest, rank);
    }
}
