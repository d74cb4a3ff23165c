ghost use Rattle.std.specs.Prelude.{◌≡◌, true, false, Some, None, Ok, Err, pos, negsuc, codes};
ghost use Rattle.ld_num.specs.Examples.{at, enlarged, origin};
ghost use Rattle.ld_num.specs.Number.{dec_of};
ghost use Rattle.ld_num.specs.Placing.{is_mirrored, is_singular, moved};

use ld_num::{
    Dec, NumError, Placement, Point, mirrored, place, print_dec, read_dec, singular, split_dec,
};
use std::alloc::{AllocError, Global};

// The definitions compute.
#[tactic(auto, unfolding(ld_num::specs::Number::dec_of, ld_num::specs::Number::numeral_of, ld_num::specs::Number::powers_of))]
fn numerals_compute()
    ensures tie { dec_of (codes "1.0000005") ≡ Ok (pos 1000001) }
    ensures negative { dec_of (codes "-.5") ≡ Ok (negsuc 499999) }
    ensures no_negative_zero { dec_of (codes "-0") ≡ Ok (pos 0) }
    ensures raised { dec_of (codes "1e6") ≡ Ok (pos 1000000000000) }
    ensures lowered { dec_of (codes "-25E-02") ≡ Ok (negsuc 249999) }
    ensures greatest { dec_of (codes "1000000.0000004") ≡ Ok (pos 1000000000000) }
    ensures out_of_range { dec_of (codes "1000000.0000005") ≡ Err NumError.OutOfRange }
    ensures two_periods { dec_of (codes "1.2.3") ≡ Err NumError.NotANumber }
    ensures no_exponent { dec_of (codes "1e+") ≡ Err NumError.NotANumber }
    ensures long_exponent { dec_of (codes "1e1234") ≡ Err NumError.NotANumber }
{}

// Placements by the definition: a point through two references, each of which rounds; ties; a matrix of zeros; the range.
#[tactic(auto, unfolding(ld_num::specs::Placing::moved, ld_num::specs::Placing::is_mirrored, ld_num::specs::Placing::is_singular))]
fn placements_compute()
    ensures inner { moved (enlarged origin (pos 333333)) (at (pos 1000000) (pos 1000001) (pos 1500000)) ≡ Some (at (pos 333333) (pos 333333) (pos 500000)) }
    ensures outer { moved (enlarged origin (pos 1500000)) (at (pos 333333) (pos 333333) (pos 0)) ≡ Some (at (pos 500000) (pos 500000) (pos 0)) }
    ensures ties { moved (enlarged origin (pos 500000)) (at (pos 1) (negsuc 0) (pos 3)) ≡ Some (at (pos 1) (negsuc 0) (pos 2)) }
    ensures no_negative_zero { moved (enlarged origin (pos 499999)) (at (negsuc 0) (pos 1) (negsuc 0)) ≡ Some origin }
    ensures tie_past_offset { moved (enlarged (at (pos 1) (negsuc 0) (pos 0)) (pos 500000)) (at (negsuc 2) (pos 1) (pos 0)) ≡ Some (at (negsuc 0) (negsuc 0) (pos 0)) }
    ensures zeros { moved (enlarged (at (pos 1000000) (pos 2000000) (pos 3000000)) (pos 0)) (at (pos 5000000) (pos 0) (pos 0)) ≡ Some (at (pos 1000000) (pos 2000000) (pos 3000000)) }
    ensures greatest { moved (enlarged origin (pos 1000000)) (at (pos 1000000000000) (negsuc 999999999999) (pos 0)) ≡ Some (at (pos 1000000000000) (negsuc 999999999999) (pos 0)) }
    ensures out_of_range { moved (enlarged (at (pos 0) (pos 0) (negsuc 0)) (pos 1000000)) (at (pos 0) (pos 0) (negsuc 999999999999)) ≡ None }
    ensures mirrored { is_mirrored (enlarged origin (negsuc 999999)) ≡ true }
    ensures flat { is_mirrored (enlarged origin (pos 0)) ≡ false }
    ensures singular { is_singular (enlarged origin (pos 0)) ≡ true }
    ensures not_singular { is_singular (enlarged origin (negsuc 999999)) ≡ false }
{}

// What was read of a text, as it is printed.
fn told(alloc: Global, read: Result<Dec, NumError>) -> Result<Vec<u8>, AllocError> {
    match read {
        Ok(dec) => printed(alloc, dec),
        Err(NumError::NotANumber) => Vec::from_slice(alloc, b"no number"),
        Err(NumError::OutOfRange) => Vec::from_slice(alloc, b"too large"),
    }
}

fn printed(alloc: Global, dec: Dec) -> Result<Vec<u8>, AllocError> {
    let mut line = Vec::new(alloc);
    print_dec(dec, &mut line)?;
    Ok(line)
}

// In each line a text and what is printed of its number. A text that is printed so is read back.
const ROWS: &str = "\
0|0
-0|0
+0|0
000|0
0.|0
.0|0
-.00|0
-0e999|0
0.0e-999|0
1|1
+5|5
-12|-12
007|7
100|100
.5|0.5
5.|5
-.5|-0.5
+.250|0.25
12.345678|12.345678
-0.70711|-0.70711
-10.203040|-10.20304
1.000010|1.00001
999999.999999|999999.999999
2e3|2000
2.5E-1|0.25
25e-2|0.25
-.5e-3|-0.0005
1E+006|1000000
0.001e3|1
0.000001e12|1000000
10000000e-1|1000000
1234567e-7|0.123457
1e-6|0.000001
-1e-6|-0.000001
1e-7|0
1e-999|0
1.5e0|1.5
0.0000004|0
-0.0000004|0
0.0000005|0.000001
-0.0000005|-0.000001
0.00000049999999|0
0.0000015|0.000002
0.0000025|0.000003
-0.0000025|-0.000003
0.0000024999|0.000002
5e-7|0.000001
-25e-7|-0.000003
49e-8|0
51e-8|0.000001
4e-7|0
95e-8|0.000001
1.0000005|1.000001
1.00000049999999999999999999|1
0.9999999|1
18446744073709551616e-14|184467.440737
99999999999999999999e-20|1
1000000|1000000
-1000000|-1000000
999999.9999995|1000000
1000000.0000004|1000000
-1000000.0000004999|-1000000
1000000.0000005|too large
-1000000.0000005|too large
1000000.000001|too large
1000001|too large
1e7|too large
1E+007|too large
-1e999|too large
0.1e8|too large
18446744073709551616|too large
340282366920938463463374607431768211457|too large
|no number
+|no number
-.|no number
.|no number
e5|no number
.e5|no number
1e|no number
1e+|no number
1e1234|no number
1e-0001|no number
1e5.|no number
1e.5|no number
1e5e5|no number
1e+-5|no number
1.2.3|no number
1..2|no number
--1|no number
+-1|no number
1-|no number
 1|no number
1 |no number
0x1|no number
1f|no number
1,5|no number
/1|no number
1:|no number
inf|no number
٣|no number
";

fn is_bytes(bytes: Result<Vec<u8>, AllocError>, want: &[u8]) -> bool {
    match bytes {
        Ok(bytes) => bytes.as_slice() == want,
        Err(_) => false,
    }
}

fn row_holds(alloc: Global, row: &str) -> bool {
    match row.split_once('|') {
        Some((text, want)) => is_bytes(told(alloc, read_dec(text.as_bytes())), want.as_bytes()),
        None => false,
    }
}

#[test]
fn reads_and_prints_each_row(rt: HostRuntime) {
    let alloc = rt.alloc();
    for row in ROWS.lines() {
        assert!(rt; row_holds(alloc, row), "{row}");
    }
}

// In each line a text, what is printed of the number at its front, and what stands behind that field.
const FRONTS: &str = "\
12|12|
12 5|12| 5
-0.5\t\t7 |-0.5|\t\t7 
1.5. 2|no number| 2
+3e2 x|300| x
1.23456789 2|1.234568| 2
5.\t|5|\t
1e7 1|too large| 1
1000000.5|too large|
12x 4|no number| 4
12\r|no number|
 12|no number| 12
\t|no number|\t
|no number|
";

fn split_told(alloc: Global, text: &str) -> Result<Vec<u8>, AllocError> {
    let (read, rest) = split_dec(text.as_bytes());
    let mut line = told(alloc, read)?;
    line.push(b'|')?;
    line.extend_from_slice(rest)?;
    Ok(line)
}

fn front_holds(alloc: Global, row: &str) -> bool {
    match row.split_once('|') {
        Some((text, want)) => is_bytes(split_told(alloc, text), want.as_bytes()),
        None => false,
    }
}

#[test]
fn splits_each_row(rt: HostRuntime) {
    let alloc = rt.alloc();
    for row in FRONTS.lines() {
        assert!(rt; front_holds(alloc, row), "{row:?}");
    }
}

// What was read of 100 000 bytes, all of them one digit but the first and the last.
fn told_of_many(alloc: Global, first: u8, digit: u8, last: u8) -> Result<Vec<u8>, AllocError> {
    let mut text = Vec::new(alloc);
    text.push(first)?;
    for _ in 0..99_998 {
        text.push(digit)?;
    }
    text.push(last)?;
    told(alloc, read_dec(text.as_slice()))
}

#[test]
fn reads_many_digits(rt: HostRuntime) {
    let alloc = rt.alloc();
    assert!(rt; is_bytes(told_of_many(alloc, b'9', b'9', b'9'), b"too large"));
    assert!(rt; is_bytes(told_of_many(alloc, b'.', b'9', b'9'), b"1"));
    assert!(rt; is_bytes(told_of_many(alloc, b'0', b'0', b'0'), b"0"));
    assert!(rt; is_bytes(told_of_many(alloc, b'0', b'0', b'x'), b"no number"));
}

// In each line twelve numbers of a placement, three of a point, and what is printed of the point moved.
const PLACED: &str = "\
0 0 0 1 0 0 0 1 0 0 0 1|-1.5 2 1000000|-1.5 2 1000000
0 0 0 0.333333 0 0 0 1 0 0 0 1|1.5 0 0|0.5 0 0
0 0 0 3 0 0 0 1 0 0 0 1|0.5 0 0|1.5 0 0
1 2 3 0 0 0 0 0 0 0 0 0|5 -5 1000000|1 2 3
1 2 3 2 3 5 7 11 13 17 19 23|100 10 1|236 825 1916
0 0 0 0.5 0 0 0 0.5 0 0 0 0.5|0.000001 -0.000001 0.000003|0.000001 -0.000001 0.000002
0.000001 -0.000001 0 0.5 0 0 0 0.5 0 0 0 -0.5|-0.000003 0.000003 0.000001|-0.000001 0.000001 -0.000001
0 0 0 0.4 0.1 0 -0.4 -0.1 0 0.4 0 0.09|0.000001 0.000001 0.000001|0.000001 -0.000001 0
0 0 0 0.499999 0 0 0 -0.499999 0 0 0 0|0.000001 0.000001 1|0 0 0
0 0 0 1000 0 0 0 -1000 0 0 0 999.9999|1000 1000 1000|1000000 -1000000 999999.9
0 0 0 1000 0 0 0 1 0 0 0 1|1000.000001 0 0|none
0 0 0 1 0 0 0 -1000 0 0 0 1|0 1000.000001 0|none
0 0 -0.000001 1 0 0 0 1 0 0 0 -1|0 0 1000000|none
0 0 0.000001 1 0 0 0 1 0 0 0 -1|0 0 1000000|0 0 -999999.999999
1000000 0 0 1000000 1000000 1000000 0 1 0 0 0 1|1000000 1000000 1000000|none
0 0 0 1000000 -1000000 0.5 0 1 0 0 0 1|1000000 1000000 0.000001|0.000001 1000000 0.000001
0 0 0 18.446744 0 0 0 18446.744073 0 0 0 -18.446745|1000000 1000000 0.000001|none
0 0 0 18.446744073 0 0 0 18.446744 0 0 0 -18.446744|1000 1000 -1000|18446.744 18446.744 18446.744
-1000000 0 0 1000000 0 0 0 1000000 0 0 0 1000000|1.999999 0.999999 -1|999999 999999 -1000000
";

// The numbers of a line that gives some, and zeros.
fn numbers(text: &str) -> [Dec; 12] {
    let mut numbers = [Dec::zero(); 12];
    for (index, word) in text.split(' ').enumerate() {
        if index < 12 {
            numbers[index] = number(word);
        }
    }
    numbers
}

fn number(word: &str) -> Dec {
    match read_dec(word.as_bytes()) {
        Ok(dec) => dec,
        Err(_) => Dec::zero(),
    }
}

fn placement(text: &str) -> Placement {
    let [x, y, z, a, b, c, d, e, f, g, h, i] = numbers(text);
    Placement {
        x,
        y,
        z,
        a,
        b,
        c,
        d,
        e,
        f,
        g,
        h,
        i,
    }
}

fn moved_text(alloc: Global, by: &str, point: &str) -> Result<Vec<u8>, AllocError> {
    let [x, y, z, ..] = numbers(point);
    match place(&placement(by), Point { x, y, z }) {
        Some(moved) => printed_point(alloc, &moved),
        None => Vec::from_slice(alloc, b"none"),
    }
}

fn printed_point(alloc: Global, point: &Point) -> Result<Vec<u8>, AllocError> {
    let mut line = printed(alloc, point.x)?;
    print_behind_space(point.y, &mut line)?;
    print_behind_space(point.z, &mut line)?;
    Ok(line)
}

fn print_behind_space(dec: Dec, line: &mut Vec<u8>) -> Result<(), AllocError> {
    line.push(b' ')?;
    print_dec(dec, line)
}

fn placed_row_holds(alloc: Global, row: &str) -> bool {
    let Some((by, rest)) = row.split_once('|') else {
        return false;
    };
    match rest.split_once('|') {
        Some((point, want)) => is_bytes(moved_text(alloc, by, point), want.as_bytes()),
        None => false,
    }
}

#[test]
fn places_each_row(rt: HostRuntime) {
    let alloc = rt.alloc();
    for row in PLACED.lines() {
        assert!(rt; placed_row_holds(alloc, row), "{row}");
    }
}

// In each line twelve numbers of a placement, and whether it is mirrored or singular.
const MATRICES: &str = "\
9 9 9 -1 0 0 0 1 0 0 0 1|mirrored
0 0 0 1 2 3 4 5 6 7 8 9.000001|mirrored
0 0 0 1000000 0 0 0 -1000000 0 0 0 1000000|mirrored
0 0 0 1 0 0 0 1 0 0 0 1|neither
0 0 0 1 2 3 4 5 6 7 8 8.999999|neither
0 0 0 1 2 3 4 5 6 7 8 9|singular
0 0 0 1 0 0 0 0 0 0 0 1|singular
";

fn told_matrix(by: &Placement) -> &'static str {
    told_turn(mirrored(by), singular(by))
}

fn told_turn(mirrored: bool, singular: bool) -> &'static str {
    if mirrored && singular {
        "both"
    } else if mirrored {
        "mirrored"
    } else if singular {
        "singular"
    } else {
        "neither"
    }
}

fn matrix_holds(row: &str) -> bool {
    match row.split_once('|') {
        Some((by, want)) => told_matrix(&placement(by)) == want,
        None => false,
    }
}

#[test]
fn tells_each_matrix(rt: HostRuntime) {
    for row in MATRICES.lines() {
        assert!(rt; matrix_holds(row), "{row}");
    }
}
