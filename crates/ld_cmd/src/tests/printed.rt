//! Printed entries, faults, parts lists, steps and findings.
use ld_check::Finding;
use ld_colour::{Colour, Table};
use ld_entry::{Entry, Fault, Source, What};
use ld_line::{Kind, Line, RotWord, Winding, lines_of, read_line};
use ld_names::{FileId, Folder, Lines, List, TextId, normal};
use ld_num::Point;
use ld_report::{parts_list, print_entry, print_fault, print_findings, print_parts, print_steps};
use ld_steps::{StepPart, Turn};
use ld_texts::Texts;
use std::alloc::{AllocError, Global};
use std::num::ParseIntError;
use std::test::Fail;

// Names the type of an entry's points, which the prover asks for where entries move.
const NO_POINTS: [Point; 0] = [];

const COLOURS: &[u8] = b"0 !COLOUR Red CODE 4 VALUE #C91A09 EDGE #333333\n\
0 !COLOUR Blue CODE 1 VALUE 0x0055bf EDGE 0\n\
0 !COLOUR Black CODE 0 VALUE #05131D EDGE #595959";

// The lines of text 0; text 1 is a part, text 2 a primitive, and texts 3 and 4 lie in further
// documents.
const MODEL: &[u8] = b"1 16 0 0 0 1 0 0 0 1 0 0 0 1 S\\Gone.DAT\n\
1 16 0 0 0 1 0 0 0 1 0 0 0 1 C:\\x.dat\n\
6 junk";

// A colour, culling, a text and a line, and what is drawn there or a part; and the printed entry.
const ENTRIES: &str =
    "e4|nocert clip ccw|0|1|2 24 0 0 0 1 0 0 => line e4 #333333 nocert clip ccw 0,0,0 1,0,0 model/my car.ldr:1
1|nocert clip ccw|0|2|2 24 0 0 0 1 0 0 => line 1 #0055BF nocert clip ccw 0,0,0 1,0,0 model/my car.ldr:2
e1|cert clip cw|0|4294967295|2 24 0 0 0 1 0 0 => line e1 #05131D cert clip cw 0,0,0 1,0,0 model/my car.ldr:4294967295
m|nocert clip ccw|0|1|3 16 0 0 0 1.0000005 0 0 0 -.5 0 => tri 16 - nocert clip ccw 0,0,0 1.000001,0,0 0,-0.5,0 model/my car.ldr:1
E|cert noclip ccw|0|7|5 24 1000000 0 0 0 -1e6 0 1 2 3 4 5 6 => opt 24 - cert noclip ccw 1000000,0,0 0,-1000000,0 1,2,3 4,5,6 model/my car.ldr:7
d16744448|nocert noclip cw|2|1|2 24 0 0 0 1 0 0 => line 0x2FF8000 #FF8000 nocert noclip cw 0,0,0 1,0,0 p/stud.dat:1
d3355443|nocert clip ccw|0|2|2 24 0 0 0 1 0 0 => line 0x2333333 #333333 nocert clip ccw 0,0,0 1,0,0 model/my car.ldr:2
4294967295|cert clip ccw|1|7|4 16 -40 0 -20 -40 0 20 40 0 20 40 0 -20 => quad 4294967295 - cert clip ccw -40,0,-20 -40,0,20 40,0,20 40,0,-20 parts/3001.dat:7
4|nocert clip ccw|0|1|1 => part 4 #C91A09 parts/3001.dat at model/my car.ldr:1
e2|nocert clip ccw|2|30|2 => part e2 - p/stud.dat at p/stud.dat:30
1|nocert clip ccw|3|2|2 24 0 0 0 1 0 0 => line 1 #0055BF nocert clip ccw 0,0,0 1,0,0 model2/my car.ldr:2
4|nocert clip ccw|0|1|4 => part 4 #C91A09 model16/my car.ldr at model/my car.ldr:1
m|nocert clip ccw|0|1|9 => part 16 -  at model/my car.ldr:1";

// Faults; and the text and the line of each, and its printed line.
const WHATS: [What; 9] = [
    What::Missing,
    What::Cycle,
    What::Unnamed,
    What::TooDeep,
    What::Range,
    What::Malformed,
    What::TooMany,
    What::Missing,
    What::Cycle,
];

const FAULTS: &str = "0|1 => fault missing model/my car.ldr:1 s/gone.dat
0|1 => fault cycle model/my car.ldr:1 s/gone.dat
0|2 => fault unnamed model/my car.ldr:2
0|1 => fault toodeep model/my car.ldr:1
1|2 => fault range parts/3001.dat:2
0|3 => fault malformed model/my car.ldr:3
2|4 => fault toomany p/stud.dat:4
0|2 => fault missing model/my car.ldr:2
0|4 => fault cycle model/my car.ldr:4";

// Parts in their colours, or what is drawn; and the printed parts list, whose lines end at `/ `.
const PARTS: &str =
    "1:4 1:4 1:4 1:14 1:14 1:1 1:1 1:1 1:1 1:4 1:4 1:1 => 5 4 parts/3001.dat/ 2 14 parts/3001.dat/ 5 1 parts/3001.dat/ 
2:m drawn 1:m 2:e4 drawn 2:4 2:e4 1:m 2:d5 => 1 16 p/stud.dat/ 2 16 parts/3001.dat/ 2 e4 p/stud.dat/ 1 4 p/stud.dat/ 1 0x2000005 p/stud.dat/ 
drawn => ";

// Drawn entries, and steps by their range among them and the lines that turn their views; and the
// printed steps, whose lines end at `/ `.
const STEPPED: &str = "m|nocert clip ccw|0|1|2 24 0 0 0 1 0 0
m|nocert clip ccw|1|1|2 24 0 0 0 3 0 0
m|nocert clip ccw|1|3|2 24 0 0 0 4 0 0
m|nocert clip ccw|0|8|2 24 0 0 0 2 0 0";

const STEPS: &str =
    "0..1| => step 1 entries 1 view -/ line 16 - nocert clip ccw 0,0,0 1,0,0 model/my car.ldr:1/ 
1..1| => step 2 entries 0 view -/ 
1..1|0 ROTSTEP 0 45 0 REL => step 3 entries 0 view rel:0,45,0/ 
1..1|0 ROTSTEP 0 45 0 REL; 0 ROTSTEP 10 0 0 ADD => step 4 entries 0 view rel:0,45,0 rel:10,0,0/ 
1..3| => step 5 entries 2 view -/ line 16 - nocert clip ccw 0,0,0 3,0,0 parts/3001.dat:1/ line 16 - nocert clip ccw 0,0,0 4,0,0 parts/3001.dat:3/ 
3..4| => step 6 entries 1 view -/ line 16 - nocert clip ccw 0,0,0 2,0,0 model/my car.ldr:8/ 
3..6|0 ROTSTEP 1.5 -2 .25 ABS => step 7 entries 3 view abs:1.5,-2,0.25/ line 16 - nocert clip ccw 0,0,0 2,0,0 model/my car.ldr:8/ 
5..7| => step 8 entries 2 view -/ ";

fn learn(texts: &mut Texts, file: &FileId, lines: Lines) -> Result<(), Fail> {
    if texts.id(file).is_some() {
        return Err("known already".into());
    }
    let Ok(ready) = texts.prepare_file(file, Some(lines)) else {
        return Err("not learnt".into());
    };
    let _ = texts.commit(ready);
    Ok(())
}

fn learn_at(
    alloc: Global,
    texts: &mut Texts,
    folder: Folder,
    name: &str,
    bytes: &[u8],
) -> Result<(), Fail> {
    let name = normal(alloc, name.as_bytes())?;
    let lines = lines_of(alloc, bytes)?;
    learn(texts, &FileId { folder, name }, lines)
}

fn known(alloc: Global) -> Result<Texts, Fail> {
    let mut texts = Texts::new(alloc, 9, 10_000);
    learn_at(alloc, &mut texts, Folder::Model(1), "My Car.ldr", MODEL)?;
    learn_at(alloc, &mut texts, Folder::Parts, "3001.dat", b"0")?;
    learn_at(alloc, &mut texts, Folder::P, "stud.dat", b"0")?;
    learn_at(alloc, &mut texts, Folder::Model(2), "My Car.ldr", b"0")?;
    learn_at(alloc, &mut texts, Folder::Model(16), "My Car.ldr", b"0")?;
    Ok(texts)
}

fn colour_of(word: &str) -> Result<Colour, ParseIntError> {
    match word {
        "m" => Ok(Colour::Main),
        "E" => Ok(Colour::Edge),
        _ => coded(word),
    }
}

fn coded(word: &str) -> Result<Colour, ParseIntError> {
    if let Some(code) = word.strip_prefix("e") {
        return Ok(Colour::EdgeOf(code.parse::<u32>()?));
    }
    if let Some(value) = word.strip_prefix("d") {
        return Ok(Colour::Direct(value.parse::<u32>()?));
    }
    Ok(Colour::Code(word.parse::<u32>()?))
}

#[derive(Clone, Copy)]
enum Shown {
    Drawn(Kind, [Point; 4]),
    Other,
}

fn read_shown(line: Line) -> Shown {
    match line {
        Line::Draw { kind, points, .. } => Shown::Drawn(kind, points),
        Line::Ref { name, .. } => {
            drop(name);
            Shown::Other
        }
        Line::Blank
        | Line::Comment
        | Line::Org(_)
        | Line::Bfc(_)
        | Line::Step
        | Line::Rot(_)
        | Line::Malformed
        | Line::OutOfRange => Shown::Other,
    }
}

fn source_of(text: &str, line: &str) -> Result<Source, ParseIntError> {
    Ok(Source {
        text: TextId(text.parse::<u32>()?),
        line: line.parse::<u32>()?,
    })
}

fn cut<'a>(row: &'a str, at: &str) -> Result<(&'a str, &'a str), Fail> {
    match row.split_once(at) {
        Some(parts) => Ok(parts),
        None => Err("a row is not cut".into()),
    }
}

fn entry_of(alloc: Global, row: &str) -> Result<Entry, Fail> {
    let (colour, row) = cut(row, "|")?;
    let (culling, row) = cut(row, "|")?;
    entry_at(alloc, colour_of(colour)?, culling, row)
}

fn entry_at(alloc: Global, colour: Colour, culling: &str, row: &str) -> Result<Entry, Fail> {
    let (text, row) = cut(row, "|")?;
    let (line, what) = cut(row, "|")?;
    shown_at(alloc, colour, culling, source_of(text, line)?, what)
}

fn winding_of(culling: &str) -> Winding {
    if culling.ends_with(" cw") {
        Winding::Cw
    } else {
        Winding::Ccw
    }
}

fn shown_at(
    alloc: Global,
    colour: Colour,
    culling: &str,
    source: Source,
    what: &str,
) -> Result<Entry, Fail> {
    match read_shown(read_line(alloc, what.as_bytes())?) {
        Shown::Drawn(kind, points) => Ok(Entry::Drawn {
            kind,
            certified: culling.starts_with("cert"),
            clip: culling.contains(" clip"),
            winding: winding_of(culling),
            colour,
            source,
            points,
        }),
        Shown::Other => Ok(Entry::Part {
            file: TextId(what.parse::<u32>()?),
            colour,
            source,
        }),
    }
}

// What all is printed behind.
const BEFORE: &[u8] = b"x";

fn append_line(line: &str, into: &mut Vec<u8>) -> Result<(), AllocError> {
    if line.is_empty() {
        return Ok(());
    }
    into.extend_from_slice(line.as_bytes())?;
    into.push(b'\n')?;
    Ok(())
}

// The lines of a row, each ended by a line feed.
fn append_lines(row: &str, into: &mut Vec<u8>) -> Result<(), AllocError> {
    for line in row.split("/ ") {
        append_line(line, into)?;
    }
    Ok(())
}

fn is_printed(alloc: Global, printed: &[u8], lines: &str) -> Result<bool, AllocError> {
    let mut wanted = Vec::from_slice(alloc, BEFORE)?;
    append_lines(lines, &mut wanted)?;
    Ok(printed == wanted.as_slice())
}

fn table_of(alloc: Global) -> Result<Table, Fail> {
    match Table::read(alloc, COLOURS) {
        Ok(table) => Ok(table),
        Err(_) => Err("no table".into()),
    }
}

fn printed_entry(alloc: Global, texts: &Texts, table: &Table, row: &str) -> Result<Vec<u8>, Fail> {
    let _: [Point; 0] = NO_POINTS;
    let entry = entry_of(alloc, row)?;
    let mut printed = Vec::from_slice(alloc, BEFORE)?;
    print_entry(texts, table, &entry, &mut printed)?;
    Ok(printed)
}

fn entry_holds(alloc: Global, texts: &Texts, table: &Table, row: &str) -> Result<bool, Fail> {
    let (entry, want) = cut(row, " => ")?;
    let printed = printed_entry(alloc, texts, table, entry)?;
    Ok(is_printed(alloc, printed.as_slice(), want)?)
}

#[test]
fn entries_are_printed(rt: HostRuntime) -> Result<(), Fail> {
    let alloc = rt.alloc();
    let texts = known(alloc)?;
    let table = table_of(alloc)?;
    for row in ENTRIES.lines() {
        assert!(rt; entry_holds(alloc, &texts, &table, row)?, "{row}");
    }
    Ok(())
}

fn printed_fault(alloc: Global, texts: &Texts, what: What, row: &str) -> Result<Vec<u8>, Fail> {
    let (text, line) = cut(row, "|")?;
    let source = source_of(text, line)?;
    let mut printed = Vec::from_slice(alloc, BEFORE)?;
    print_fault(texts, &Fault { what, source }, &mut printed)?;
    Ok(printed)
}

fn fault_holds(alloc: Global, texts: &Texts, what: What, row: &str) -> Result<bool, Fail> {
    let (source, want) = cut(row, " => ")?;
    let printed = printed_fault(alloc, texts, what, source)?;
    Ok(is_printed(alloc, printed.as_slice(), want)?)
}

#[test]
fn faults_are_printed(rt: HostRuntime) -> Result<(), Fail> {
    let alloc = rt.alloc();
    let texts = known(alloc)?;
    let mut rows = FAULTS.lines();
    for what in WHATS {
        let row = rows.next().unwrap_or("no row");
        assert!(rt; fault_holds(alloc, &texts, what, row)?, "{row}");
    }
    assert!(rt; rows.next().is_none());
    Ok(())
}

fn used(alloc: Global, word: &str) -> Result<Entry, Fail> {
    let Some((file, colour)) = word.split_once(":") else {
        return entry_of(alloc, "4|cert clip ccw|1|1|2 24 0 0 0 1 0 0");
    };
    let row = format!(in alloc; "{colour}|nocert clip ccw|0|1|{file}")?;
    entry_of(alloc, row.as_str())
}

fn push_use(alloc: Global, word: &str, into: &mut Vec<Entry>) -> Result<(), Fail> {
    let _: [Point; 0] = NO_POINTS;
    let entry = used(alloc, word)?;
    into.push(entry)?;
    Ok(())
}

fn uses_of(alloc: Global, uses: &str) -> Result<Vec<Entry>, Fail> {
    let _: [Point; 0] = NO_POINTS;
    let mut entries = Vec::new(alloc);
    for word in uses.split(" ") {
        push_use(alloc, word, &mut entries)?;
    }
    Ok(entries)
}

fn printed_parts(alloc: Global, texts: &Texts, uses: &str) -> Result<Vec<u8>, Fail> {
    let _: [Point; 0] = NO_POINTS;
    let entries = uses_of(alloc, uses)?;
    if entries.len() > 99 {
        return Err("too many uses".into());
    }
    let parts = parts_list(alloc, entries.as_slice())?;
    let mut printed = Vec::from_slice(alloc, BEFORE)?;
    print_parts(texts, &parts, &mut printed)?;
    Ok(printed)
}

fn parts_hold(alloc: Global, texts: &Texts, row: &str) -> Result<bool, Fail> {
    let (uses, want) = cut(row, " => ")?;
    let printed = printed_parts(alloc, texts, uses)?;
    Ok(is_printed(alloc, printed.as_slice(), want)?)
}

#[test]
fn parts_are_counted_and_printed(rt: HostRuntime) -> Result<(), Fail> {
    let alloc = rt.alloc();
    let texts = known(alloc)?;
    for row in PARTS.lines() {
        assert!(rt; parts_hold(alloc, &texts, row)?, "{row}");
    }
    Ok(())
}

fn turn_of(word: RotWord) -> Option<Turn> {
    match word {
        RotWord::Abs(angles) => Some(Turn {
            absolute: true,
            angles,
        }),
        RotWord::Rel(angles) | RotWord::Add(angles) => Some(Turn {
            absolute: false,
            angles,
        }),
        RotWord::End => None,
    }
}

fn turn_in(line: Line) -> Option<Turn> {
    match line {
        Line::Rot(word) => turn_of(word),
        Line::Ref { name, .. } => {
            drop(name);
            None
        }
        Line::Blank
        | Line::Comment
        | Line::Org(_)
        | Line::Bfc(_)
        | Line::Step
        | Line::Draw { .. }
        | Line::Malformed
        | Line::OutOfRange => None,
    }
}

fn push_turn(alloc: Global, line: &str, into: &mut List<Turn>) -> Result<(), AllocError> {
    match turn_in(read_line(alloc, line.as_bytes())?) {
        Some(turn) => into.push(turn),
        None => Ok(()),
    }
}

fn view_of(alloc: Global, lines: &str) -> Result<List<Turn>, AllocError> {
    let mut view = List::new(alloc);
    for line in lines.split("; ") {
        push_turn(alloc, line, &mut view)?;
    }
    Ok(view)
}

fn step_of(alloc: Global, row: &str) -> Result<StepPart, Fail> {
    let (range, turns) = cut(row, "|")?;
    let (first, end) = cut(range, "..")?;
    let first = first.parse::<u32>()?;
    let end = end.parse::<u32>()?;
    let view = view_of(alloc, turns)?;
    Ok(StepPart { first, end, view })
}

fn push_entry(alloc: Global, row: &str, into: &mut Vec<Entry>) -> Result<(), Fail> {
    let _: [Point; 0] = NO_POINTS;
    let entry = entry_of(alloc, row)?;
    into.push(entry)?;
    Ok(())
}

fn stepped(alloc: Global) -> Result<Vec<Entry>, Fail> {
    let _: [Point; 0] = NO_POINTS;
    let mut entries = Vec::new(alloc);
    for row in STEPPED.lines() {
        push_entry(alloc, row, &mut entries)?;
    }
    Ok(entries)
}

// A row's step, and the lines that are wanted of it.
fn push_step(
    alloc: Global,
    row: &str,
    steps: &mut Vec<StepPart>,
    wanted: &mut Vec<u8>,
) -> Result<(), Fail> {
    let (step, want) = cut(row, " => ")?;
    let step = step_of(alloc, step)?;
    steps.push(step)?;
    append_lines(want, wanted)?;
    Ok(())
}

fn steps_of(alloc: Global, wanted: &mut Vec<u8>) -> Result<Vec<StepPart>, Fail> {
    let mut steps = Vec::new(alloc);
    for row in STEPS.lines() {
        push_step(alloc, row, &mut steps, wanted)?;
    }
    Ok(steps)
}

fn printed_steps(alloc: Global, steps: &[StepPart]) -> Result<Vec<u8>, Fail> {
    let texts = known(alloc)?;
    let table = Table::empty(alloc);
    let entries = stepped(alloc)?;
    let mut printed = Vec::from_slice(alloc, BEFORE)?;
    print_steps(&texts, &table, entries.as_slice(), steps, &mut printed)?;
    Ok(printed)
}

#[test]
fn steps_are_printed(rt: HostRuntime) -> Result<(), Fail> {
    let alloc = rt.alloc();
    let mut wanted = Vec::from_slice(alloc, BEFORE)?;
    let steps = steps_of(alloc, &mut wanted)?;
    let printed = printed_steps(alloc, steps.as_slice())?;
    assert!(rt; printed.as_slice() == wanted.as_slice());
    Ok(())
}

fn printed_findings(alloc: Global, findings: &[Finding]) -> Result<Vec<u8>, AllocError> {
    let mut printed = Vec::from_slice(alloc, BEFORE)?;
    print_findings(findings, &mut printed)?;
    print_findings(&[], &mut printed)?;
    Ok(printed)
}

#[test]
fn findings_are_printed(rt: HostRuntime) -> Result<(), Fail> {
    let findings = [
        Finding { line: 2, rule: 103 },
        Finding {
            line: 4_294_967_290,
            rule: 309,
        },
    ];
    let printed = printed_findings(rt.alloc(), &findings)?;
    assert!(rt; printed.as_slice() == b"x2 103\n4294967290 309\n".as_slice());
    Ok(())
}
