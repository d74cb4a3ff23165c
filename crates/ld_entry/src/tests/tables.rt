//! Worked colour files.
ghost use Rattle.std.specs.Prelude.{◌≡◌, [], ◌∷◌, ◌++◌, codes, map, Err, None, Ok, Some};
ghost use Rattle.ld_line.specs.Field.{fields};
ghost use Rattle.ld_colour.specs.Definition.{defined_by};
ghost use Rattle.ld_colour.specs.Table.{definitions_of, last_definition, rgb_in};
ghost use Rattle.ld_colour.specs.declared.colour.Colour.TheVariants.{Code, Direct, Edge, EdgeOf, Main};
ghost use Rattle.ld_colour.specs.declared.definition.DefinedEdge.TheVariants.{Value, ValueOf};

use ld_colour::Colour::{self, Code, Direct, Edge, EdgeOf, Main};
use ld_colour::{Table, TableError};
use std::alloc::{AllocError, Global};

// A line, and what a file of that line defines: a code with its VALUE and its EDGE, or nothing, or
// the number of a bad line.
const LINES: &str = "0 !COLOUR Red CODE 4 VALUE #C91A09 EDGE #333333 => 4:C91A09/333333\n\
0 !COLOUR Red CODE 4 VALUE 0xc91a09 EDGE 0x333333 => 4:C91A09/333333\n\
\t0  !COLOUR\tRed CODE 4 VALUE #c91A09 EDGE #333333 \t => 4:C91A09/333333\n\
0 !COLOUR CODE CODE 4 VALUE #C91A09 EDGE #333333 => 4:C91A09/333333\n\
0 !COLOUR Red CODE 0000000004 VALUE #C91A09 EDGE #333333 => 4:C91A09/333333\n\
0 !COLOUR Most CODE 4294967295 VALUE #000000 EDGE #FFFFFF => 4294967295:000000/FFFFFF\n\
0 !COLOUR Black CODE 0 VALUE #05131D EDGE 0 => 0:05131D/05131D\n\
0 !COLOUR Blue CODE 1 VALUE #0055BF EDGE 4 => 1:0055BF/-\n\
0 !COLOUR Blue CODE 1 VALUE #0055BF EDGE 0000000001 => 1:0055BF/0055BF\n\
0 !COLOUR Main_Colour CODE 16 VALUE #FFFF80 EDGE #333333 => 16:FFFF80/333333\n\
0 !COLOUR Red CODE 4 VALUE #C91A09 EDGE #333333 ALPHA 128 => 4:C91A09/333333\n\
0 !COLOUR Red CODE 4 VALUE #C91A09 EDGE #333333 ALPHA 0 => 4:C91A09/333333\n\
0 !COLOUR Red CODE 4 VALUE #C91A09 EDGE #333333 ALPHA 255 => 4:C91A09/333333\n\
0 !COLOUR Red CODE 4 VALUE #C91A09 EDGE #333333 ALPHA 000 => 4:C91A09/333333\n\
0 !COLOUR Red CODE 4 VALUE #C91A09 EDGE #333333 ALPHA 007 => 4:C91A09/333333\n\
0 !COLOUR Red CODE 4 VALUE #C91A09 EDGE #333333 LUMINANCE 15 => 4:C91A09/333333\n\
0 !COLOUR Red CODE 4 VALUE #C91A09 EDGE #333333 ALPHA 240 LUMINANCE 15 => 4:C91A09/333333\n\
0 !COLOUR Red CODE 4 VALUE #C91A09 EDGE #333333 LUMINANCE 15 ALPHA 240 => 4:C91A09/333333\n\
0 !COLOUR Red CODE 4 VALUE #C91A09 EDGE #333333 ALPHA 1 ALPHA 2 => 4:C91A09/333333\n\
0 !COLOUR Red CODE 4 VALUE #C91A09 EDGE #333333 CHROME => 4:C91A09/333333\n\
0 !COLOUR Red CODE 4 VALUE #C91A09 EDGE #333333 PEARLESCENT => 4:C91A09/333333\n\
0 !COLOUR Red CODE 4 VALUE #C91A09 EDGE #333333 RUBBER => 4:C91A09/333333\n\
0 !COLOUR Red CODE 4 VALUE #C91A09 EDGE #333333 MATTE_METALLIC => 4:C91A09/333333\n\
0 !COLOUR Red CODE 4 VALUE #C91A09 EDGE #333333 METAL => 4:C91A09/333333\n\
0 !COLOUR Red CODE 4 VALUE #C91A09 EDGE #333333 ALPHA 128 MATERIAL GLITTER VALUE #FFFFFF FRACTION 0.17 VFRACTION 0.2 SIZE 1 => 4:C91A09/333333\n\
0 !COLOUR Red CODE 4 VALUE #C91A09 EDGE #333333 MATERIAL SPECKLE VALUE #595959 FRACTION 0.4 MINSIZE 1 MAXSIZE 3 => 4:C91A09/333333\n\
0 !COLOUR Red CODE 4 VALUE #C91A09 EDGE #333333 anything at all => 4:C91A09/333333\n\
0 !COLOUR Red CODE 4 VALUE #C91A09 EDGE #333333 CHROME ALPHA 999 => 4:C91A09/333333\n\
0 !COLOUR Red CODE 4 VALUE #C91A09 EDGE #333333 alpha 999 => 4:C91A09/333333\n\
0 !COLOUR Red CODE 4 VALUE #C91A09 EDGE #333333 CHROME LUMINANCE => 4:C91A09/333333\n\
0 !COLOUR => bad 1\n\
0 !COLOUR Red => bad 1\n\
0 !COLOUR Red CODE => bad 1\n\
0 !COLOUR Red CODE 4 => bad 1\n\
0 !COLOUR Red CODE 4 VALUE => bad 1\n\
0 !COLOUR Red CODE 4 VALUE #C91A09 => bad 1\n\
0 !COLOUR Red CODE 4 VALUE #C91A09 EDGE => bad 1\n\
0 !COLOUR CODE 4 VALUE #C91A09 EDGE #333333 => bad 1\n\
0 !COLOUR Dark Red CODE 4 VALUE #C91A09 EDGE #333333 => bad 1\n\
0 !COLOUR Red code 4 VALUE #C91A09 EDGE #333333 => bad 1\n\
0 !COLOUR Red CODE 4 value #C91A09 EDGE #333333 => bad 1\n\
0 !COLOUR Red CODE 4 VALUE #C91A09 edge #333333 => bad 1\n\
0 !COLOUR Red VALUE #C91A09 CODE 4 EDGE #333333 => bad 1\n\
0 !COLOUR Red CODE 4 EDGE #333333 VALUE #C91A09 => bad 1\n\
0 !COLOUR Red CODE -4 VALUE #C91A09 EDGE #333333 => bad 1\n\
0 !COLOUR Red CODE +4 VALUE #C91A09 EDGE #333333 => bad 1\n\
0 !COLOUR Red CODE 4.0 VALUE #C91A09 EDGE #333333 => bad 1\n\
0 !COLOUR Red CODE 0x4 VALUE #C91A09 EDGE #333333 => bad 1\n\
0 !COLOUR Red CODE x VALUE #C91A09 EDGE #333333 => bad 1\n\
0 !COLOUR Red CODE 00000000004 VALUE #C91A09 EDGE #333333 => bad 1\n\
0 !COLOUR Red CODE 4294967296 VALUE #C91A09 EDGE #333333 => bad 1\n\
0 !COLOUR Red CODE 9999999999 VALUE #C91A09 EDGE #333333 => bad 1\n\
0 !COLOUR Red CODE #4 VALUE #C91A09 EDGE #333333 => bad 1\n\
0 !COLOUR Red CODE 4 VALUE red EDGE #333333 => bad 1\n\
0 !COLOUR Red CODE 4 VALUE 4 EDGE #333333 => bad 1\n\
0 !COLOUR Red CODE 4 VALUE C91A09 EDGE #333333 => bad 1\n\
0 !COLOUR Red CODE 4 VALUE #C91A0 EDGE #333333 => bad 1\n\
0 !COLOUR Red CODE 4 VALUE #C91A091 EDGE #333333 => bad 1\n\
0 !COLOUR Red CODE 4 VALUE #C91A0G EDGE #333333 => bad 1\n\
0 !COLOUR Red CODE 4 VALUE 0XC91A09 EDGE #333333 => bad 1\n\
0 !COLOUR Red CODE 4 VALUE 0xC91A0 EDGE #333333 => bad 1\n\
0 !COLOUR Red CODE 4 VALUE 0xC91A091 EDGE #333333 => bad 1\n\
0 !COLOUR Red CODE 4 VALUE # EDGE #333333 => bad 1\n\
0 !COLOUR Red CODE 4 VALUE 0x EDGE #333333 => bad 1\n\
0 !COLOUR Red CODE 4 VALUE ##C91A09 EDGE #333333 => bad 1\n\
0 !COLOUR Red CODE 4 VALUE #0xC91A09 EDGE #333333 => bad 1\n\
0 !COLOUR Red CODE 4 VALUE #-91A09 EDGE #333333 => bad 1\n\
0 !COLOUR Red CODE 4 VALUE #+91A09 EDGE #333333 => bad 1\n\
0 !COLOUR Red CODE 4 VALUE #C91A09 EDGE black => bad 1\n\
0 !COLOUR Red CODE 4 VALUE #C91A09 EDGE -1 => bad 1\n\
0 !COLOUR Red CODE 4 VALUE #C91A09 EDGE 0X333333 => bad 1\n\
0 !COLOUR Red CODE 4 VALUE #C91A09 EDGE #33333 => bad 1\n\
0 !COLOUR Red CODE 4 VALUE #C91A09 EDGE #3333333 => bad 1\n\
0 !COLOUR Red CODE 4 VALUE #C91A09 EDGE 0x33333G => bad 1\n\
0 !COLOUR Red CODE 4 VALUE #C91A09 EDGE 4294967296 => bad 1\n\
0 !COLOUR Red CODE 4 VALUE #C91A09 EDGE 00000000000 => bad 1\n\
0 !COLOUR Red CODE 4 VALUE #C91A09 EDGE 0x0 => bad 1\n\
0 !COLOUR Red CODE 4 VALUE #C91A09 EDGE #333333 ALPHA => bad 1\n\
0 !COLOUR Red CODE 4 VALUE #C91A09 EDGE #333333 ALPHA 256 => bad 1\n\
0 !COLOUR Red CODE 4 VALUE #C91A09 EDGE #333333 ALPHA 999 => bad 1\n\
0 !COLOUR Red CODE 4 VALUE #C91A09 EDGE #333333 ALPHA 0000 => bad 1\n\
0 !COLOUR Red CODE 4 VALUE #C91A09 EDGE #333333 ALPHA 0128 => bad 1\n\
0 !COLOUR Red CODE 4 VALUE #C91A09 EDGE #333333 ALPHA -1 => bad 1\n\
0 !COLOUR Red CODE 4 VALUE #C91A09 EDGE #333333 ALPHA 1.0 => bad 1\n\
0 !COLOUR Red CODE 4 VALUE #C91A09 EDGE #333333 ALPHA 0x1 => bad 1\n\
0 !COLOUR Red CODE 4 VALUE #C91A09 EDGE #333333 ALPHA x => bad 1\n\
0 !COLOUR Red CODE 4 VALUE #C91A09 EDGE #333333 ALPHA LUMINANCE 15 => bad 1\n\
0 !COLOUR Red CODE 4 VALUE #C91A09 EDGE #333333 LUMINANCE => bad 1\n\
0 !COLOUR Red CODE 4 VALUE #C91A09 EDGE #333333 LUMINANCE 256 => bad 1\n\
0 !COLOUR Red CODE 4 VALUE #C91A09 EDGE #333333 LUMINANCE x => bad 1\n\
0 !COLOUR Red CODE 4 VALUE #C91A09 EDGE #333333 ALPHA 128 LUMINANCE => bad 1\n\
0 !COLOUR Red CODE 4 VALUE #C91A09 EDGE #333333 ALPHA 128 LUMINANCE 256 => bad 1\n\
0 !COLOUR Red CODE 4 VALUE #C91A09 EDGE #333333 ALPHA 128 ALPHA => bad 1\n\
0 !COLOUR Red CODE 4 VALUE #C91A09 EDGE #333333 ALPHA 128 LUMINANCE 15 ALPHA 256 => bad 1\n\
0 => none\n\
!COLOUR => none\n\
0 COLOUR Red => none\n\
0 !colour => none\n\
0 !COLOURS => none\n\
00 !COLOUR => none\n\
1 !COLOUR => none\n\
0 // !COLOUR => none\n\
0 x !COLOUR => none\n\
0!COLOUR => none\n\
3 bad => none";

// Each kind of line that the published LDConfig.ldr has.
const CONFIGURATION: &str = "0 LDraw.org Configuration File\r\n\
0 Name: LDConfig.ldr\r\n\
0 Author: LDraw.org\r\n\
0 !LDRAW_ORG Configuration UPDATE 2024-01-01\r\n\
\r\n\
0 // LDraw Solid Colours\r\n\
0                              // LEGOID  26 - Black\r\n\
0 !COLOUR Black                                                 CODE   0   VALUE #1B2A34   EDGE #2B4354\r\n\
0 !COLOUR Blue                                                  CODE   1   VALUE #1E5AA8   EDGE #333333\r\n\
0 !COLOUR Red                                                   CODE   4   VALUE #B40000   EDGE #333333\r\n\
\r\n\
0 // LDraw Transparent Colours\r\n\
0 !COLOUR Trans_Clear                                           CODE  47   VALUE #FCFCFC   EDGE #C3C3C3   ALPHA 128\r\n\
0 // LDraw Chrome, Pearl, Metallic and Milky Colours\r\n\
0 !COLOUR Chrome_Gold                                           CODE 334   VALUE #DFC176   EDGE #C2982E                               CHROME\r\n\
0 !COLOUR Pearl_Gold                                            CODE 297   VALUE #AA7F2E   EDGE #333333                               PEARLESCENT\r\n\
0 !COLOUR Metallic_Silver                                       CODE  80   VALUE #767676   EDGE #333333                               METAL\r\n\
0 !COLOUR Satin_Matte                                           CODE  87   VALUE #3E3C39   EDGE #333333                               MATTE_METALLIC\r\n\
0 !COLOUR Milky_White                                           CODE  79   VALUE #EEEEEE   EDGE #C3C3C3   ALPHA 240\r\n\
0 // LDraw Glow, Glitter, Speckle and Rubber Colours\r\n\
0 !COLOUR Glow_In_Dark_Opaque                                   CODE  21   VALUE #E0FFB0   EDGE #B8FF4D   ALPHA 240   LUMINANCE 15\r\n\
0 !COLOUR Glitter_Trans_Dark_Pink                               CODE 114   VALUE #DF6695   EDGE #9A2A66   ALPHA 128                   MATERIAL GLITTER VALUE #B92790 FRACTION 0.17 VFRACTION 0.2 SIZE 1\r\n\
0 !COLOUR Speckle_Black_Silver                                  CODE 132   VALUE #000000   EDGE #898788                               MATERIAL SPECKLE VALUE #898788 FRACTION 0.4 MINSIZE 1 MAXSIZE 3\r\n\
0 !COLOUR Rubber_Yellow                                         CODE  65   VALUE #FAC80A   EDGE #333333                               RUBBER\r\n\
0 !COLOUR Canvas_Sail                                           CODE 133   VALUE #F4F4F4   EDGE #333333                               MATERIAL FABRIC CANVAS\r\n\
0 // LDraw Internal Common Material Colours\r\n\
0 !COLOUR Main_Colour                                           CODE  16   VALUE #FFFF80   EDGE #333333\r\n\
0 !COLOUR Edge_Colour                                           CODE  24   VALUE #7F7F7F   EDGE #333333\r\n\
0 !COLOUR Unicolor                                              CODE 500   VALUE 0xABCDEF  EDGE 0\r\n";

// Codes that the lines above define, with a code's VALUE and EDGE.
const CODES: [u32; 6] = [0, 1, 4, 16, 24, 4294967295];

fn shown_code(alloc: Global, table: &Table, code: u32, value: u32) -> Result<String, AllocError> {
    match table.rgb(EdgeOf(code)) {
        Some(edge) => format!(in alloc; "{code}:{value:06X}/{edge:06X}"),
        None => format!(in alloc; "{code}:{value:06X}/-"),
    }
}

fn shown_table(alloc: Global, table: &Table) -> Result<String, AllocError> {
    for code in CODES {
        if let Some(value) = table.rgb(Code(code)) {
            return shown_code(alloc, table, code, value);
        }
    }
    String::from_str(alloc, "none")
}

fn shown(alloc: Global, bytes: &[u8]) -> Result<String, AllocError> {
    if bytes.len() > 0xFFFFFFFF {
        return String::from_str(alloc, "too long");
    }
    match Table::read(alloc, bytes) {
        Ok(table) => shown_table(alloc, &table),
        Err(TableError::BadColour(line)) => format!(in alloc; "bad {line}"),
        Err(TableError::Memory) => Err(AllocError),
    }
}

fn file_byte(byte: u8) -> u8 {
    match byte {
        b'|' => b'\n',
        byte => byte,
    }
}

fn file_of(alloc: Global, text: &str) -> Result<Vec<u8>, AllocError> {
    let mut bytes = Vec::new(alloc);
    for byte in text.as_bytes() {
        bytes.push(file_byte(*byte))?;
    }
    Ok(bytes)
}

fn file_shown(alloc: Global, text: &str) -> Result<String, AllocError> {
    let file = file_of(alloc, text)?;
    shown(alloc, file.as_slice())
}

// Whether a file, with `|` for a line feed, defines what its row says.
fn row_holds(alloc: Global, row: &str) -> bool {
    let Some((text, want)) = row.split_once(" => ") else {
        return false;
    };
    match file_shown(alloc, text) {
        Ok(got) => got.as_str() == want,
        Err(_) => false,
    }
}

#[test]
fn lines_of_colour_files(rt: HostRuntime) {
    let alloc = rt.alloc();
    for row in LINES.lines() {
        assert!(rt; row_holds(alloc, row), "{row:?}");
    }
}

// Files, with `|` for a line feed, and what they define.
const FILES: &str = " => none\n\
\u{FEFF}0 !COLOUR A CODE 0 VALUE #000001 EDGE #000002| => 0:000001/000002\n\
0 a comment|0 !COLOUR X CODE 4 VALUE red EDGE 0 => bad 2\n\
|\r|0 !COLOUR|0 !COLOUR| => bad 3\n\
0 !COLOUR A CODE 0 VALUE #000001 EDGE 0|0 !COLOUR A CODE 0 VALUE #000002 EDGE 0| => 0:000002/000002\n\
0 !COLOUR A CODE 0 VALUE #000001 EDGE 4|0 !COLOUR B CODE 4 VALUE #000002 EDGE 0| => 0:000001/000002\n\
0 !COLOUR A CODE 0 VALUE #000001 EDGE #000002|0 !COLOUR A CODE 0 VALUE #000003 EDGE 9| => 0:000003/-\n\
0 !COLOUR A CODE 1 VALUE #000001 EDGE 2|0 !COLOUR B CODE 2 VALUE #000002 EDGE 3| => 1:000001/000002\n\
0 !COLOUR A CODE 0 VALUE #000001 EDGE 0|0 !COLOUR A CODE 0 VALUE #0002 EDGE 0|0 !COLOUR => bad 2";

#[test]
fn whole_colour_files(rt: HostRuntime) {
    let alloc = rt.alloc();
    for row in FILES.lines() {
        assert!(rt; row_holds(alloc, row), "{row:?}");
    }
}

fn empty_has(alloc: Global, colour: Colour, rgb: Option<u32>) -> bool {
    Table::empty(alloc).rgb(colour) == rgb
}

#[test]
fn an_empty_table(rt: HostRuntime) {
    let alloc = rt.alloc();
    assert!(rt; empty_has(alloc, Direct(7), Some(7)));
    assert!(rt; empty_has(alloc, Code(4), None));
    assert!(rt; empty_has(alloc, Main, None));
}

// The row `colours`: a colour, and its rgb.
static COLOURS: [(Colour, Option<u32>); 9] = [
    (Code(4), Some(0xC91A09)),
    (EdgeOf(4), Some(0x333333)),
    (Code(1), Some(0x0055BF)),
    (EdgeOf(1), Some(0x05131D)),
    (EdgeOf(0), Some(0x595959)),
    (Direct(0xFF8000), Some(0xFF8000)),
    (Code(2), None),
    (Main, None),
    (Edge, None),
];

// Colours of the published file.
static CONFIGURED: [(Colour, Option<u32>); 9] = [
    (Code(0), Some(0x1B2A34)),
    (EdgeOf(47), Some(0xC3C3C3)),
    (Code(21), Some(0xE0FFB0)),
    (Code(114), Some(0xDF6695)),
    (EdgeOf(132), Some(0x898788)),
    (EdgeOf(500), Some(0x1B2A34)),
    (Main, Some(0xFFFF80)),
    (Edge, Some(0x7F7F7F)),
    (Code(13), None),
];

const THREE: &[u8] = b"0 !COLOUR Red CODE 4 VALUE #C91A09 EDGE #333333\n\
0 !COLOUR Blue CODE 1 VALUE 0x0055bf EDGE 0\n\
0 !COLOUR Black CODE 0 VALUE #05131D EDGE #595959";

fn has_rgb(alloc: Global, file: &[u8], colour: Colour, rgb: Option<u32>) -> bool {
    if file.len() > 0xFFFFFFFF {
        return false;
    }
    match Table::read(alloc, file) {
        Ok(table) => table.rgb(colour) == rgb,
        Err(_) => false,
    }
}

#[test]
fn three_colours(rt: HostRuntime) {
    let alloc = rt.alloc();
    for (colour, rgb) in &COLOURS {
        assert!(rt; has_rgb(alloc, THREE, *colour, *rgb), "{colour:?}");
    }
}

fn is_configured(alloc: Global, colour: Colour, rgb: Option<u32>) -> bool {
    has_rgb(alloc, CONFIGURATION.as_bytes(), colour, rgb)
}

#[test]
fn the_published_configuration(rt: HostRuntime) {
    let alloc = rt.alloc();
    for (colour, rgb) in &CONFIGURED {
        assert!(rt; is_configured(alloc, *colour, *rgb), "{colour:?}");
    }
}

// The definitions, by computing.
fn tables_by_definition()
    ensures definition { defined_by (fields (codes "Red CODE 4 VALUE #C91A09 EDGE 0 ALPHA 128 METAL ALPHA")) ≡ Some (4, record { value = 0xC91A09; edge = ValueOf 0 }) }
    ensures outside { map (λ text. defined_by (fields text)) (codes "Red CODE 4 VALUE 0Xc91A09 EDGE 0" ∷ codes "Red CODE 4 VALUE #C91A09 EDGE 0 ALPHA 256" ∷ codes "Red CODE 4 VALUE #C91A09 EDGE 0 ALPHA" ∷ []) ≡ None ∷ None ∷ None ∷ [] }
    ensures file { definitions_of (codes "0 x" ++ 10 ∷ codes "0 !COLOUR A CODE 1 VALUE 0x0055bf EDGE #000002" ++ 10 ∷ []) ≡ Ok ((1, record { value = 0x0055BF; edge = Value 2 }) ∷ []) }
    ensures bad_line { definitions_of (codes "0 x" ++ 10 ∷ codes "0 !COLOUR X CODE 4 VALUE red EDGE 0" ++ 10 ∷ codes "0 !COLOUR") ≡ Err 2 }
    ensures last_one { last_definition ((4, record { value = 1; edge = Value 1 }) ∷ (4, record { value = 2; edge = Value 2 }) ∷ (5, record { value = 3; edge = Value 3 }) ∷ []) 4 ≡ Some (record { value = 2; edge = Value 2 }) }
    ensures colours { map (rgb_in (last_definition ((16, record { value = 1; edge = ValueOf 4 }) ∷ (4, record { value = 2; edge = ValueOf 16 }) ∷ []))) (Main ∷ Edge ∷ Code 4 ∷ EdgeOf 4 ∷ EdgeOf 5 ∷ Direct 9 ∷ []) ≡ Some 1 ∷ None ∷ Some 2 ∷ Some 1 ∷ None ∷ Some 9 ∷ [] }
{}
