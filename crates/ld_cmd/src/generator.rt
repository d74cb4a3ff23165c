ghost use Rattle.std.specs.Prelude.{◌≡◌, ◌≤◌, ◌++◌, ◌*◌, ◌/◌, ◌%◌, ◌+◌, IfOk, OnOk, length};
ghost use Rattle.ld_cmd.specs.Generator.{brick_lines, generated, number_line, reference, step_behind, summary_text};

use itoa::Buffer;
use std::alloc::{AllocError, Global};

const GEN_BLOCK: &[u8] = b"0 FILE gen.ldr\n";

const BRICK_BLOCK: &[u8] = b"0 FILE brick.dat
0 Brick
0 !LDRAW_ORG Unofficial_Part
0 BFC CERTIFY CCW
4 16 0 0 0 10 0 0 10 0 10 0 0 10
1 16 0 -4 0 1 0 0 0 1 0 0 0 1 stud.dat
";

const STUD_BLOCK: &[u8] = b"0 FILE stud.dat
0 Stud
0 !LDRAW_ORG Unofficial_Primitive
0 BFC CERTIFY CCW
3 16 0 0 0 4 0 0 0 0 4
2 24 0 0 0 4 0 0
";

// The most bytes of a brick's line and the step behind it, up to 100,000 bricks.
const BRICK_BYTES: usize = 53;

// A model of so many bricks, as a file of three blocks.
#[tactic(auto, unfolding(crate::specs::Generator::generated))]
pub(crate) fn generate(alloc: Global, count: u32) -> Result<Vec<u8>, AllocError>
    ensures text { IfOk result (λ text. text.items ≡ generated count) }
    // So a file of so many bytes may be loaded.
    ensures short { IfOk result (λ text. count ≤ 100000 → length text.items ≤ 33554432) }
{
    let blocks = GEN_BLOCK.len() + BRICK_BLOCK.len() + STUD_BLOCK.len();
    let mut text = Vec::with_capacity(alloc, blocks + count as usize * BRICK_BYTES)?;
    text.extend_from_slice(GEN_BLOCK)?;
    for index in 0..count {
        append_brick(index, &mut text)?;
    }
    text.extend_from_slice(BRICK_BLOCK)?;
    text.extend_from_slice(STUD_BLOCK)?;
    Ok(text)
}

fn append_brick(index: u32, text: &mut Vec<u8>) -> Result<(), AllocError>
    ensures { OnOk result (text.new.items ≡ text.old.items ++ brick_lines index) }
{
    append_reference(index, text)?;
    text.extend_from_slice(step_behind(index))
}

fn append_reference(index: u32, text: &mut Vec<u8>) -> Result<(), AllocError>
    ensures { OnOk result (text.new.items ≡ text.old.items ++ reference index) }
{
    text.extend_from_slice(b"1 ")?;
    text.extend_from_slice(Buffer::new().format(index % 16).as_bytes())?;
    text.extend_from_slice(b" ")?;
    text.extend_from_slice(Buffer::new().format(20 * (index % 100)).as_bytes())?;
    text.extend_from_slice(b" 0 ")?;
    text.extend_from_slice(Buffer::new().format(20 * (index / 100)).as_bytes())?;
    text.extend_from_slice(b" 1 0 0 0 1 0 0 0 1 brick.dat\n")
}

fn step_behind(index: u32) -> &'static [u8]
    ensures { result.now ≡ step_behind index }
{
    if index % 10 == 9 { b"0 STEP\n" } else { b"" }
}

// The lines that sum up an answer: how many entries, lines of the parts list and steps it has.
pub(crate) fn summary(
    alloc: Global,
    entries: usize,
    parts: usize,
    steps: usize,
) -> Result<Vec<u8>, AllocError>
    ensures { IfOk result (λ text. text.items ≡ summary_text entries parts steps) }
{
    let mut text = Vec::new(alloc);
    append_number(b"entries", entries, &mut text)?;
    append_number(b"parts", parts, &mut text)?;
    append_number(b"steps", steps, &mut text)?;
    Ok(text)
}

fn append_number(word: &[u8], number: usize, text: &mut Vec<u8>) -> Result<(), AllocError>
    ensures { OnOk result (text.new.items ≡ text.old.items ++ number_line word.now number) }
{
    text.extend_from_slice(word)?;
    text.extend_from_slice(b" ")?;
    text.extend_from_slice(Buffer::new().format(number).as_bytes())?;
    text.extend_from_slice(b"\n")
}
