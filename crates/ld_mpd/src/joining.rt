ghost use Rattle.std.specs.Prelude.{◌≡◌, ◌<◌, ◌^◌, ◌++◌, ◌&&◌, ◌||◌, [], ◌∷◌, ℕ, IfErr, IfOk, List, Ok, OnOk, length, not};
ghost use Rattle.ld_line.specs.Word.{ended, is_one_line};
ghost use Rattle.ld_names.specs.Normal.{normal_of};
ghost use Rattle.ld_mpd.specs.Blocks.{are_inside, blocks_of, has_text, is_inside};
ghost use Rattle.ld_mpd.specs.Joining.{IsRefusal, block_lines, first_bad, join_of, joined};
ghost use Rattle.ld_mpd.specs.Laws.{AreNamed};
ghost use Rattle.ld_mpd.specs.Seen.{Notes, has_seen};
ghost use Rattle.ld_mpd.specs.declared.joining.JoinError.TheVariants.{Memory};

use crate::block::Block;
use crate::laws::join_law;
use crate::seen::Seen;
use ld_line::{BlockLine, block_line};
use ld_names::Bytes;
use std::alloc::{AllocError, Global};

/// Why blocks cannot be joined: the first of these that applies.
#[derive(Clone, Copy, Debug, PartialEq, Eq)]
pub enum JoinError {
    /// No block is a text.
    NoText,
    /// The block of this number, from 1 on, has the kind and name of an earlier one, or a line with a
    /// line feed, or a line that begins or ends a block. No block before it has.
    BadBlock(u32),
    /// Memory was lacking.
    Memory,
}

impl From<AllocError> for JoinError {
    ghost from_gives = { λ _ e. e ≡ Memory };

    fn from(_error: AllocError) -> JoinError {
        JoinError::Memory
    }
}

/// The bytes of a file of these blocks: before each one `0 FILE` or `0 !DATA` and its name, and CR LF
/// behind each line (MPD Language Extension). `split` gives the blocks back, whatever the file's name.
#[tactic(auto, unfolding(crate::specs::Joining::join_of))]
pub fn join(alloc: Global, blocks: &[Block]) -> Result<Vec<u8>, JoinError>
    requires { length blocks.now < 2 ^ 32 }
    ensures ok { IfOk result (λ bytes. join_of blocks.now ≡ Ok bytes.items) }
    ensures err { IfErr result (λ error. IsRefusal blocks.now error) }
    ensures back { IfOk result (λ bytes. (own : List ℕ) → blocks_of own bytes.items ≡ blocks.now) }
{
    join_law();
    if !has_text(blocks) {
        return Err(JoinError::NoText);
    }
    if let Some(number) = first_bad(alloc, blocks)? {
        return Err(JoinError::BadBlock(number));
    }
    Ok(joined(alloc, blocks)?)
}

fn has_text(blocks: &[Block]) -> bool
    ensures { result ≡ has_text blocks.now }
{
    blocks.iter().any(|block| !block.is_data)
}

// The number of the first block that cannot be joined behind those before it.
fn first_bad(alloc: Global, blocks: &[Block]) -> Result<Option<u32>, AllocError>
    requires { length blocks.now < 2 ^ 32 }
    ensures { IfOk result (λ bad. bad ≡ first_bad 1 [] blocks.now) }
{
    let mut seen = Seen::new(alloc);
    let mut before = 0u32;
    let mut rest = blocks;
    while let Some((block, more)) = rest.split_first() {
        if is_bad(alloc, &mut seen, block)? {
            return Ok(Some(before + 1));
        }
        before += 1;
        rest = more;
    }
    Ok(None)
}

// Notes the block. Whether it cannot be joined behind those that were seen.
fn is_bad(alloc: Global, seen: &mut Seen, block: &Block) -> Result<bool, AllocError>
    ensures bad { IfOk result (λ is_bad. is_bad ≡ (has_seen seen.old block.now.is_data block.now.name || not (are_inside block.now.lines))) }
    ensures noted { OnOk result (Notes seen.old seen.new block.now.is_data block.now.name) }
{
    let is_new = seen.insert_copy(alloc, block.is_data, &block.name)?;
    Ok(!is_new || !inside(block.lines.as_slice()))
}

// Whether the lines can stand in a block.
fn inside(lines: &[Bytes]) -> bool
    ensures { result ≡ are_inside lines.now }
{
    lines.iter().all(|line| line_inside(line.as_slice()))
}

fn line_inside(line: &[u8]) -> bool
    ensures { result ≡ (is_one_line line.now && is_inside line.now) }
{
    one_line(line) && block_line(line) == BlockLine::Other
}

fn one_line(line: &[u8]) -> bool
    ensures { result ≡ is_one_line line.now }
{
    line.iter().all(|byte| *byte != b'\n')
}

fn joined(alloc: Global, blocks: &[Block]) -> Result<Vec<u8>, AllocError>
    ensures ok { IfOk result (λ bytes. bytes.items ≡ joined blocks.now) }
    ensures named { OnOk result (AreNamed blocks.now) }
{
    let mut bytes = Vec::new(alloc);
    let mut rest = blocks;
    while let Some((block, more)) = rest.split_first() {
        append_block(&mut bytes, block)?;
        rest = more;
    }
    Ok(bytes)
}

fn append_block(bytes: &mut Vec<u8>, block: &Block) -> Result<(), AllocError>
    ensures ok { OnOk result (bytes.new.items ≡ bytes.old.items ++ ended (block_lines block.now)) }
    ensures named { OnOk result (normal_of block.now.name ≡ Ok block.now.name) }
{
    let head = if block.is_data {
        b"0 !DATA ".as_slice()
    } else {
        b"0 FILE ".as_slice()
    };
    bytes.extend_from_slice(head)?;
    append_line(bytes, block.name.bytes())?;
    append_lines(bytes, block.lines.as_slice())
}

fn append_lines(bytes: &mut Vec<u8>, lines: &[Bytes]) -> Result<(), AllocError>
    ensures { OnOk result (bytes.new.items ≡ bytes.old.items ++ ended lines.now) }
{
    let mut rest = lines;
    while let Some((line, more)) = rest.split_first() {
        append_line(bytes, line.as_slice())?;
        rest = more;
    }
    Ok(())
}

fn append_line(bytes: &mut Vec<u8>, line: &[u8]) -> Result<(), AllocError>
    ensures { OnOk result (bytes.new.items ≡ bytes.old.items ++ line.now ++ 13 ∷ 10 ∷ []) }
{
    bytes.extend_from_slice(line)?;
    bytes.extend_from_slice(b"\r\n")
}
