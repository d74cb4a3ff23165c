ghost use Rattle.std.specs.Prelude.{◌≡◌};
ghost use Rattle.ld_line.specs.Kind.{points_in};
ghost use Rattle.ld_colour.specs.Colour.{under};
ghost use Rattle.ld_entry.specs.declared.entry.Entry.TheVariants.{Part};
ghost use Rattle.ld_entry.specs.Carrying.{above_of, carried_entry, moved_points, winding_turned};

use crate::entry::{Entry, Fault, Outer, Source, What};
use ld_colour::{Colour, under};
use ld_line::{Kind, Winding};
use ld_names::TextId;
use ld_num::{Placement, Point, place};

/// What a reference makes of an entry of the file that it refers to: its used points go through
/// the placement, its colour is found under the reference's, and culling is passed down (File
/// Format 1.0.2, "Line Type 1" and "Colours"; Back Face Culling Language Extension). Of a part
/// entry the colour alone changes. No memory is taken.
///
/// # Errors
///
/// `Range` at the reference, where a used point is moved out of range.
#[inline]
pub fn carry(outer: &Outer, entry: &Entry) -> Result<Entry, Fault>
    ensures { result ≡ carried_entry (above_of outer.now) entry.now }
{
    let entry = *entry;
    match entry {
        Entry::Drawn {
            kind,
            certified,
            clip,
            winding,
            colour,
            source,
            points,
        } => {
            let Some(points) = move_points(&outer.placement, kind, points) else {
                return Err(Fault {
                    what: What::Range,
                    source: outer.source,
                });
            };
            Ok(Entry::Drawn {
                kind,
                certified: certified && outer.below.enable,
                clip: clip && outer.below.clip,
                winding: wind(outer.below.invert, winding),
                colour: under(colour, outer.colour),
                source,
                points,
            })
        }
        Entry::Part {
            file,
            colour,
            source,
        } => Ok(carry_part(outer, file, colour, source)),
    }
}

#[inline]
fn carry_part(outer: &Outer, file: TextId, colour: Colour, source: Source) -> Entry
    ensures { result ≡ Part file (under colour outer.now.colour) source }
{
    let colour = under(colour, outer.colour);
    Entry::Part {
        file,
        colour,
        source,
    }
}

#[inline]
#[tactic(auto, unfolding(crate::specs::Carrying::moved_points))]
fn move_points(by: &Placement, kind: Kind, points: [Point; 4]) -> Option<[Point; 4]>
    ensures { result ≡ moved_points by.now (points_in kind) points }
{
    let [first, second, third, fourth] = points;
    let first = place(by, first)?;
    let second = place(by, second)?;
    if kind == Kind::Line2 {
        return Some([first, second, third, fourth]);
    }
    let third = place(by, third)?;
    if kind == Kind::Tri {
        return Some([first, second, third, fourth]);
    }
    let fourth = place(by, fourth)?;
    Some([first, second, third, fourth])
}

#[inline]
fn wind(invert: bool, winding: Winding) -> Winding
    ensures { result ≡ winding_turned invert winding }
{
    match (invert, winding) {
        (false, winding) => winding,
        (true, Winding::Ccw) => Winding::Cw,
        (true, Winding::Cw) => Winding::Ccw,
    }
}
