// Numbers that Rust holds are in range, told as clauses; nothing of it is left in the program.
ghost use Rattle.ld_line.specs.Printing.{AreAngles, IsPoint};
ghost use Rattle.ld_inline.specs.Inside.Shown.{AreFourPoints, IsShownColour};

use ld_colour::Colour;
use ld_line::Angles;
use ld_num::Point;

#[inline]
pub(crate) fn colour_range(colour: Colour)
    ensures { IsShownColour colour }
{
    if let Colour::Code(code) = colour {
        let _ = code;
    }
}

#[inline]
fn point_range(point: Point)
    ensures { IsPoint point }
{
    let _ = point.x.millionths();
    let _ = point.y.millionths();
    let _ = point.z.millionths();
}

#[inline]
pub(crate) fn points_range(points: [Point; 4])
    ensures { AreFourPoints points }
{
    let [a, b, c, d] = points;
    point_range(a);
    point_range(b);
    point_range(c);
    point_range(d);
}

#[inline]
pub(crate) fn angles_range(angles: &Angles)
    ensures { AreAngles angles.now }
{
    let _ = angles.x.millionths();
    let _ = angles.y.millionths();
    let _ = angles.z.millionths();
}
