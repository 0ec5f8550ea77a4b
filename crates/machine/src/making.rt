// Characters and rules: what makes marks.
ghost use Rattle.std.specs.Prelude.{◌≡◌, List};
ghost use Rattle.shelf.specs.declared.marks.Link.{Link as Linked};
ghost use Rattle.shelf.specs.Answers.{Answered};
ghost use Rattle.machine.specs.Views.{rule_outcome};
ghost use Rattle.machine.specs.Steps.{typeset as typeset_by, byte_of, side as side_of, sides as sides_of, ruled};

use crate::registers::{Chosen, Drawn, Registers};
use shelf::{Asked, Cause, Link, Mark, Refusal, Shelf, point, put_mark};

// A character of the selected font.
pub(crate) fn typeset<S: Shelf>(
    below: &S,
    font: Option<Chosen>,
    code: i64,
    at: Registers,
    chain: &mut [Link],
    marks: &mut [Mark],
) -> Result<(usize, i64), Refusal>
    ensures { Answered (typeset_by (S.means below.now) font code at) chain.old chain.new marks.old marks.new result }
{
    let chosen = font.ok_or(Cause::NoFont)?;
    let code = byte_of(code).ok_or(Cause::NoCode)?;
    let asked = Asked {
        font: chosen.font,
        size: chosen.size,
        code,
        h: at.h,
        v: at.v,
    };
    below.character(asked, chain, marks)
}

fn byte_of(code: i64) -> Option<u8>
    ensures { result ≡ byte_of code }
{
    u8::try_from(code).ok()
}

// A rule; its width, whether it makes a mark or not.
pub(crate) fn rule(
    height: Option<i64>,
    width: Option<i64>,
    at: Registers,
    marks: &mut [Mark],
) -> Result<(usize, i64), Refusal>
    ensures { (chain : List Linked) → Answered (ruled height width at) chain chain marks.old marks.new result }
{
    let drawn = draw(height, width, at)?;
    match drawn.mark {
        Some(mark) => put_mark(mark, drawn.width, marks),
        None => Ok((0, drawn.width)),
    }
}

fn draw(height: Option<i64>, width: Option<i64>, at: Registers) -> Result<Drawn, Cause>
    ensures { rule_outcome result ≡ ruled height width at }
{
    let height = height.ok_or(Cause::BadSize)?;
    let width = width.ok_or(Cause::BadSize)?;
    let (h, v) = point(at.h, at.v).ok_or(Cause::OutOfRange)?;
    Ok(Drawn {
        mark: sides(height, width).map(|(height, width)| Mark::Rule {
            height,
            width,
            h,
            v,
        }),
        width,
    })
}

fn sides(height: i64, width: i64) -> Option<(u32, u32)>
    ensures { result ≡ sides_of (side_of height) (side_of width) }
{
    Some((side(height)?, side(width)?))
}

// A side that a rule can have.
fn side(z: i64) -> Option<u32>
    ensures { result ≡ side_of z }
{
    u32::try_from(z)
        .ok()
        .filter(|n| (1..2_147_483_648).contains(n))
}
