// A character of a virtual font over the shelf below.
ghost use Rattle.std.specs.Prelude.{◌≡◌, ◌+◌, take};
ghost use Rattle.shelf.specs.Answers.{Answered};
ghost use Rattle.machine.specs.Views.{counted};
ghost use Rattle.vf.specs.Fonts.{font_of};
ghost use Rattle.expansion.specs.Expanding.{packet_run, expanded};

use crate::bodies::PacketBody;
use crate::selecting::first_font;
use commands::single_char;
use machine::{Body, Frames, Level, Machine, Registers};
use numbers::{part, scale};
use shelf::{Asked, Cause, Link, Mark, Refusal, Shelf, pass_on};
use vf::{Packet, Vf};

// The character of the VF file's font: the marks and faults of its packet, and the packet's width.
pub fn expand<S: Shelf>(
    below: &S,
    vf: &Vf,
    file: &[u8],
    asked: Asked,
    chain: &mut [Link],
    marks: &mut [Mark],
) -> Result<(usize, i64), Refusal>
    ensures { Answered (expanded (S.means below.now) (font_of vf.now) file.now asked) chain.old chain.new marks.old marks.new result }
{
    let packet = vf.packet(asked.code).ok_or(Cause::NoCode)?;
    let width = scale(packet.width, asked.size).ok_or(Cause::BadSize)?;
    let n = run_packet(below, vf, file, asked, packet, chain, marks)?;
    Ok((n, i64::from(width)))
}

// Runs a packet of the file, from its first local font on.
fn run_packet<S: Shelf>(
    below: &S,
    vf: &Vf,
    file: &[u8],
    asked: Asked,
    packet: Packet,
    chain: &mut [Link],
    marks: &mut [Mark],
) -> Result<usize, Refusal>
    ensures { Answered (packet_run (S.means below.now) (font_of vf.now) file.now asked packet) chain.old chain.new marks.old marks.new (counted result) }
{
    let body = PacketBody { vf, asked };
    // `pass_on` writes the chain: with `map_err` and a closure that does, the proof did not close.
    let font = match first_font(vf, asked.size) {
        Ok(font) => font,
        Err(cause) => return Err(pass_on(cause.into(), body.link(packet.start), chain)),
    };
    let at = Registers {
        h: asked.h,
        v: asked.v,
        ..Registers::default()
    };
    let level = Level {
        below,
        body: &body,
        bytes: front(file, packet.start, packet.length),
    };
    // Most packets of fonts are one character.
    if let Some(code) = single_char(level.bytes, packet.start) {
        return level.run_single(packet.start, code, at, font, chain, marks);
    }
    let mut m = Machine {
        at,
        font,
        frames: Frames::new(),
    };
    level.run(packet.start, &mut m, chain, marks)
}

// The file up to a packet's end, so that places in it are the file's.
fn front<'a>(file: &'a [u8], start: usize, length: usize) -> &'a [u8]
    ensures { result.now ≡ take (start + length) file.now }
{
    part(file, 0, start.saturating_add(length))
}
