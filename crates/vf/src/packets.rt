// A packet, read at a place.
ghost use Rattle.std.specs.Prelude.{◌≡◌, ◌+◌, ◌<◌, ◌≤◌, length, IfSome};
ghost use Rattle.vf.specs.Packets.{held, long, packet_at};

use crate::entries::Packet;
use numbers::{begins_fix_word, number};

// This byte begins a packet whose length, code and width have four bytes each.
const LONG: u8 = 242;

// A packet with its code.
#[derive(Clone, Copy)]
pub(crate) struct Coded {
    pub(crate) code: u8,
    pub(crate) packet: Packet,
}

// The bounds of places stand in the contracts below, and in no type, since each is about another place of the file.

// The packet that begins at `at`; none where the file ends before it does, or where it is none.
pub(crate) fn packet_at(file: &[u8], at: usize) -> Option<Coded>
    ensures is { result ≡ packet_at file.now at }
    ensures after { IfSome result (λ k. at < k.packet.start) }
    ensures within { IfSome result (λ k. k.packet.start + k.packet.length ≤ length file.now) }
{
    match file.get(at..)? {
        [LONG, ..] => long_packet(file, at),
        [n, code, a, b, c, ..] => {
            let width = u32::from_be_bytes([0, *a, *b, *c]);
            hold(file, *code, at + 5, usize::from(*n), width)
        }
        _ => None,
    }
}

// One that has four bytes for each of its length, its code and its width.
fn long_packet(file: &[u8], at: usize) -> Option<Coded>
    ensures is { result ≡ long file.now at }
    ensures after { IfSome result (λ k. at < k.packet.start) }
    ensures within { IfSome result (λ k. k.packet.start + k.packet.length ≤ length file.now) }
{
    let [_, _, _, _, _, _, _, _, _, first, _, _, _, ..] = file.get(at..)? else {
        return None;
    };
    if !begins_fix_word(*first) {
        return None;
    }
    let n = number(file, at + 1, 4) as usize;
    let code = u8::try_from(number(file, at + 5, 4)).ok()?;
    hold(file, code, at + 13, n, number(file, at + 9, 4))
}

// A packet with n bytes from `start` on; none where the file ends before they do.
fn hold(file: &[u8], code: u8, start: usize, n: usize, width: u32) -> Option<Coded>
    ensures is { result ≡ held file.now code start n width }
    ensures start { IfSome result (λ k. k.packet.start ≡ start) }
    ensures within { IfSome result (λ k. k.packet.start + k.packet.length ≤ length file.now) }
{
    if file.get(start..)?.len() < n {
        return None;
    }
    Some(Coded {
        code,
        packet: Packet {
            start,
            length: n,
            width,
        },
    })
}
