//! Texts that repeat themselves, packed. How much room each takes is counted by hand: 8 bytes for a repeat, and 1 for a
//! byte that is kept as it is.

use packed_text::PackedText;
use std::alloc::{AllocError, Global};
use std::process::Abort;

/// A piece of a text.
#[derive(Clone, Copy)]
enum Piece {
    /// A byte, so many times.
    Run(u8, u32),
    /// The bytes from 1 to this one.
    Count(u8),
    /// So many bytes that look like chance.
    Noise(u32),
}

struct Case {
    pieces: &'static [Piece],
    size: usize,
}

/// In a run the first eight bytes are kept, and each repeat is as long as what stands before it in 64 KiB.
const CASES: [Case; 12] = [
    Case {
        pieces: &[],
        size: 0,
    },
    Case {
        pieces: &[Piece::Run(7, 1)],
        size: 1,
    },
    Case {
        pieces: &[Piece::Run(7, 7)],
        size: 7,
    },
    Case {
        pieces: &[Piece::Count(8)],
        size: 8,
    },
    // A repeat of eight, from eight before.
    Case {
        pieces: &[Piece::Count(8), Piece::Count(8), Piece::Count(3)],
        size: 19,
    },
    // A repeat of twenty, from twenty before, and a byte behind it.
    Case {
        pieces: &[Piece::Count(20), Piece::Count(20), Piece::Run(9, 1)],
        size: 29,
    },
    // Repeats of 8 and 16.
    Case {
        pieces: &[Piece::Run(7, 32)],
        size: 24,
    },
    // 32 and 8 bytes are kept. Repeats of 8, 16, .. 16,384 and 32,735 zeros, and one from 65,535 before.
    Case {
        pieces: &[Piece::Count(32), Piece::Run(0, 65_503), Piece::Count(32)],
        size: 152,
    },
    // One byte more, and the last would be too far away.
    Case {
        pieces: &[Piece::Count(32), Piece::Run(0, 65_504), Piece::Count(32)],
        size: 176,
    },
    // Three times eight bytes and repeats of 8, 16, .. 32,768, and for the last 3,392 bytes eight of up to 1,024, and
    // one of 1,344.
    Case {
        pieces: &[Piece::Run(0, 200_000)],
        size: 416,
    },
    Case {
        pieces: &[Piece::Noise(1_000)],
        size: 1_000,
    },
    Case {
        pieces: &[Piece::Noise(100_000)],
        size: 100_000,
    },
];

/// Appends so many bytes that look like chance.
fn add_noise(text: &mut Vec<u8>, count: u32) -> Result<(), AllocError> {
    let mut number = 1u32;
    for _ in 0..count {
        number = number.wrapping_mul(1_103_515_245).wrapping_add(12_345);
        text.push((number >> 24) as u8)?;
    }
    Ok(())
}

fn add(text: &mut Vec<u8>, piece: Piece) -> Result<(), AllocError> {
    match piece {
        Piece::Run(byte, count) => {
            for _ in 0..count {
                text.push(byte)?;
            }
        }
        Piece::Count(last) => {
            for byte in 1..=last {
                text.push(byte)?;
            }
        }
        Piece::Noise(count) => add_noise(text, count)?,
    }
    Ok(())
}

/// How much room a text takes, if it is the same again.
fn packed_size(rt: &impl Abort, alloc: Global, text: &[u8]) -> Option<usize> {
    let packed = PackedText::of(alloc, text).expect(rt, "memory");
    let again = packed.unpacked(alloc).expect(rt, "memory");
    if again.as_slice() == text {
        Some(packed.size())
    } else {
        None
    }
}

fn size_of_pieces(rt: &impl Abort, alloc: Global, pieces: &[Piece]) -> Option<usize> {
    let mut text = Vec::new(alloc);
    for piece in pieces {
        add(&mut text, *piece).expect(rt, "memory");
    }
    packed_size(rt, alloc, text.as_slice())
}

#[test]
fn texts_are_the_same_again_and_take_the_room_of_what_does_not_repeat(rt: HostRuntime) {
    for case in &CASES {
        assert!(rt; size_of_pieces(&rt, rt.alloc(), case.pieces) == Some(case.size));
    }
}

/// A hundred parts of 64 bytes, of which the last four are each part's own.
fn like_parts(rt: &impl Abort, alloc: Global) -> Vec<u8> {
    let mut text = Vec::new(alloc);
    for own in 100u8..200 {
        add(&mut text, Piece::Count(60)).expect(rt, "memory");
        add(&mut text, Piece::Run(own, 4)).expect(rt, "memory");
    }
    text
}

/// The first is kept, and of each other one a repeat and four bytes, or a few more where the repeat is seen late.
#[test]
fn a_hundred_like_parts_take_a_fifth(rt: HostRuntime) {
    let text = like_parts(&rt, rt.alloc());
    assert!(rt; text.len() == 6_400);
    let size = packed_size(&rt, rt.alloc(), text.as_slice()).unwrap_or(6_400);
    assert!(rt; size <= 1_280);
}
