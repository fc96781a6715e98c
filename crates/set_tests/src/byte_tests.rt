use byte_format::{
    PieceError, after, after_half, after_padding, after_word, byte_of, half_of, padded_of,
    put_byte, put_half, put_padding, put_short, put_size, put_word, word_of,
};
use std::process::Abort;

#[test]
fn numbers_are_written_least_byte_first(rt: HostRuntime) {
    let mut out = Vec::new(rt.alloc());
    put_byte(&mut out, 0xab).expect(&rt, "bytes");
    put_half(&mut out, 0x1234).expect(&rt, "bytes");
    put_short(&mut out, 0x1_5678).expect(&rt, "bytes");
    put_word(&mut out, 0x0102_0304).expect(&rt, "bytes");
    put_size(&mut out, 0x1_0506_0708).expect(&rt, "bytes");
    let size = out.len();
    put_padding(&mut out, size).expect(&rt, "bytes");
    assert_eq!(rt;
        out.as_slice(),
        [
            0xab, 0x34, 0x12, 0x78, 0x56, 4, 3, 2, 1, 8, 7, 6, 5, 0, 0, 0
        ]
        .as_slice()
    );
}

/// Reads a byte, and gives what stands behind it.
fn assert_byte<'a>(rt: &impl Abort, bytes: &'a [u8], want: u8) -> &'a [u8] {
    let (n, rest) = byte_of(bytes).expect(rt, "a byte");
    assert_eq!(rt; n, want);
    rest
}

fn assert_half<'a>(rt: &impl Abort, bytes: &'a [u8], want: u16) -> &'a [u8] {
    let (n, rest) = half_of(bytes).expect(rt, "two bytes");
    assert_eq!(rt; n, want);
    rest
}

fn assert_word<'a>(rt: &impl Abort, bytes: &'a [u8], want: u32) -> &'a [u8] {
    let (n, rest) = word_of(bytes).expect(rt, "four bytes");
    assert_eq!(rt; n, want);
    rest
}

fn assert_padded<'a>(rt: &impl Abort, bytes: &'a [u8], want: u8) -> &'a [u8] {
    let (front, rest) = padded_of(bytes, 1).expect(rt, "a byte and its padding");
    assert_eq!(rt; front, [want].as_slice());
    rest
}

fn behind<'a>(rt: &impl Abort, bytes: &'a [u8], literal: &[u8]) -> &'a [u8] {
    after(bytes, literal).expect(rt, "the literal")
}

const BYTES: [u8; 13] = [0xab, 0x34, 0x12, 4, 3, 2, 1, 0x45, 0x4c, 9, 0, 0, 0];

#[test]
fn what_stands_in_front_is_read(rt: HostRuntime) {
    let rest = assert_byte(&rt, &BYTES, 0xab);
    let rest = assert_half(&rt, rest, 0x1234);
    let rest = assert_word(&rt, rest, 0x0102_0304);
    let rest = assert_padded(&rt, behind(&rt, rest, b"EL"), 9);
    assert_eq!(rt; rest.len(), 0);
}

/// So many bytes were left.
fn assert_left(rt: &impl Abort, rest: Result<&[u8], PieceError>, size: usize) {
    assert_eq!(rt; rest.expect(rt, "the number or the padding").len(), size);
}

#[test]
fn what_stands_behind_is_left(rt: HostRuntime) {
    assert_left(&rt, after_half(&BYTES[1..], 0x1234), 10);
    assert_left(&rt, after_word(&BYTES[3..], 0x0102_0304), 6);
    assert_left(&rt, after_padding(&BYTES[10..], 1), 0);
}
