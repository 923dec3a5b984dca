// Texts of numbers, sources and sinks in memory, and what their calls gave.
use pl_io::{
    Failed, MemSink, MemSource, Piece, ReadAll, Sink, Source, StdSink, StdSource, put_bytes,
    put_dec, put_hex, put_pieces, put_short, read_all, read_dec, read_hex,
};
use std::alloc::Global;
use std::io::{ErrorKind, Read};
use std::test::Fail;

const PIECES: [Piece<'static>; 9] = [
    Piece::Text(b"sum "),
    Piece::Dec(u64::MAX),
    Piece::Text(b" "),
    Piece::Hex(0xdead_beef),
    Piece::Text(b" "),
    Piece::Short(0xdead_beef),
    Piece::Text(b" "),
    Piece::Short(0),
    Piece::Bytes(&[0, 15, 171]),
];

const TEXT: &[u8] = b"sum 18446744073709551615 00000000deadbeef deadbeef 0000fab";

// Digits, and the number that they are.
const HEXADECIMAL: [(&str, Option<u64>); 10] = [
    ("0", Some(0)),
    ("00ff", Some(255)),
    ("deadbeef", Some(0xdead_beef)),
    ("ffffffffffffffff", Some(u64::MAX)),
    ("00000000000000001", None),
    ("", None),
    ("fF", None),
    ("0x1", None),
    ("+1", None),
    ("1 ", None),
];

#[test]
fn hexadecimal_numbers_are_read_from_their_digits(rt: HostRuntime) {
    for &(text, want) in &HEXADECIMAL {
        assert_eq!(rt; read_hex(text.as_bytes()), want, "at {text}");
    }
}

// Digits, and the number that they are.
const DECIMAL: [(&str, Option<u64>); 9] = [
    ("0", Some(0)),
    ("00000000000000000042", Some(42)),
    ("18446744073709551615", Some(u64::MAX)),
    ("18446744073709551616", None),
    ("99999999999999999999", None),
    ("000000000000000000001", None),
    ("", None),
    ("1a", None),
    ("-1", None),
];

#[test]
fn decimal_numbers_are_read_from_their_digits(rt: HostRuntime) {
    for &(text, want) in &DECIMAL {
        assert_eq!(rt; read_dec(text.as_bytes()), want, "at {text}");
    }
}

#[test]
fn numbers_are_written_as_their_digits(rt: HostRuntime) -> Result<(), Fail> {
    let mut sink = MemSink::new(rt.alloc(), 100, Vec::new(rt.alloc()))?;
    put_hex(&mut sink, 0x0123_4567_89ab_cdef)?;
    put_short(&mut sink, 0x8000_0000)?;
    put_dec(&mut sink, 1000)?;
    put_bytes(&mut sink, &[1, 0xf0])?;
    assert_eq!(rt;
        sink.bytes(),
        b"0123456789abcdef80000000100001f0".as_slice()
    );
    Ok(())
}

#[test]
fn a_failed_put_leaves_a_prefix(rt: HostRuntime) -> Result<(), Fail> {
    let puts = 11;
    for turn in 0..=puts {
        let fails = vec![in rt.alloc(); turn]?;
        let mut sink = MemSink::new(rt.alloc(), 100, fails)?;
        let result = put_pieces(&mut sink, &PIECES);
        assert_eq!(rt; result.is_ok(), turn == puts, "at put {turn}");
        assert!(rt; TEXT.starts_with(sink.bytes()), "at put {turn}");
        assert_eq!(rt;
            sink.bytes().len() == TEXT.len(),
            turn == puts,
            "at put {turn}"
        );
    }
    Ok(())
}

#[test]
fn a_sink_without_room_keeps_what_fits(rt: HostRuntime) -> Result<(), Fail> {
    for room in 0..=TEXT.len() {
        let mut sink = MemSink::new(rt.alloc(), room, Vec::new(rt.alloc()))?;
        let result = put_pieces(&mut sink, &PIECES);
        assert_eq!(rt; result.is_ok(), room == TEXT.len(), "with room {room}");
        assert!(rt; TEXT.starts_with(sink.bytes()), "with room {room}");
    }
    Ok(())
}

#[test]
fn a_sink_without_room_takes_what_fits_next(rt: HostRuntime) -> Result<(), Fail> {
    let mut sink = MemSink::new(rt.alloc(), 3, vec![in rt.alloc(); 0, 2]?)?;
    assert_eq!(rt; sink.put(b"over"), Err(Failed));
    assert_eq!(rt; sink.put(b"a"), Ok(()));
    assert_eq!(rt; sink.put(b"bc"), Err(Failed));
    assert_eq!(rt; sink.bytes(), b"ab".as_slice());
    Ok(())
}

#[test]
fn a_failed_read_is_told_and_loses_nothing(rt: HostRuntime) -> Result<(), Fail> {
    for (turn, left) in [(0, 10000), (1, 5904), (2, 1808), (3, 0)] {
        let bytes = vec![in rt.alloc(); 7u8; 10000]?;
        let mut source = MemSource::new(bytes, vec![in rt.alloc(); turn]?);
        let result = read_all(rt.alloc(), &mut source, 10000);
        assert!(rt; matches!(result, Err(ReadAll::ReadFault)), "at read {turn}");
        assert_eq!(rt;
            read_all(rt.alloc(), &mut source, 10000)?.len(),
            left,
            "after read {turn}"
        );
    }
    Ok(())
}

// How many of 10,000 bytes are read under a limit.
fn read_under(alloc: Global, limit: u32) -> Result<Option<usize>, Fail> {
    let bytes = vec![in alloc; 7u8; 10000]?;
    let mut source = MemSource::new(bytes, Vec::new(alloc));
    match read_all(alloc, &mut source, limit as usize) {
        Ok(all) => Ok(Some(all.len())),
        Err(ReadAll::TooLong) => Ok(None),
        Err(fault) => Err(fault.into()),
    }
}

#[test]
fn more_bytes_than_the_limit_are_too_long(rt: HostRuntime) -> Result<(), Fail> {
    assert_eq!(rt; read_under(rt.alloc(), 9999)?, None);
    assert_eq!(rt; read_under(rt.alloc(), 10000)?, Some(10000));
    assert_eq!(rt; read_under(rt.alloc(), 10001)?, Some(10000));
    Ok(())
}

// A reader whose reads fail.
#[derive(Drop)]
struct Broken;

impl Read for Broken {
    fn read(&mut self, _buf: &mut [u8]) -> std::io::Result<usize> {
        Err(ErrorKind::Other.into())
    }
}

#[test]
fn the_edge_passes_bytes_in(rt: HostRuntime) -> Result<(), Fail> {
    let mut source = StdSource::new(b"off-chip".as_slice());
    assert_eq!(rt;
        read_all(rt.alloc(), &mut source, 8)?.as_slice(),
        b"off-chip".as_slice()
    );
    assert_eq!(rt; StdSource::new(Broken).read(&mut [0; 4]), Err(Failed));
    Ok(())
}

#[test]
fn the_edge_passes_bytes_out(rt: HostRuntime) {
    let mut room = [0u8; 4];
    let mut sink = StdSink::new(room.as_mut_slice());
    assert_eq!(rt; sink.put(b"abc"), Ok(()));
    assert_eq!(rt; sink.put(b"de"), Err(Failed));
    drop(sink);
    assert_eq!(rt; room, *b"abcd");
}
