use super::*;
use std::process::Abort;
use std::test::Fail;

// Reads once for each answer, and compares the answers and, at the end, the bytes given.
fn check_reads(
    rt: &impl Abort,
    mut src: MemSource,
    room: usize,
    answers: &[Option<usize>],
    mut given: Vec<u8>,
    expected: &[u8],
) -> Result<(), Fail> {
    let mut buf = [0; 8];
    for answer in answers {
        let count = src.read(&mut buf[..room.min(8)]).ok();
        assert_eq!(rt; count, *answer);
        given.extend_from_slice(&buf[..count.unwrap_or(0).min(8)])?;
    }
    assert!(rt; given.as_slice() == expected);
    Ok(())
}

#[test]
fn a_source_over_memory_gives_chunks(rt: HostRuntime) -> Result<(), Fail> {
    let rows: [(usize, &[u64], usize, &[Option<usize>], &[u8]); 4] = [
        // A chunk of one byte.
        (1, &[], 8, &[Some(1), Some(1), Some(1), Some(0)], b"abc"),
        // A chunk larger than the buffer.
        (9, &[], 2, &[Some(2), Some(1), Some(0), Some(0)], b"abc"),
        // A read that fails gives nothing, and the next one goes on.
        (
            2,
            &[1, 3],
            4,
            &[None, Some(2), None, Some(1), Some(0)],
            b"abc",
        ),
        // A buffer with no room.
        (4, &[2], 0, &[Some(0), None, Some(0)], b""),
    ];
    for (piece, fails, room, answers, expected) in rows {
        assert!(&rt; 1 <= piece);
        let src = MemSource::new(b"abc".to_vec(rt.alloc())?, piece, fails.to_vec(rt.alloc())?);
        check_reads(&rt, src, room, answers, Vec::new(rt.alloc()), expected)?;
    }
    Ok(())
}

// Puts each of the pieces once, and compares the answers and the bytes taken.
fn check_puts(
    rt: &impl Abort,
    mut sink: MemSink,
    pieces: &[(&[u8], Option<usize>)],
    expected: &[u8],
) -> Result<(), Fail> {
    for (piece, answer) in pieces {
        assert_eq!(rt; sink.put(piece).ok(), *answer);
    }
    assert!(rt; sink.bytes() == expected);
    assert_eq!(rt; sink.flushed(), 0);
    assert!(rt; sink.flush().is_ok());
    assert_eq!(rt; sink.flushed(), expected.len());
    Ok(())
}

#[test]
fn a_sink_over_memory_takes_bytes_while_there_is_room(rt: HostRuntime) -> Result<(), Fail> {
    let rows: [(usize, &[u64], &[(&[u8], Option<usize>)], &[u8]); 3] = [
        // The last piece that finds room is taken in part, and only a piece with no bytes after it.
        (
            3,
            &[],
            &[
                (b"ab", Some(2)),
                (b"cd", Some(1)),
                (b"d", None),
                (b"", Some(0)),
            ],
            b"abc",
        ),
        // A put that fails takes nothing, and the next one goes on.
        (
            9,
            &[2],
            &[(b"ab", Some(2)), (b"c", None), (b"c", Some(1))],
            b"abc",
        ),
        // No room at all.
        (0, &[], &[(b"", Some(0)), (b"a", None)], b""),
    ];
    for (room, fails, pieces, expected) in rows {
        let sink = MemSink::new(rt.alloc(), room, fails.to_vec(rt.alloc())?)?;
        check_puts(&rt, sink, pieces, expected)?;
    }
    Ok(())
}

#[test]
fn std_readers_and_writers_pass_their_bytes_on(rt: HostRuntime) -> Result<(), Fail> {
    let mut src = StdSource::new(b"abc".as_slice());
    let mut buf = [0; 2];
    assert_eq!(&rt; src.read(&mut buf).ok(), Some(2));
    assert_eq!(&rt; buf, *b"ab");
    assert_eq!(&rt; src.read(&mut buf).ok(), Some(1));
    assert_eq!(&rt; src.read(&mut buf).ok(), Some(0));

    // A slice takes bytes while it has room, and then none, which is a failure.
    let mut bytes = [0; 3];
    let mut sink = StdSink::new(bytes.as_mut_slice());
    assert_eq!(&rt; sink.put(b"ab").ok(), Some(2));
    assert_eq!(&rt; sink.put(b"cd").ok(), Some(1));
    assert_eq!(&rt; sink.put(b"").ok(), Some(0));
    assert!(&rt; sink.put(b"d").is_err());
    assert!(&rt; sink.flush().is_ok());
    Ok(())
}

#[test]
fn a_text_is_put_in_parts(rt: HostRuntime) -> Result<(), Fail> {
    let mut sink = MemSink::new(rt.alloc(), 28, [2].to_vec(rt.alloc())?)?;
    assert!(&rt; put_all(&mut sink, b"n ").is_ok());
    assert!(&rt; put_number(&mut sink, 0).is_err());
    assert!(&rt; put_number(&mut sink, 0).is_ok());
    let parts = [
        Part::Text(b" to "),
        Part::Number(u64::MAX),
        Part::Text(b"."),
    ];
    assert!(&rt; put_parts(&mut sink, &parts).is_ok());
    assert!(&rt; sink.bytes() == b"n 0 to 18446744073709551615.".as_slice());
    assert!(&rt; put_parts(&mut sink, &parts).is_err());
    Ok(())
}
