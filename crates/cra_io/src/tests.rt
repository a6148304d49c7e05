use super::{Failed, MemorySink, MemorySource, ReadSource, Sink, Source, WriteSink};
use std::io;
use std::io::{Error, ErrorKind, Read, Write};
use std::test::Fail;

// A reader and a writer of std that do well once, and then neither give nor take anything.
#[derive(Drop)]
struct Broken {
    calls: u8,
}

impl Read for Broken {
    fn read(&mut self, buf: &mut [u8]) -> io::Result<usize> {
        self.calls = self.calls.saturating_add(1);
        if self.calls > 1 || buf.is_empty() {
            return Err(Error::from(ErrorKind::Interrupted));
        }
        buf[0] = 7;
        Ok(1)
    }
}

impl Write for Broken {
    fn write(&mut self, buf: &[u8]) -> io::Result<usize> {
        self.calls = self.calls.saturating_add(1);
        Ok(if self.calls > 1 { 0 } else { buf.len() })
    }

    fn flush(&mut self) -> io::Result<()> {
        Ok(())
    }
}

// The answers of four reads into a buffer of three bytes, each with what it gave.
fn four_reads<S: Source>(source: &mut S) -> [(Result<usize, Failed>, [u8; 3]); 4] {
    let mut answers = [(Ok(0), [0; 3]); 4];
    for answer in &mut answers {
        answer.0 = source.read(&mut answer.1);
    }
    answers
}

fn four_writes<S: Sink>(sink: &mut S) -> [Result<usize, Failed>; 4] {
    let pieces: [&[u8]; 4] = [b"abc", b"", b"de", b"f"];
    let mut answers = [Ok(0); 4];
    for (answer, piece) in answers.iter_mut().zip(pieces) {
        *answer = sink.write(piece);
    }
    answers
}

#[test]
fn reads(rt: HostRuntime) -> Result<(), Fail> {
    let bytes = b"abcd".to_vec(rt.alloc())?;
    let mut short = MemorySource::new(bytes, 2, [1u64].to_vec(rt.alloc())?);
    let ends = [
        (Ok(2), *b"ab\0"),
        (Err(Failed), [0; 3]),
        (Ok(2), *b"cd\0"),
        (Ok(0), [0; 3]),
    ];
    assert_eq!(rt; four_reads(&mut short), ends);

    let mut slice = ReadSource::new(b"abcd".as_slice());
    let whole = [
        (Ok(3), *b"abc"),
        (Ok(1), *b"d\0\0"),
        (Ok(0), [0; 3]),
        (Ok(0), [0; 3]),
    ];
    assert_eq!(rt; four_reads(&mut slice), whole);

    let mut broken = ReadSource::new(Broken { calls: 0 });
    let once = [
        (Ok(1), [7, 0, 0]),
        (Err(Failed), [0; 3]),
        (Err(Failed), [0; 3]),
        (Err(Failed), [0; 3]),
    ];
    assert_eq!(rt; four_reads(&mut broken), once);
    Ok(())
}

#[test]
fn writes(rt: HostRuntime) -> Result<(), Fail> {
    let alloc = rt.alloc();
    let mut short = MemorySink::new(alloc, 4, 2, [2u64].to_vec(alloc)?)?;
    assert_eq!(rt; four_writes(&mut short), [Ok(2), Ok(0), Err(Failed), Ok(1)]);
    assert_eq!(rt; short.bytes(), b"abf".as_slice());

    let mut full = MemorySink::new(alloc, 3, 9, Vec::new(alloc))?;
    assert_eq!(rt;
        four_writes(&mut full),
        [Ok(3), Ok(0), Err(Failed), Err(Failed)]
    );
    assert_eq!(rt; full.bytes(), b"abc".as_slice());

    let mut kept = Vec::new(alloc);
    assert_eq!(rt;
        four_writes(&mut WriteSink::new(&mut kept)),
        [Ok(3), Ok(0), Ok(2), Ok(1)]
    );
    assert_eq!(rt; kept.as_slice(), b"abcdef".as_slice());

    let mut broken = WriteSink::new(Broken { calls: 0 });
    assert_eq!(rt;
        four_writes(&mut broken),
        [Ok(3), Ok(0), Err(Failed), Err(Failed)]
    );
    Ok(())
}
