use std::alloc::Global;
use std::io;
use std::io::{Error, ErrorKind, Read};
use std::process::Abort;
use streams::{
    Failed, MemSink, MemSource, ReadSource, ReadStop, Source, SureSink, SureSource, WriteSink,
    read_up_to, write_whole,
};

/// A reader that gives two bytes, and then fails at each read.
#[derive(Drop)]
struct Broken {
    gave: bool,
}

impl Read for Broken {
    fn read(&mut self, buf: &mut [u8]) -> io::Result<usize> {
        if self.gave || buf.len() < 2 {
            return Err(Error::from(ErrorKind::Other));
        }
        self.gave = true;
        buf[0] = b'o';
        buf[1] = b'k';
        Ok(2)
    }
}

/// A reader whose first read is interrupted, and that is at its end then.
#[derive(Drop)]
struct Interrupted {
    failed: bool,
}

impl Read for Interrupted {
    fn read(&mut self, _buf: &mut [u8]) -> io::Result<usize> {
        if self.failed {
            return Ok(0);
        }
        self.failed = true;
        Err(Error::from(ErrorKind::Interrupted))
    }
}

/// Reads up to a limit, and gives what was read.
fn assert_reads<S: Source>(
    rt: &impl Abort,
    alloc: Global,
    source: &mut S,
    limit: usize,
    want: &[u8],
) {
    let bytes = read_up_to(alloc, source, limit).expect(rt, "bytes");
    assert_eq!(rt; bytes.as_slice(), want);
}

fn assert_faults<S: Source>(rt: &impl Abort, alloc: Global, source: &mut S, limit: usize) {
    let stopped = read_up_to(alloc, source, limit);
    assert!(rt; matches!(&stopped, Err(ReadStop::Fault)));
}

const DIGITS: &[u8] = b"0123456789";

/// The digits as a text of its own.
fn digits(rt: &impl Abort, alloc: Global) -> Vec<u8> {
    DIGITS.to_vec(alloc).expect(rt, "memory")
}

#[test]
fn an_error_is_a_fault_and_is_not_tried_again(rt: HostRuntime) {
    let mut source = ReadSource::new(Interrupted { failed: false });
    assert_faults(&rt, rt.alloc(), &mut source, 10);
    assert_reads(&rt, rt.alloc(), &mut source, 10, b"");
}

#[test]
fn a_reader_is_read_to_its_end(rt: HostRuntime) {
    let mut source = ReadSource::new(DIGITS);
    assert_reads(&rt, rt.alloc(), &mut source, 100, DIGITS);
}

#[test]
fn a_reader_is_read_to_its_fault(rt: HostRuntime) {
    let mut source = ReadSource::new(Broken { gave: false });
    assert_reads(&rt, rt.alloc(), &mut source, 2, b"ok");
    assert_faults(&rt, rt.alloc(), &mut source, 2);
}

#[test]
fn a_writer_is_written_whole(rt: HostRuntime) {
    let mut held = Vec::new(rt.alloc());
    let mut sink = WriteSink::new(&mut held);
    assert_eq!(rt; write_whole(&mut sink, b"01234"), Ok(()));
    assert_eq!(rt; write_whole(&mut sink, b"56789"), Ok(()));
    assert_eq!(rt; held.as_slice(), DIGITS);
}

#[test]
fn a_writer_is_written_until_it_takes_nothing(rt: HostRuntime) {
    let mut four = [b'.'; 4];
    let mut sink = WriteSink::new(&mut four[..]);
    assert_eq!(rt; write_whole(&mut sink, DIGITS), Err(Failed));
    assert_eq!(rt; four.as_slice(), b"0123".as_slice());
}

#[test]
fn any_chunk_gives_the_whole(rt: HostRuntime) {
    for chunk in [1, 7, 4096] {
        assert!(rt; chunk > 0);
        let text = digits(&rt, rt.alloc());
        let mut source = MemSource::new(text, chunk, Vec::new(rt.alloc()));
        assert_reads(&rt, rt.alloc(), &mut source, 100, DIGITS);
    }
}

#[test]
fn a_fault_takes_nothing(rt: HostRuntime) {
    let fails = [2].to_vec(rt.alloc()).expect(&rt, "memory");
    let mut source = MemSource::new(digits(&rt, rt.alloc()), 4, fails);
    assert_faults(&rt, rt.alloc(), &mut source, 100);
    assert_reads(&rt, rt.alloc(), &mut source, 100, b"456789");
}

#[test]
fn a_fault_leaves_the_front_that_was_written(rt: HostRuntime) {
    let fails = [3].to_vec(rt.alloc()).expect(&rt, "memory");
    let mut sink = MemSink::with_room(rt.alloc(), 10, 3, fails).expect(&rt, "memory");
    assert_eq!(rt; write_whole(&mut sink, DIGITS), Err(Failed));
    assert_eq!(rt; sink.bytes(), b"012345".as_slice());
}

/// So many bytes that are the same.
fn many(rt: &impl Abort, alloc: Global) -> Vec<u8> {
    let text = vec![in alloc; b'x'; 10_000].expect(rt, "memory");
    assert_eq!(rt; text.len(), 10_000);
    text
}

#[test]
fn a_sure_source_gives_all(rt: HostRuntime) {
    let mut source = SureSource::new(many(&rt, rt.alloc()));
    let want = many(&rt, rt.alloc());
    assert_reads(&rt, rt.alloc(), &mut source, 65_537, &want);
}

#[test]
fn a_sure_sink_takes_all(rt: HostRuntime) {
    let text = [b'x'; 10_000];
    let mut sink = SureSink::with_room(rt.alloc(), 10_000).expect(&rt, "memory");
    assert_eq!(rt; write_whole(&mut sink, &text), Ok(()));
    assert_eq!(rt; sink.bytes(), text.as_slice());
}

#[test]
fn a_limit_leaves_the_rest(rt: HostRuntime) {
    let mut source = SureSource::new(digits(&rt, rt.alloc()));
    assert_reads(&rt, rt.alloc(), &mut source, 0, b"");
    assert_reads(&rt, rt.alloc(), &mut source, 4, b"0123");
    assert_reads(&rt, rt.alloc(), &mut source, 100, b"456789");
    assert_reads(&rt, rt.alloc(), &mut source, 100, b"");
}
