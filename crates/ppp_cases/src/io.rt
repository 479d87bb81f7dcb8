//! The adapters over std. The devices in memory stand in the runs of `ppp_rows`.

use ppp_io::{ReadGot, Sink, Source, StdSink, StdSource, Wrote};
use std::io;
use std::io::{ErrorKind, Read, Write};
use std::process::Abort;

// A reader that fails.
#[derive(Drop)]
struct Broken;

impl Read for Broken {
    fn read(&mut self, _buf: &mut [u8]) -> io::Result<usize> {
        Err(io::Error::other("broken"))
    }
}

// A reader or a writer that fails by this kind so many times at first.
#[derive(Drop)]
struct Failing<T: Drop> {
    times: u32,
    kind: ErrorKind,
    inner: T,
}

impl<T: Drop> Failing<T> {
    // Counts a call, and fails as long as that is to be.
    fn call(&mut self) -> io::Result<()> {
        if self.times == 0 {
            return Ok(());
        }
        self.times -= 1;
        Err(io::Error::from(self.kind))
    }
}

impl<R: Read + Drop> Read for Failing<R> {
    fn read(&mut self, buf: &mut [u8]) -> io::Result<usize> {
        self.call()?;
        self.inner.read(buf)
    }
}

impl<W: Write + Drop> Write for Failing<W> {
    fn write(&mut self, buf: &[u8]) -> io::Result<usize> {
        self.call()?;
        self.inner.write(buf)
    }

    fn flush(&mut self) -> io::Result<()> {
        self.inner.flush()
    }
}

// Reads into four octets, once for each row: the answer, and the octets that come with it.
fn check_reads<S: Source>(rt: &impl Abort, source: &mut S, rows: &[(ReadGot, &[u8])]) {
    for (answer, octets) in rows {
        let mut buf = [0u8; 4];
        let got = source.read(&mut buf);
        assert_eq!(rt; got, *answer);
        if let ReadGot::Got(count) = got {
            assert!(rt; &buf[..count] == *octets);
        }
    }
}

// Writes a piece for each row, and compares the answer.
fn check_writes<K: Sink>(rt: &impl Abort, sink: &mut K, rows: &[(&[u8], Wrote)]) {
    for (piece, answer) in rows {
        if !piece.is_empty() {
            assert_eq!(rt; sink.write(piece), *answer);
        }
    }
}

#[test]
fn adapters_count_the_faults_of_std(rt: HostRuntime) {
    let mut ended = StdSource::new(b"abcde".as_slice());
    let rows: [(ReadGot, &[u8]); 3] = [
        (ReadGot::Got(4), b"abcd"),
        (ReadGot::Got(1), b"e"),
        (ReadGot::End, b""),
    ];
    check_reads(&rt, &mut ended, &rows);
    assert_eq!(rt; ended.faults(), 0);

    let mut broken = StdSource::new(b"ab".as_slice().chain(Broken));
    let rows: [(ReadGot, &[u8]); 3] = [
        (ReadGot::Got(2), b"ab"),
        (ReadGot::Failed, b""),
        (ReadGot::Failed, b""),
    ];
    check_reads(&rt, &mut broken, &rows);
    assert_eq!(rt; broken.faults(), 2);

    // A writer over three octets takes nothing once they are full.
    let mut room = [0u8; 3];
    let mut sink = StdSink::new(room.as_mut_slice());
    let rows: [(&[u8], Wrote); 3] = [
        (b"ab", Wrote::Took(2)),
        (b"cd", Wrote::Took(1)),
        (b"d", Wrote::Failed),
    ];
    check_writes(&rt, &mut sink, &rows);
    assert_eq!(rt; sink.faults(), 1);
    drop(sink);
    assert!(rt; room == *b"abc");
}

#[test]
fn adapters_try_an_interrupted_call_again_and_no_other(rt: HostRuntime) {
    // how many calls fail and how, and the answers of a read and of a write
    let rows: [(u32, ErrorKind, ReadGot, Wrote); 3] = [
        (99, ErrorKind::Interrupted, ReadGot::Got(2), Wrote::Took(2)),
        (100, ErrorKind::Interrupted, ReadGot::Failed, Wrote::Failed),
        (1, ErrorKind::TimedOut, ReadGot::Failed, Wrote::Failed),
    ];
    for (times, kind, got, wrote) in rows {
        let inner = b"ab".as_slice();
        let mut source = StdSource::new(Failing { times, kind, inner });
        check_reads(&rt, &mut source, &[(got, b"ab")]);
        let mut room = [0u8; 2];
        let inner = room.as_mut_slice();
        let mut sink = StdSink::new(Failing { times, kind, inner });
        check_writes(&rt, &mut sink, &[(b"ab", wrote)]);
    }
}
