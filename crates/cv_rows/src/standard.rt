//! Standard readers and writers that are interrupted, fail in mid-stream, take nothing, or end.

use cv_io::{ReadErr, SinkErr, StdSink, StdSource, put, read_all};
use std::alloc::Global;
use std::io;
use std::test::Fail;

// One answer for each byte of the script: `!` is interrupted, `*` a fault, and any other byte is given. At the end of
// the script is the end of input.
#[derive(Drop)]
struct Script {
    answers: &'static str,
    at: usize,
}

impl Script {
    // The next answer.
    fn next(&mut self) -> io::Result<Option<u8>> {
        let answer = self.answers.as_bytes().get(self.at).copied();
        self.at = self.at.saturating_add(1);
        match answer {
            Some(b'!') => Err(io::Error::from(io::ErrorKind::Interrupted)),
            Some(b'*') => Err(io::Error::from(io::ErrorKind::TimedOut)),
            answer => Ok(answer),
        }
    }
}

fn answering(answers: &'static str) -> Script {
    Script { answers, at: 0 }
}

impl io::Read for Script {
    fn read(&mut self, buf: &mut [u8]) -> io::Result<usize> {
        let answer = self.next()?;
        match (buf.first_mut(), answer) {
            (Some(first), Some(byte)) => {
                *first = byte;
                Ok(1)
            }
            _ => Ok(0),
        }
    }
}

// Whether reading to the end gives these bytes, or this error.
fn gives(
    alloc: Global,
    answers: &'static str,
    most: usize,
    bytes: &str,
    error: Option<ReadErr>,
) -> bool {
    match read_all(alloc, &mut StdSource::new(answering(answers)), most) {
        Ok(read) => error.is_none() && read.as_slice() == bytes.as_bytes(),
        Err(failed) => error == Some(failed),
    }
}

// Takes at a call what its script says: `0` nothing, any other byte one byte, and at its end the whole piece.
#[derive(Drop)]
struct Device {
    writes: Script,
    flushes: Script,
    taken: Vec<u8>,
    flushed: usize,
}

impl io::Write for Device {
    fn write(&mut self, piece: &[u8]) -> io::Result<usize> {
        let count = match self.writes.next()? {
            Some(b'0') => 0,
            Some(_) => piece.len().min(1),
            None => piece.len(),
        };
        self.taken.extend_from_slice(&piece[..count])?;
        Ok(count)
    }

    fn flush(&mut self) -> io::Result<()> {
        let _ = self.flushes.next()?;
        self.flushed = self.taken.len();
        Ok(())
    }
}

#[test]
fn a_reader_is_read_to_its_end(rt: HostRuntime) -> Result<(), Fail> {
    for (answers, most, bytes, error) in [
        ("!a!!bc", 3, "abc", None),
        ("", 0, "", None),
        ("abc", 2, "", Some(ReadErr::TooLong)),
        ("ab*c", 9, "", Some(ReadErr::Failed)),
        ("!*", 9, "", Some(ReadErr::Failed)),
    ] {
        let held = gives(rt.alloc(), answers, most, bytes, error);
        assert!(rt; held, "{answers}");
    }
    Ok(())
}

#[test]
fn a_writer_is_given_the_piece_and_flushed(rt: HostRuntime) -> Result<(), Fail> {
    for (writes, flushes, taken, flushed, answer) in [
        ("", "", "abc", 3, Ok(())),
        ("!1!!1", "", "abc", 3, Ok(())),
        ("", "!!", "abc", 3, Ok(())),
        ("1*", "", "a", 1, Err(SinkErr::Failed)),
        ("10", "", "a", 1, Err(SinkErr::Failed)),
        ("1", "a*", "abc", 1, Err(SinkErr::Failed)),
    ] {
        let mut device = Device {
            writes: answering(writes),
            flushes: answering(flushes),
            taken: Vec::new(rt.alloc()),
            flushed: 0,
        };
        let result = put(&mut StdSink::new(&mut device), b"abc");
        assert_eq!(rt; result, answer, "{writes} {flushes}");
        assert_eq!(rt;
            device.taken.as_slice(),
            taken.as_bytes(),
            "{writes} {flushes}"
        );
        assert_eq!(rt; device.flushed, flushed, "{writes} {flushes}");
    }
    Ok(())
}
