//! Runs over streams in memory that fail in mid-stream.

use cv_io::{MemSink, MemSource, SureSink};
use cv_run::run;
use std::alloc::{AllocError, Global};
use std::test::Fail;

const DOCUMENT: &str = r#"{"elements":[{"parent":null,"style":"--a:  1px "}]}"#;

const NOTES: &str = r#"{"sheet":"a {}","elements":[{"parent":null,"style":"--a: 1; foo: 2"}]}"#;

// Streams and what they take: the reads and writes whose numbers stand here fail.
struct Row {
    document: &'static str,
    word: &'static str,
    reads: &'static [u64],
    step: usize,
    writes: &'static [u64],
    code: u8,
    out: &'static str,
    err: &'static str,
}

static ROWS: [Row; 8] = [
    Row {
        document: DOCUMENT,
        word: "compute",
        reads: &[],
        step: 7,
        writes: &[],
        code: 0,
        out: "0 --a = 1px\n",
        err: "",
    },
    Row {
        document: DOCUMENT,
        word: "compute",
        reads: &[1],
        step: 7,
        writes: &[],
        code: 3,
        out: "",
        err: "cssvars: read fault\n",
    },
    Row {
        document: DOCUMENT,
        word: "compute",
        reads: &[0],
        step: 7,
        writes: &[],
        code: 3,
        out: "",
        err: "cssvars: read fault\n",
    },
    Row {
        document: DOCUMENT,
        word: "compute",
        reads: &[],
        step: 7,
        writes: &[1],
        code: 7,
        out: "0 --a =",
        err: "cssvars: write fault\n",
    },
    Row {
        document: DOCUMENT,
        word: "compute",
        reads: &[],
        step: 7,
        writes: &[0],
        code: 7,
        out: "",
        err: "cssvars: write fault\n",
    },
    // Each line goes out as one piece.
    Row {
        document: NOTES,
        word: "compute",
        reads: &[],
        step: 1000,
        writes: &[1],
        code: 7,
        out: "# sheet rule 0: skipped\n",
        err: "cssvars: write fault\n",
    },
    Row {
        document: NOTES,
        word: "compute",
        reads: &[],
        step: 1000,
        writes: &[2],
        code: 7,
        out: "# sheet rule 0: skipped\n# element 0 declaration 1: unknown property\n",
        err: "cssvars: write fault\n",
    },
    // Words are refused before anything is read.
    Row {
        document: DOCUMENT,
        word: "draw",
        reads: &[0],
        step: 7,
        writes: &[0],
        code: 2,
        out: "",
        err: "cssvars: bad usage\n",
    },
];

fn is_kept(alloc: Global, row: &Row) -> Result<bool, AllocError> {
    let words = vec![in alloc; String::from_str(alloc, row.word)?]?;
    let document = row.document.as_bytes().to_vec(alloc)?;
    let mut src = MemSource::new(document, 10, row.reads.to_vec(alloc)?);
    let mut out = MemSink::new(alloc, row.step.max(1), row.writes.to_vec(alloc)?);
    let mut err = SureSink::new(alloc);
    let code = run(alloc, &words, &mut src, &mut out, &mut err).code();
    Ok(code == row.code && out.taken() == row.out.as_bytes() && err.taken() == row.err.as_bytes())
}

#[test]
fn streams_fail(rt: HostRuntime) -> Result<(), Fail> {
    for (number, row) in ROWS.iter().enumerate() {
        let kept = is_kept(rt.alloc(), row)?;
        assert!(rt; kept, "row {number}");
    }
    Ok(())
}

// A run whose first write to `err` fails: whether it ends with this number and `out` took this.
fn is_told(alloc: Global, word: &str, code: u8, report: &str) -> Result<bool, AllocError> {
    let words = vec![in alloc; String::from_str(alloc, word)?]?;
    let mut src = MemSource::new(DOCUMENT.as_bytes().to_vec(alloc)?, 4096, Vec::new(alloc));
    let mut out = SureSink::new(alloc);
    let mut err = MemSink::new(alloc, 3, vec![in alloc; 0]?);
    let ended = run(alloc, &words, &mut src, &mut out, &mut err).code();
    Ok(ended == code && out.taken() == report.as_bytes())
}

#[test]
fn a_fault_of_the_error_stream_changes_no_status(rt: HostRuntime) -> Result<(), Fail> {
    let done = is_told(rt.alloc(), "compute", 0, "0 --a = 1px\n")?;
    let refused = is_told(rt.alloc(), "draw", 2, "")?;
    assert!(rt; done && refused);
    Ok(())
}

const REPORT: &str = "0 --a = 1px\n";

// A run that reads ten bytes and writes one at a time: its number, and what was written.
fn ended(alloc: Global, reads: Vec<u64>, writes: Vec<u64>) -> Result<(u8, Vec<u8>), AllocError> {
    let words = vec![in alloc; String::from_str(alloc, "compute")?]?;
    let mut src = MemSource::new(DOCUMENT.as_bytes().to_vec(alloc)?, 10, reads);
    let mut out = MemSink::new(alloc, 1, writes);
    let mut err = SureSink::new(alloc);
    let code = run(alloc, &words, &mut src, &mut out, &mut err).code();
    Ok((code, out.taken().to_vec(alloc)?))
}

// Whether a failing read ended the run with nothing written.
fn is_read_fault(code: u8, taken: &[u8]) -> bool {
    code == 3 && taken.is_empty()
}

// Whether a failing write ended the run with a front of the report written.
fn is_write_fault(code: u8, taken: &[u8]) -> bool {
    code == 7 && REPORT.as_bytes().starts_with(taken)
}

// The number of the first read, or write, that a run doesn't make, where each before it ends a run as it should when it fails.
fn calls(alloc: Global, of_reads: bool) -> Result<Option<u64>, AllocError> {
    for call in 0..100u64 {
        let failing = vec![in alloc; call]?;
        let (code, taken) = if of_reads {
            ended(alloc, failing, Vec::new(alloc))?
        } else {
            ended(alloc, Vec::new(alloc), failing)?
        };
        if code == 0 && taken.as_slice() == REPORT.as_bytes() {
            return Ok(Some(call));
        }
        let is_fault = if of_reads {
            is_read_fault(code, &taken)
        } else {
            is_write_fault(code, &taken)
        };
        if !is_fault {
            return Ok(None);
        }
    }
    Ok(None)
}

#[test]
fn each_read_and_each_write_fails(rt: HostRuntime) -> Result<(), Fail> {
    assert_eq!(rt; calls(rt.alloc(), true)?, Some(7));
    assert_eq!(rt; calls(rt.alloc(), false)?, Some(12));
    Ok(())
}
