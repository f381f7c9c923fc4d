//! Files and outputs that fail at a call, that take few bytes at once, or that never fail.
ghost use Rattle.std.specs.Prelude.{◌≤◌};

use crate::answer::answer;
use crate::ring::ring;
use base_kit::List;
use bonsai_top::Status;
use io_kit::{MemSink, MemSource, Sink, Source, SureSink, SureSource};
use std::alloc::Global;
use std::test::Fail;

fn no_call(alloc: Global) -> List<u64> {
    List::new(alloc)
}

fn one_call(alloc: Global, call: u64) -> Result<List<u64>, Fail> {
    let mut calls = List::new(alloc);
    calls.push(call)?;
    Ok(calls)
}

fn no_files(alloc: Global) -> MemSource {
    MemSource::new(List::new(alloc), List::new(alloc))
}

// The files of the ring, of which one call fails.
fn ring_failing_at(alloc: Global, call: u64) -> Result<MemSource, Fail> {
    Ok(MemSource::new(ring(alloc)?, one_call(alloc, call)?))
}

fn sink(alloc: Global, failing: List<u64>) -> Result<MemSink, Fail> {
    let sink = MemSink::new(alloc, 4096, 4096, failing)?;
    Ok(sink)
}

/// A status, and what was written to either output.
type Outcome = (Status, MemSink, MemSink);

// What is answered to these words where the output takes so many bytes at once and fails at these calls.
fn outcome_by<S: Source>(
    alloc: Global,
    list: &[&str],
    files: &mut S,
    most: usize,
    failing: List<u64>,
) -> Result<Outcome, Fail>
    requires { 1 ≤ most }
{
    let mut out = MemSink::new(alloc, most, 4096, failing)?;
    let mut err = sink(alloc, no_call(alloc))?;
    let status = answer(alloc, list, files, &mut out, &mut err)?;
    Ok((status, out, err))
}

// The same where the output never fails.
fn outcome<S: Source>(alloc: Global, list: &[&str], files: &mut S) -> Result<Outcome, Fail> {
    outcome_by(alloc, list, files, 4096, no_call(alloc))
}

// What `check` answers of the ring's stable solution, where a call of the files fails.
fn check_ring(alloc: Global, call: u64) -> Result<Outcome, Fail> {
    let mut files = ring_failing_at(alloc, call)?;
    outcome(alloc, &["check", "F", "1", "S"], &mut files)
}

// The same, where the output takes three bytes at once and fails at a call.
fn check_ring_in_threes(alloc: Global, call: u64) -> Result<Outcome, Fail> {
    let failing = one_call(alloc, call)?;
    let mut files = MemSource::new(ring(alloc)?, no_call(alloc));
    outcome_by(alloc, &["check", "F", "1", "S"], &mut files, 3, failing)
}

#[test]
fn words_of_no_form_are_misuse(rt: HostRuntime) -> Result<(), Fail> {
    let alloc = rt.alloc();
    let (status, out, _err) = outcome(alloc, &["groups", "F"], &mut no_files(alloc))?;
    assert_eq!(rt; status, Status::Usage);
    assert!(rt; out.taken().is_empty());
    Ok(())
}

#[test]
fn a_file_that_is_not_there_is_named(rt: HostRuntime) -> Result<(), Fail> {
    let alloc = rt.alloc();
    let (status, _out, err) = outcome(alloc, &["classes", "F"], &mut no_files(alloc))?;
    assert_eq!(rt; status, Status::ReadFault);
    assert_eq!(rt; err.taken(), b"read fault: F\n".as_slice());
    Ok(())
}

#[test]
fn an_output_that_fails_is_told_on_err(rt: HostRuntime) -> Result<(), Fail> {
    let alloc = rt.alloc();
    let second = one_call(alloc, 2)?;
    let (status, out, err) = outcome_by(alloc, &["trial", "4"], &mut no_files(alloc), 3, second)?;
    assert_eq!(rt; status, Status::WriteFault);
    assert_eq!(rt; out.taken(), b"cla".as_slice());
    assert_eq!(rt; err.taken(), b"write fault\n".as_slice());
    Ok(())
}

#[test]
fn a_file_that_fails_at_once_is_named(rt: HostRuntime) -> Result<(), Fail> {
    let alloc = rt.alloc();
    let mut files = ring_failing_at(alloc, 1)?;
    let (status, out, err) = outcome(alloc, &["groups", "F", "1"], &mut files)?;
    assert_eq!(rt; status, Status::ReadFault);
    assert!(rt; out.taken().is_empty());
    assert_eq!(rt; err.taken(), b"read fault: F\n".as_slice());
    Ok(())
}

#[test]
fn an_output_that_fails_keeps_the_first_bytes(rt: HostRuntime) -> Result<(), Fail> {
    let alloc = rt.alloc();
    let second = one_call(alloc, 2)?;
    let mut files = MemSource::new(ring(alloc)?, no_call(alloc));
    let (status, out, err) = outcome_by(alloc, &["compress", "F", "1"], &mut files, 10, second)?;
    assert_eq!(rt; status, Status::WriteFault);
    assert_eq!(rt; out.taken(), b"hostname a".as_slice());
    assert_eq!(rt; err.taken(), b"write fault\n".as_slice());
    Ok(())
}

// The configurations are begun, read, and read to their end; then the solution is.
#[test]
fn the_file_whose_call_fails_is_named(rt: HostRuntime) -> Result<(), Fail> {
    let alloc = rt.alloc();
    for call in 1..7u64 {
        let (status, out, err) = check_ring(alloc, call)?;
        assert_eq!(rt; status, Status::ReadFault, "at call {call}");
        assert!(rt; out.taken().is_empty(), "at call {call}");
        let line: &[u8] = if call < 4 {
            b"read fault: F\n"
        } else {
            b"read fault: S\n"
        };
        assert_eq!(rt; err.taken(), line, "at call {call}");
    }
    Ok(())
}

#[test]
fn a_later_call_is_not_made(rt: HostRuntime) -> Result<(), Fail> {
    let alloc = rt.alloc();
    let (status, out, err) = check_ring(alloc, 7)?;
    assert_eq!(rt; status, Status::Done);
    assert_eq!(rt; out.taken(), b"stable\n".as_slice());
    assert!(rt; err.taken().is_empty());
    Ok(())
}

#[test]
fn an_output_keeps_what_it_took_in_threes(rt: HostRuntime) -> Result<(), Fail> {
    let alloc = rt.alloc();
    let cases: [(u64, &[u8]); 3] = [(1, b""), (2, b"sta"), (3, b"stable")];
    for (call, taken) in cases {
        let (status, out, err) = check_ring_in_threes(alloc, call)?;
        assert_eq!(rt; status, Status::WriteFault, "at call {call}");
        assert_eq!(rt; out.taken(), taken, "at call {call}");
        assert_eq!(rt; err.taken(), b"write fault\n".as_slice(), "at call {call}");
    }
    Ok(())
}

// That the first call fails shows that none was made before.
#[test]
fn misuse_reads_no_file(rt: HostRuntime) -> Result<(), Fail> {
    let alloc = rt.alloc();
    let mut files = ring_failing_at(alloc, 1)?;
    let mut out = sink(alloc, no_call(alloc))?;
    let mut err = sink(alloc, one_call(alloc, 1)?)?;
    let status = answer(alloc, &[], &mut files, &mut out, &mut err)?;
    assert_eq!(rt; status, Status::WriteFault);
    assert!(rt; files.begin("F").is_err());
    assert!(rt; files.begin("F").is_ok());
    Ok(())
}

#[test]
fn a_sure_source_without_the_file_has_an_empty_one(rt: HostRuntime) -> Result<(), Fail> {
    let alloc = rt.alloc();
    let mut files = SureSource::new(List::new(alloc));
    let (status, out, err) = outcome(alloc, &["classes", "F"], &mut files)?;
    assert_eq!(rt; status, Status::Done);
    assert!(rt; out.taken().is_empty());
    assert!(rt; err.taken().is_empty());
    Ok(())
}

#[test]
fn devices_that_never_fail_are_done(rt: HostRuntime) -> Result<(), Fail> {
    let alloc = rt.alloc();
    let mut files = SureSource::new(ring(alloc)?);
    let status = answer(
        alloc,
        &["check", "F", "1", "S"],
        &mut files,
        &mut SureSink::new(),
        &mut SureSink::new(),
    )?;
    assert_eq!(rt; status, Status::Done);
    Ok(())
}
