//! Whole contents are read, and first parts are put.

use base_kit::{List, Text};
use io_kit::{
    InFault, MemFile, MemSink, MemSource, Source, SureSink, SureSource, put_all, read_all,
};
use std::alloc::Global;
use std::test::Fail;

fn one_file(alloc: Global, bytes: &[u8]) -> Result<List<MemFile>, Fail> {
    let name = Text::copy_of(alloc, "f")?;
    let bytes = List::from_vec(Vec::from_slice(alloc, bytes)?);
    let mut files = List::new(alloc);
    files.push(MemFile { name, bytes })?;
    Ok(files)
}

fn length_read<S: Source>(
    alloc: Global,
    source: &mut S,
    name: &str,
    limit: usize,
) -> Result<usize, InFault> {
    let bytes = read_all(alloc, source, name, limit)?;
    Ok(bytes.len())
}

#[test]
fn whole_contents_are_read(rt: HostRuntime) -> Result<(), Fail> {
    let alloc = rt.alloc();
    let cases: [(&str, usize, u64, Result<usize, InFault>); 5] = [
        ("f", 5, 0, Ok(5)),
        ("f", 4, 0, Err(InFault::TooLong)),
        ("f", 5, 1, Err(InFault::Failed)),
        ("f", 5, 3, Err(InFault::Failed)),
        ("g", 5, 0, Err(InFault::Failed)),
    ];
    for (name, limit, failing, expected) in cases {
        let mut calls = List::new(alloc);
        calls.push(failing)?;
        let mut source = MemSource::new(one_file(alloc, b"seven")?, calls);
        assert_eq!(rt; length_read(alloc, &mut source, name, limit), expected);
    }
    let mut sure = SureSource::new(one_file(alloc, b"seven")?);
    assert_eq!(rt; length_read(alloc, &mut sure, "f", 5), Ok(5));
    assert_eq!(rt; length_read(alloc, &mut sure, "g", 5), Ok(0));
    Ok(())
}

#[test]
fn first_parts_are_put(rt: HostRuntime) -> Result<(), Fail> {
    let alloc = rt.alloc();
    let cases: [(u64, usize, bool, &[u8]); 4] = [
        (0, 9, true, b"stable\n"),
        (1, 9, false, b""),
        (3, 9, false, b"stable"),
        (0, 4, false, b"stab"),
    ];
    for (failing, room, all, taken) in cases {
        let mut calls = List::new(alloc);
        calls.push(failing)?;
        let mut sink = MemSink::new(alloc, 3, room, calls)?;
        assert_eq!(rt; put_all(&mut sink, b"stable\n").is_ok(), all);
        assert_eq!(rt; sink.taken(), taken);
    }
    let mut sure = SureSink::new();
    assert!(rt; put_all(&mut sure, b"stable\n").is_ok());
    Ok(())
}
