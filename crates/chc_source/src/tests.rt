//! Texts, files and sinks with ample memory.

use crate::{
    ByteText, Failed, FileErr, Files, MemFiles, MemSink, QuietFiles, ReadErr, RealFiles, Sink,
    StdSink, WriteErr, read_whole, write_whole,
};
use std::alloc::Global;
use std::fs;
use std::process::Abort;
use std::test::Fail;

#[test]
fn text_grows(rt: HostRuntime) -> Result<(), Fail> {
    let mut text = ByteText::new(rt.alloc());
    text.push(b'a')?;
    text.extend(b"bc")?;
    assert_eq!(rt; text.bytes(), b"abc".as_slice());
    assert_eq!(rt; text.len(), 3);
    Ok(())
}

#[test]
fn files_in_memory(rt: HostRuntime) -> Result<(), Fail> {
    let alloc = rt.alloc();
    let mut files = MemFiles::new(alloc, 7);
    files.hold("b", b"other")?;
    write_whole(alloc, &mut files, "a", b"twenty bytes of text")?;
    assert_eq!(rt; files.held("a"), Some(b"twenty bytes of text".as_slice()));
    assert_eq!(rt; files.held("b"), Some(b"other".as_slice()));
    assert_eq!(rt; files.held("c"), None);
    let text = read_whole(alloc, &mut files, "a", 20)?;
    assert_eq!(rt; text.bytes(), b"twenty bytes of text".as_slice());
    let long = read_whole(alloc, &mut files, "a", 19);
    assert!(rt; matches!(long, Err(ReadErr::TooLong)));
    let absent = read_whole(alloc, &mut files, "c", 19);
    assert!(rt; matches!(absent, Err(ReadErr::Fault)));
    assert_eq!(rt; files.append("c", b"0123456789")?, 7);
    assert_eq!(rt; files.held("c"), Some(b"0123456".as_slice()));
    Ok(())
}

// What stands of a text of 20 bytes, written 7 at a time, where one call fails.
fn stands_after(
    rt: &impl Abort,
    alloc: Global,
    call: u64,
    answer: Result<(), WriteErr>,
    stands: &[u8],
) -> Result<(), Fail> {
    let mut files = MemFiles::new(alloc, 7);
    files.hold("a", b"old")?;
    files.fail_at(call)?;
    let written = write_whole(alloc, &mut files, "a", b"twenty bytes of text");
    assert_eq!(rt; written, answer);
    assert_eq!(rt; files.held("a"), Some(stands));
    Ok(())
}

#[test]
fn failing_writes(rt: HostRuntime) -> Result<(), Fail> {
    let alloc = rt.alloc();
    stands_after(&rt, alloc, 0, Err(WriteErr::Fault), b"old")?;
    stands_after(&rt, alloc, 1, Err(WriteErr::Fault), b"")?;
    stands_after(&rt, alloc, 2, Err(WriteErr::Fault), b"twenty ")?;
    stands_after(&rt, alloc, 3, Err(WriteErr::Fault), b"twenty bytes o")?;
    stands_after(&rt, alloc, 4, Ok(()), b"twenty bytes of text")
}

#[test]
fn failing_reads(rt: HostRuntime) -> Result<(), Fail> {
    let alloc = rt.alloc();
    let mut files = MemFiles::new(alloc, 7);
    files.hold("a", b"text")?;
    files.fail_at(1)?;
    let first = read_whole(alloc, &mut files, "a", 100);
    assert!(rt; matches!(first, Err(ReadErr::Fault)));
    let second = read_whole(alloc, &mut files, "a", 100)?;
    assert_eq!(rt; second.bytes(), b"text".as_slice());
    Ok(())
}

#[test]
fn quiet_files(rt: HostRuntime) -> Result<(), Fail> {
    let alloc = rt.alloc();
    let mut files = QuietFiles::new(alloc, 2);
    files.hold("b", b"other")?;
    let absent = read_whole(alloc, &mut files, "a", 0)?;
    assert_eq!(rt; absent.len(), 0);
    write_whole(alloc, &mut files, "a", b"new")?;
    let text = read_whole(alloc, &mut files, "b", 5)?;
    assert_eq!(rt; text.bytes(), b"other".as_slice());
    assert_eq!(rt; files.held("a"), Some(b"new".as_slice()));
    Ok(())
}

#[test]
fn sink_in_memory(rt: HostRuntime) -> Result<(), Fail> {
    let mut sink = MemSink::new(rt.alloc(), 5)?;
    sink.fail_at(1)?;
    assert_eq!(rt; sink.put(b"abc"), Ok(3));
    assert_eq!(rt; sink.put(b"abc"), Err(Failed));
    assert_eq!(rt; sink.put(b"defg"), Ok(2));
    assert_eq!(rt; sink.put(b"h"), Err(Failed));
    assert_eq!(rt; sink.taken(), b"abcde".as_slice());
    Ok(())
}

#[test]
fn files_of_a_disk(rt: HostRuntime) -> Result<(), Fail> {
    let alloc = rt.alloc();
    let mut files = RealFiles::new(&rt, alloc);
    write_whole(alloc, &mut files, "chc_source.tmp", b"some text")?;
    write_whole(alloc, &mut files, "chc_source.tmp", b"text")?;
    let text = read_whole(alloc, &mut files, "chc_source.tmp", 4)?;
    assert_eq!(rt; text.bytes(), b"text".as_slice());
    fs::remove_file(&rt, "chc_source.tmp")?;
    let absent = read_whole(alloc, &mut files, "chc_source.tmp", 4);
    assert!(rt; matches!(absent, Err(ReadErr::Fault)));
    assert_eq!(rt; files.start("no/such/folder"), Err(FileErr::Failed));
    Ok(())
}

#[test]
fn standard_output(rt: HostRuntime) -> Result<(), Fail> {
    let mut sink = StdSink::new(&rt);
    let count = sink.put(b"a line\n").ok().ok_or("no output")?;
    assert_eq!(rt; count, 7);
    Ok(())
}
