//! Tables over files and sinks in memory, which fail where they are told to, and tests over the system's files.

ghost use Rattle.std.specs.Prelude.{◌≡◌, ◌≤◌, ◌++◌, Some, length, IsTrue, OnOk, OnErr, codes};
ghost use Rattle.outer_io.specs.KnownText.{Wrote};
ghost use Rattle.outer_io.specs.NamedFiles.{SameOthers};
ghost use Rattle.outer_io.specs.Sinks.{HasBlame};

use outer_io::{
    Failed, FileSink, Files, LoadFault, MemorySink, NAME_LIMIT, PieceRoom, Pieces, Purpose,
    PutFault, RealFiles, RealSink, Sink, load, put_all,
};
use std::alloc::{AllocError, Global};
use std::test::Fail;
use std::{fs, io};
use test_support::{Example, InMemory, all_hold, files_in_memory};

/// A file of five bytes, an empty one, and one that is not there, with room for six bytes.
static THREE_FILES: [InMemory; 3] = [
    InMemory("a", Some(b"abcde"), 0),
    InMemory("e", Some(b""), 0),
    InMemory("l", None, 6),
];

/// A file that is not there.
static LONE_FILE: [InMemory; 1] = [InMemory("p", None, 200_000)];

/// A sink of this much room that fails at no call.
pub fn sink_of(alloc: Global, room: u64) -> Result<MemorySink, AllocError> {
    MemorySink::new(alloc, room, Vec::new(alloc))
}

/// Two puts in a row, through `?`.
fn put_both<S: Sink>(sink: &mut S, first: &[u8], second: &[u8]) -> Result<(), Failed>
    ensures cause { HasBlame S.spot S.rest S.faults S.blamed sink.old sink.new result }
{
    sink.put(first)?;
    sink.put(second)
}

/// A line of three pieces.
fn put_line<S: Sink>(word: &[u8], sink: &mut S) -> Result<(), PutFault>
    ensures text { Wrote (S.spot sink.old).steady (S.contents sink.old) (S.contents sink.new) result
        (codes "< " ++ word.now ++ codes " >") }
    ensures cause { HasBlame S.spot S.rest S.faults S.blamed sink.old sink.new result }
{
    put_all(&[b"< ", word, b" >"], sink)?;
    Ok(())
}

/// A line in a file.
fn write_line<F: Files>(files: &mut F, name: &str) -> Result<(), PutFault>
    requires { length name.now ≤ NAME_LIMIT }
    ensures text { OnOk result (IsTrue (F.tells files.old)
        → F.content files.new name.now ≡ Some (codes "< w >")) }
    ensures failed { OnErr result (F.fault_at files.new ≡ Some (name.now, Purpose.Writing)) }
    ensures later { F.faults files.old ≤ F.faults files.new }
    ensures tells { F.tells files.new ≡ F.tells files.old }
    ensures others { SameOthers name.now (F.content files.old) (F.content files.new) }
{
    files.begin(name)?;
    let mut sink = FileSink::new(files, name);
    put_line(b"w", &mut sink)
}

/// What a file that is asked for gives: its bytes, or why there are none.
type Content = Result<&'static [u8], LoadFault>;

/// Whether what was loaded is this.
fn is_content(loaded: Result<Vec<u8>, LoadFault>, expected: Content) -> bool {
    match loaded {
        Ok(bytes) => expected == Ok(bytes.as_slice()),
        Err(fault) => expected == Err(fault),
    }
}

/// Whether loading the file gives this.
fn loads<F: Files>(alloc: Global, files: &mut F, name: &str, most: u64, expected: Content) -> bool {
    if name.len() > NAME_LIMIT {
        return false;
    }
    is_content(load(alloc, files, name, most), expected)
}

/// Whether a line in the file succeeds.
fn writes<F: Files>(files: &mut F, name: &str) -> bool {
    if name.len() > NAME_LIMIT {
        return false;
    }
    write_line(files, name).is_ok()
}

/// One of the three files, the most bytes that are asked for, the number of the call that fails, and what loading it gives.
struct Loaded(&'static str, u64, u64, Content);

impl<R> Example<R> for Loaded {
    fn holds(&self, _rt: &R, alloc: Global) -> Result<bool, AllocError> {
        let Loaded(name, most, failing, expected) = *self;
        let mut files = files_in_memory(alloc, &THREE_FILES, failing)?;
        Ok(loads(alloc, &mut files, name, most, expected))
    }
}

static LOADED: [Loaded; 11] = [
    Loaded("a", 5, 0, Ok(b"abcde")),
    Loaded("a", 6, 0, Ok(b"abcde")),
    Loaded("a", u64::MAX, 0, Ok(b"abcde")),
    Loaded("a", 4, 0, Err(LoadFault::TooLong)),
    Loaded("a", 0, 0, Err(LoadFault::TooLong)),
    Loaded("e", 0, 0, Ok(b"")),
    Loaded("l", 9, 0, Err(LoadFault::Failed)),
    Loaded("a", 5, 1, Err(LoadFault::Failed)),
    Loaded("a", 5, 2, Err(LoadFault::Failed)),
    Loaded("a", 5, 3, Err(LoadFault::Failed)),
    Loaded("a", 5, 4, Ok(b"abcde")),
];

#[test]
fn loads_whole_or_says_why(rt: HostRuntime) -> Result<(), Fail> {
    all_hold(&rt, rt.alloc(), &LOADED)
}

/// A sink's room, the number of the call that fails, whether two puts succeed, and what the sink then has.
struct Puts(u64, u64, bool, &'static [u8]);

impl<R> Example<R> for Puts {
    fn holds(&self, _rt: &R, alloc: Global) -> Result<bool, AllocError> {
        let Puts(room, failing, is_put, expected) = *self;
        let mut sink = MemorySink::new(alloc, room, Vec::from_slice(alloc, &[failing])?)?;
        let put = put_both(&mut sink, b"ab", b"cd");
        Ok(put.is_ok() == is_put && sink.bytes() == expected)
    }
}

static PUTS: [Puts; 6] = [
    Puts(9, 0, true, b"abcd"),
    Puts(4, 0, true, b"abcd"),
    Puts(3, 0, false, b"abc"),
    Puts(9, 1, false, b""),
    Puts(9, 2, false, b"ab"),
    Puts(9, 3, true, b"abcd"),
];

#[test]
fn sinks_fail_where_told(rt: HostRuntime) -> Result<(), Fail> {
    all_hold(&rt, rt.alloc(), &PUTS)
}

/// One of the three files, the number of the call that fails, whether a line is written, and what the file then holds.
struct Written(&'static str, u64, bool, Option<&'static [u8]>);

impl<R> Example<R> for Written {
    fn holds(&self, _rt: &R, alloc: Global) -> Result<bool, AllocError> {
        let Written(name, failing, is_written, expected) = *self;
        let mut files = files_in_memory(alloc, &THREE_FILES, failing)?;
        Ok(writes(&mut files, name) == is_written && files.content(name) == expected)
    }
}

static WRITTEN: [Written; 7] = [
    Written("l", 0, true, Some(b"< w >")),
    Written("l", 1, false, None),
    Written("l", 2, false, Some(b"")),
    Written("l", 3, false, Some(b"< ")),
    Written("l", 4, false, Some(b"< w")),
    Written("a", 0, false, Some(b"")),
    Written("x", 0, false, None),
];

#[test]
fn files_fail_where_told(rt: HostRuntime) -> Result<(), Fail> {
    all_hold(&rt, rt.alloc(), &WRITTEN)
}

/// What is asked of a file.
enum Asked {
    /// Whether a line in it succeeds.
    Writes(bool),
    /// What loading at most so many bytes of it gives.
    Loads(u64, Content),
}

impl Asked {
    /// Whether it is as told.
    fn is_so<F: Files>(&self, alloc: Global, files: &mut F, name: &str) -> bool {
        match *self {
            Asked::Writes(is_written) => writes(files, name) == is_written,
            Asked::Loads(most, expected) => loads(alloc, files, name, most, expected),
        }
    }
}

/// Whether one after the other is as told.
fn are_so<F: Files>(alloc: Global, files: &mut F, name: &str, asked: &[Asked]) -> bool {
    for one in asked {
        if !one.is_so(alloc, files, name) {
            return false;
        }
    }
    true
}

/// The same of a file of the system.
fn are_really_so(rt: &HostRuntime, name: &str, asked: &[Asked]) -> Result<bool, AllocError> {
    let mut files = RealFiles::new(rt.alloc(), rt)?;
    Ok(are_so(rt.alloc(), &mut files, name, asked))
}

static WRITTEN_AND_LOADED: [Asked; 3] = [
    Asked::Writes(true),
    Asked::Loads(5, Ok(b"< w >")),
    Asked::Loads(4, Err(LoadFault::TooLong)),
];

static GONE: [Asked; 1] = [Asked::Loads(5, Err(LoadFault::Failed))];

#[test]
fn real_files_are_written_and_loaded(rt: HostRuntime) -> Result<(), Fail> {
    let name = "outer_io_written.txt";
    let is_written = are_really_so(&rt, name, &WRITTEN_AND_LOADED)?;
    fs::remove_file(&rt, name)?;
    let is_gone = are_really_so(&rt, name, &GONE)?;
    assert!(rt; is_written && is_gone);
    Ok(())
}

static NO_FILE: [Asked; 2] = [
    Asked::Loads(5, Err(LoadFault::Failed)),
    Asked::Writes(false),
];

#[test]
fn a_directory_is_no_file(rt: HostRuntime) -> Result<(), Fail> {
    assert!(rt; are_really_so(&rt, ".", &NO_FILE)?);
    Ok(())
}

#[test]
fn real_sink_takes_bytes(rt: HostRuntime) {
    let mut sink = RealSink::new(io::writer(&rt));
    assert!(rt; put_both(&mut sink, b"ab", b"cd").is_ok());
}

/// Two parts of a text through a sink that keeps bytes back, and then what it kept.
fn put_and_flush<F: Files>(
    sink: &mut Pieces<F>,
    first: &[u8],
    second: &[u8],
) -> Result<(), Failed> {
    put_both(sink, first, second)?;
    sink.flush()
}

/// The parts in a file, the first as a head or not.
fn write_in_pieces<F: Files>(
    files: &mut F,
    room: &mut PieceRoom,
    is_headed: bool,
    first: &[u8],
    second: &[u8],
) -> Result<(), Failed> {
    files.begin("p")?;
    if is_headed {
        put_and_flush(&mut Pieces::headed(files, "p", room), first, second)
    } else {
        put_and_flush(&mut Pieces::new(files, "p", room), first, second)
    }
}

/// Puts so many bytes behind a text.
fn lengthen(text: &mut Vec<u8>, len: u32) -> Result<(), AllocError> {
    for i in 0..len {
        text.push((i % 251) as u8)?;
    }
    Ok(())
}

/// A text of two parts of these lengths.
fn long_text(alloc: Global, first: u32, second: u32) -> Result<Vec<u8>, AllocError> {
    let mut text = Vec::new(alloc);
    lengthen(&mut text, first)?;
    lengthen(&mut text, second)?;
    Ok(text)
}

/// Whether the first part is a head, the lengths of both, the number of the call that fails (the first is `begin`, and each
/// further one an `add`), and how many bytes the file then holds.
struct InPieces(bool, u32, u32, u64, usize);

impl InPieces {
    /// Whether the file then holds a front part of that length, and all only where the call says so.
    fn has_written(&self, alloc: Global, whole: &[u8]) -> Result<bool, AllocError> {
        let InPieces(is_headed, len, _, failing, expected) = *self;
        let first = whole.get(..len as usize).unwrap_or(&[]);
        let second = whole.get(len as usize..).unwrap_or(&[]);
        let mut room = PieceRoom::new(alloc)?;
        let mut files = files_in_memory(alloc, &LONE_FILE, failing)?;
        let written = write_in_pieces(&mut files, &mut room, is_headed, first, second);
        let is_whole = expected == whole.len();
        Ok(written.is_ok() == is_whole && files.content("p") == whole.get(..expected))
    }
}

impl<R> Example<R> for InPieces {
    fn holds(&self, _rt: &R, alloc: Global) -> Result<bool, AllocError> {
        let whole = long_text(alloc, self.1, self.2)?;
        self.has_written(alloc, &whole)
    }
}

static IN_PIECES: [InPieces; 12] = [
    InPieces(false, 100, 140_000, 0, 140_100),
    InPieces(false, 100, 140_000, 2, 0),
    InPieces(false, 100, 140_000, 3, 65_536),
    InPieces(false, 100, 140_000, 4, 131_072),
    InPieces(false, 100, 140_000, 5, 140_100),
    InPieces(false, 65_535, 1, 2, 0),
    InPieces(false, 65_535, 1, 3, 65_536),
    InPieces(false, 0, 131_072, 4, 131_072),
    InPieces(true, 23, 100_000, 3, 23),
    InPieces(true, 23, 100_000, 4, 65_559),
    InPieces(true, 23, 100_000, 5, 100_023),
    InPieces(true, 23, 0, 3, 23),
];

#[test]
fn pieces_are_whole_but_the_last(rt: HostRuntime) -> Result<(), Fail> {
    all_hold(&rt, rt.alloc(), &IN_PIECES)
}
