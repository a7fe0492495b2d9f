//! The files that show an answer of `solve`, where a call fails.

use crate::judged::{Asked, checks_so, leaves, proves_so};
use memory_runs::{
    CLEAN, FOUR_CYCLE, Failing, Gives, Judge, Ran, TRIANGLE, is_judged, part_to_write, parts,
};
use outer_io::MemoryPart;
use std::alloc::{AllocError, Global};
use std::sync::Wait;
use std::test::Fail;
use std::thread::Threads;

/// The head of a log over 34 constraints.
pub const HEAD: &str = "embedding proof 1\nm 34\n";

/// The log of a triangle in a cycle of four vertices, by one worker, to the letter: for each value of vertex 0 the line that takes from vertex 1
/// what is not consistent with it, and the clause of the dead path.
pub const REFUTATION: &str = "embedding proof 1
m 34
p 1.1 4 2 * 12 + 3 * 16 + 31 + 33 + ;
u 1.2 ~x2 ; 1.1 3 ;
p 1.3 4 2 * 11 + 3 * 15 + 32 + 34 + ;
u 1.4 ~x1 ; 1.3 3 ;
p 1.5 4 2 * 14 + 3 * 18 + 31 + 33 + ;
u 1.6 ~x4 ; 1.5 3 ;
p 1.7 4 2 * 13 + 3 * 17 + 32 + 34 + ;
u 1.8 ~x3 ; 1.7 3 ;
u 1.9 ; 1.2 1.4 1.6 1.8 1 ;
e 1.9
";

/// Words by which a triangle is refuted in a cycle of four vertices.
const REFUTES: &str = "subgraph solve p t --prove e --log l";

/// That refutation.
static REFUTED: Asked = Asked(REFUTES, TRIANGLE, FOUR_CYCLE);

/// The same, in a log without hints.
static REFUTED_WITHOUT_HINTS: Asked = Asked(
    "subgraph solve p t --prove e --log l --profile 2",
    TRIANGLE,
    FOUR_CYCLE,
);

/// What a run tells that refutes it.
static TOLD: Gives = Gives(1, "none\n", "");

/// One call on the files fails.
fn of_files(number: u64) -> Failing {
    Failing {
        files: number,
        ..CLEAN
    }
}

/// How many calls load the pattern and the target.
const LOADING: u64 = 6;

/// A run whose call of a number on the files fails, the encoding and the log of one of which none fails, and whether the encoding was whole already
/// where an earlier call failed.
#[derive(Drop)]
struct Fault<'a> {
    number: u64,
    encoding: &'a [u8],
    log: &'a [u8],
    was_whole: bool,
}

impl<'a> Fault<'a> {
    /// Whether a run left its files as the place of the call tells: both untouched where a graph was loaded; the encoding's front and no
    /// log; or the encoding whole, as it is ever after, and the log's front.
    fn is_in_order(&self, ran: &Ran) -> bool {
        let has_log = ran.files.content("l").is_some();
        if self.number <= LOADING {
            ran.files.content("e").is_none() && !has_log
        } else if ran.file("e") == self.encoding {
            self.log.starts_with(ran.file("l"))
        } else {
            !self.was_whole && !has_log && self.encoding.starts_with(ran.file("e"))
        }
    }
}

impl<'a> Judge for Fault<'a> {
    fn judges(&self, ran: &Ran) -> bool {
        ran.gave(5, "", "files: fault\n") && self.is_in_order(ran)
    }
}

/// That a run ends with status 1.
#[derive(Drop)]
struct Refutes;

impl Judge for Refutes {
    fn judges(&self, ran: &Ran) -> bool {
        ran.status == 1
    }
}

/// That a run leaves this encoding.
#[derive(Drop)]
struct Encodes<'a>(&'a [u8]);

impl<'a> Judge for Encodes<'a> {
    fn judges(&self, ran: &Ran) -> bool {
        ran.file("e") == self.0
    }
}

/// The number of the first call on the files whose fault leaves something else, of those where one call after the other fails,
/// or 0.
fn first_out_of_order<R: Threads + Wait + Sync>(
    rt: &R,
    alloc: Global,
    asked: &Asked,
    encoding: &[u8],
    log: &[u8],
) -> Result<u64, AllocError> {
    let mut was_whole = false;
    for number in 1..1000 {
        let failing = of_files(number);
        if was_whole && proves_so(rt, alloc, asked, failing, &Refutes)? {
            return Ok(0);
        }
        let fault = Fault {
            number,
            encoding,
            log,
            was_whole,
        };
        if !proves_so(rt, alloc, asked, failing, &fault)? {
            return Ok(number);
        }
        was_whole = proves_so(rt, alloc, asked, failing, &Encodes(encoding))?;
    }
    Ok(1000)
}

/// Whether there is none.
fn are_in_order<R: Threads + Wait + Sync>(
    rt: &R,
    alloc: Global,
    asked: &Asked,
) -> Result<bool, AllocError> {
    let whole = leaves(rt, alloc, asked, CLEAN, &TOLD)?;
    Ok(first_out_of_order(rt, alloc, asked, &whole.encoding, &whole.log)? == 0)
}

#[test]
fn each_fault_of_a_file_leaves_what_came_before(rt: HostRuntime) -> Result<(), Fail> {
    assert!(rt; are_in_order(&rt, rt.alloc(), &REFUTED)?);
    assert!(rt; are_in_order(&rt, rt.alloc(), &REFUTED_WITHOUT_HINTS)?);
    Ok(())
}

/// That a run leaves this log, or none where it is empty.
#[derive(Drop)]
struct Logs<'a>(&'a str);

impl<'a> Judge for Logs<'a> {
    fn judges(&self, ran: &Ran) -> bool {
        ran.file("l") == self.0.as_bytes()
    }
}

/// Whether a fault of that call on the files leaves this log.
fn leaves_log<R: Threads + Wait + Sync>(
    rt: &R,
    alloc: Global,
    number: u64,
    log: &str,
) -> Result<bool, AllocError> {
    proves_so(rt, alloc, &REFUTED, of_files(number), &Logs(log))
}

/// The number of the first such call whose fault leaves the two head lines of the log, or 0.
fn call_after_the_head<R: Threads + Wait + Sync>(rt: &R, alloc: Global) -> Result<u64, AllocError> {
    for number in 1..1000 {
        if leaves_log(rt, alloc, number, HEAD)? {
            return Ok(number);
        }
    }
    Ok(0)
}

/// Whether a fault of the call before that one leaves the log empty.
fn is_empty_before<R: Threads + Wait + Sync>(
    rt: &R,
    alloc: Global,
    number: u64,
) -> Result<bool, AllocError> {
    if number < 2 {
        return Ok(false);
    }
    leaves_log(rt, alloc, number - 1, "")
}

/// That a run refutes, and leaves the whole log.
#[derive(Drop)]
struct MadeWhole;

impl Judge for MadeWhole {
    fn judges(&self, ran: &Ran) -> bool {
        ran.gave(1, "none\n", "") && ran.file("l") == REFUTATION.as_bytes()
    }
}

/// The pattern and the target, and the files that a run left, with room for what is written to them.
fn files_again(alloc: Global, encoding: &[u8], log: &[u8]) -> Result<Vec<MemoryPart>, AllocError> {
    let mut files = parts(alloc, &[("p", TRIANGLE), ("t", FOUR_CYCLE)])?;
    files.push(part_to_write(alloc, "e", encoding)?)?;
    files.push(part_to_write(alloc, "l", log)?)?;
    Ok(files)
}

/// Whether a second run over the files that a run left makes the log whole.
fn is_made_whole<R: Threads + Wait + Sync>(
    rt: &R,
    alloc: Global,
    encoding: &[u8],
    log: &[u8],
) -> Result<bool, AllocError> {
    let files = files_again(alloc, encoding, log)?;
    is_judged(rt, alloc, REFUTES, files, CLEAN, &MadeWhole)
}

/// What a check tells of a log that has only its head.
static EARLY: Gives = Gives(7, "", "log: line 3: EndsEarly\n");

/// Whether the log that a fault of that call leaves ends early for its check, and a second run makes it whole.
fn is_mended<R: Threads + Wait + Sync>(
    rt: &R,
    alloc: Global,
    number: u64,
) -> Result<bool, AllocError> {
    let it = leaves(rt, alloc, &REFUTED, of_files(number), &EARLY)?;
    Ok(
        checks_so(rt, alloc, &it.encoding, &it.log, &EARLY)?
            && is_made_whole(rt, alloc, &it.encoding, &it.log)?,
    )
}

#[test]
fn the_head_of_a_log_is_added_at_once_ends_early_and_is_made_whole_by_a_second_run(
    rt: HostRuntime,
) -> Result<(), Fail> {
    let number = call_after_the_head(&rt, rt.alloc())?;
    assert!(rt; is_empty_before(&rt, rt.alloc(), number)?);
    assert!(rt; is_mended(&rt, rt.alloc(), number)?);
    Ok(())
}

/// That a run could not tell its answer, and has written this encoding and this log.
#[derive(Drop)]
struct Untold<'a>(&'a [u8], &'a [u8]);

impl<'a> Judge for Untold<'a> {
    fn judges(&self, ran: &Ran) -> bool {
        ran.gave(5, "", "output: fault\n") && ran.file("e") == self.0 && ran.file("l") == self.1
    }
}

/// The number of the first call on the output that a run no longer makes, where the fault of each earlier one leaves the proof
/// whole; 0 where one does not, or there is none.
fn first_told<R: Threads + Wait + Sync>(
    rt: &R,
    alloc: Global,
    untold: &Untold,
) -> Result<u64, AllocError> {
    for number in 1..100 {
        let failing = Failing {
            out: number,
            ..CLEAN
        };
        if number > 1 && proves_so(rt, alloc, &REFUTED, failing, &TOLD)? {
            return Ok(number);
        }
        if !proves_so(rt, alloc, &REFUTED, failing, untold)? {
            return Ok(0);
        }
    }
    Ok(0)
}

/// Whether there is one beyond the first.
fn is_kept<R: Threads + Wait + Sync>(rt: &R, alloc: Global) -> Result<bool, AllocError> {
    let whole = leaves(rt, alloc, &REFUTED, CLEAN, &TOLD)?;
    Ok(first_told(rt, alloc, &Untold(&whole.encoding, &whole.log))? > 1)
}

#[test]
fn each_fault_of_the_output_leaves_the_proof_whole(rt: HostRuntime) -> Result<(), Fail> {
    assert!(rt; is_kept(&rt, rt.alloc())?);
    Ok(())
}

/// That a run refuses what it reads, and writes nothing.
#[derive(Drop)]
struct Untouched;

impl Judge for Untouched {
    fn judges(&self, ran: &Ran) -> bool {
        let is_written = ran.files.content("e").is_some() || ran.files.content("l").is_some();
        ran.status == 4 && !is_written
    }
}

/// Whether nothing is written where one of these texts is refused.
fn is_untouched<R: Threads + Wait + Sync>(
    rt: &R,
    alloc: Global,
    pattern: &str,
    target: &str,
) -> Result<bool, AllocError> {
    let asked = Asked(REFUTES, pattern, target);
    proves_so(rt, alloc, &asked, CLEAN, &Untouched)
}

#[test]
fn nothing_is_written_where_a_graph_is_refused(rt: HostRuntime) -> Result<(), Fail> {
    assert!(rt; is_untouched(&rt, rt.alloc(), "1\nx\n", "0\n")?);
    assert!(rt; is_untouched(&rt, rt.alloc(), "0\n", "1\nx\n")?);
    Ok(())
}
