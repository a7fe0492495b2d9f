//! The list of the jobs of a batch.

ghost use Rattle.std.specs.Prelude.{◌≡◌, IsTrue, IfOk, IfErr, map};
ghost use Rattle.job_list.specs.Jobs.{text_of};
ghost use Rattle.subgraph_cli.specs.Disk.{IsReadingOf};
ghost use Rattle.whole_program.specs.Jobs.{ListSays, AreJobs};
ghost use Rattle.subgraph_cli.specs.Stops.{IsOfFiles};
ghost use Rattle.subgraph_cli.specs.Leaving.{OnlyReads};

use command_line::FileName;
use job_list::{Job, ListFault, read_jobs};
use outer_io::fault::LoadFault;
use outer_io::files::Files;
use outer_io::reading::load;
use std::alloc::Global;
use subgraph_cli::stop::{Role, Stop, TextFault};

/// How many bytes a list has at most.
const LIST_LIMIT: u64 = 1_048_576;

/// A text fault of the list.
fn refused(fault: TextFault) -> Stop
    ensures { result ≡ Stop.Refused Role.JobList fault }
{
    Stop::Refused {
        role: Role::JobList,
        fault,
    }
}

/// The jobs in a file. It is read whole before any of the files that it names is looked at.
pub(crate) fn load_list<F: Files>(
    alloc: Global,
    files: &mut F,
    name: &FileName,
) -> Result<Vec<Job>, Stop>
    ensures says { IsTrue (F.tells files.old) → ListSays result (F.content files.old name.now) }
    ensures jobs { IfOk result (λ jobs. AreJobs (map text_of jobs.items)) }
    ensures loading { IfErr result IsOfFiles }
    ensures files { OnlyReads F.tells F.content F.faults F.fault_at (IsReadingOf name.now) result
        files.old files.new }
{
    let bytes = match load(alloc, files, name.as_str(), LIST_LIMIT) {
        Ok(bytes) => bytes,
        Err(LoadFault::Failed) => return Err(Stop::FilesFault),
        Err(LoadFault::TooLong) => return Err(refused(TextFault::TooLong)),
        Err(LoadFault::NoMemory) => return Err(Stop::NoMemory),
    };
    match read_jobs(alloc, &bytes) {
        Ok(jobs) => Ok(jobs),
        Err(ListFault::Line { line, cause }) => Err(refused(TextFault::Listed { line, cause })),
        Err(ListFault::NoMemory) => Err(Stop::NoMemory),
    }
}
