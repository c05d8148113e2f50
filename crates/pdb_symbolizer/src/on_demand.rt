//! Reports from a file that is read on demand.

ghost use Rattle.std.specs.Prelude.{◌≡◌};
ghost use Rattle.pdb_symbolizer.specs.TaskReports.{DoesFileTask, WritesRange};
ghost use Rattle.pdb_symbolizer.specs.Tasks.{order_of};

use pdb_arguments::Task;
use pdb_report::{
    AtEnd, FileOnDemand, FileRun, FileSizes, JsonLines, RunFault, Watched, run_file_frames,
    run_file_frames_in, run_file_sizes, run_file_sizes_by_file,
};
use std::alloc::Global;
use std::fs::OpenFile;
use std::io::{Read, Write};
use std::os::unix::fs::FileExt;

/// The size of a file that can be read at any place, in bytes; `None` of any other, such as a pipe
/// or a device, and of one that says that it has no byte, such as the files of `/proc`.
pub fn size_of(file: &impl OpenFile) -> Option<u64> {
    match file.metadata() {
        Ok(metadata) if metadata.is_file() && metadata.len() > 0 => Some(metadata.len()),
        _ => None,
    }
}

/// Writes the report that is asked for from a file that is read on demand. What is said of the
/// file's bytes holds of those that `source` takes the file to have, where they agree with
/// everything that was read.
pub fn run_task_on_demand<'a, F: FileExt + Drop, R: Read, W: Write>(
    alloc: Global,
    task: &Task,
    source: FileOnDemand<'a, F>,
    reader: &mut Watched<R>,
    writer: &mut Watched<W>,
) -> FileRun<'a, F>
    requires { source.order ≡ order_of task.now }
    ensures { DoesFileTask task.now source.entry R.remaining W.contents reader.old
        writer.old writer.new result }
{
    match task {
        Task::Frames { json: true, .. } => run_file_frames_in::<JsonLines, F, R, W>(
            alloc,
            source,
            reader,
            writer,
            AtEnd::LeaveToProcess,
        ),
        Task::Frames { .. } => {
            run_file_frames(alloc, source, reader, writer, AtEnd::LeaveToProcess)
        }
        Task::Sizes {
            start,
            end,
            by_file,
            ..
        } => count_sizes_on_demand(alloc, source, *start, *end, *by_file, writer),
    }
}

/// Writes the report on a range, by source file or by function, from a file that is read on demand;
/// how much was looked up for it isn't reported.
fn count_sizes_on_demand<'a, F: FileExt + Drop, W: Write>(
    alloc: Global,
    source: FileOnDemand<'a, F>,
    start: u32,
    end: u32,
    by_file: bool,
    writer: &mut Watched<W>,
) -> FileRun<'a, F>
    ensures { WritesRange by_file source.entry start end W.contents writer.old writer.new result }
{
    if by_file {
        let FileSizes { outcome, source } = run_file_sizes_by_file(
            alloc, source, start, end, writer,
        );
        return match outcome {
            Ok(_) => FileRun {
                outcome: Ok(()),
                source,
            },
            Err(fault) => FileRun {
                outcome: Err(fault),
                source,
            },
        };
    }
    let FileSizes { outcome, source } = run_file_sizes(alloc, source, start, end, writer);
    match outcome {
        Ok(_) => FileRun {
            outcome: Ok(()),
            source,
        },
        Err(fault) => FileRun {
            outcome: Err(fault),
            source,
        },
    }
}
