//! Checks the handlers in directories over any files and any writer. Nothing here calls the system, so that
//! contracts say what a check returns, by what the files hold.
ghost use Rattle.std.specs.Prelude.{◌≡◌, [], IfErr, IfOk};
ghost use Rattle.std.specs.Io.Buffered.{writer_buffer};
ghost use Rattle.kb_handler_report.specs.Check.{HasChecked, Stops, unwritten};

use crate::files::read_extensions;
use crate::report::report_extensions;
use crate::stop::Stop;
use kb_disk::FileSource;
use kb_report::Form;
use std::alloc::Global;
use std::io::{BufWriter, Write};

/// Reads the extensions in these directories, writes the report on their handlers in a form, flushes the
/// buffer, and returns whether all handlers are accepted.
///
/// Errors: why the extensions were not read (first that there are more than 100 directories); then refused
/// memory, or a report that was not written. What was written stays.
pub fn check_extensions<F: FileSource, W: Write + Drop>(
    alloc: Global,
    files: &F,
    dirs: &[&str],
    form: Form,
    out: &mut BufWriter<W>,
) -> Result<bool, Stop>
    ensures checked { IfOk result (HasChecked (F.held files.now) dirs.now) }
    ensures stopped { IfErr result (Stops (F.held files.now) dirs.now) }

    // An answer is only given if no part of the report is left in the buffer.
    ensures flushed { IfOk result (λ all. writer_buffer out.new ≡ []) }
{
    let extensions = read_extensions(files, alloc, dirs)?;
    let end = report_extensions(alloc, extensions.as_slice(), form, out);
    match out.flush() {
        Ok(()) => end,
        Err(_) => unwritten(end),
    }
}

/// The end of a check whose report was not written.
fn unwritten(end: Result<bool, Stop>) -> Result<bool, Stop>
    ensures { result ≡ unwritten end }
{
    match end {
        Ok(_) => Err(Stop::NotWritten),
        Err(stop) => Err(stop),
    }
}
