//! The command `check`.

use anyhow::{Context, Result};
use fjall_base::Disk;
use fjall_disk_folder::FolderReader;
use fjall_files::MARKER_FILE;
use fjall_inspect::{Report, check};
use fjall_script::Status;

// Tells what is wrong, and `ok` where nothing is.
fn tell_faults(rt: &HostRuntime, report: &Report) -> Result<()> {
    if let Some(error) = report.refusal {
        println!(rt;
            "an opening is refused with error {} {error:?}",
            error.number()
        )?;
    }
    for fault in &report.faults {
        let (file, error) = (fault.file.as_str(), fault.error);
        print!(rt; "{file}")?;
        if let Some(offset) = fault.offset {
            print!(rt; " at byte {offset}")?;
        }
        println!(rt; ": error {} {error:?}", error.number())?;
    }
    if report.is_ok() {
        println!(rt; "ok")?;
    }
    Ok(())
}

// Tells what an opening would do to the folder.
fn tell_mending(rt: &HostRuntime, report: &Report, has_marker: bool) -> Result<()> {
    if !has_marker {
        println!(rt; "an opening makes the database anew: no marker stands there")?;
    }
    for cut in &report.cuts {
        println!(rt;
            "an opening cuts {} from byte {} on",
            cut.file.as_str(),
            cut.offset
        )?;
    }
    for name in &report.removals {
        println!(rt; "an opening removes {}", name.as_str())?;
    }
    Ok(())
}

/// `check FOLDER` reads all that a database holds, and prints `ok`, or a line for each fault, and what an opening would cut and remove.
/// The folder stays as it is. Status 1 where something is wrong.
pub fn run(rt: &HostRuntime, arguments: &[String]) -> Result<Status> {
    let [folder] = arguments else {
        return Ok(Status::Usage);
    };
    let alloc = rt.alloc();
    let mut disk = FolderReader::open(rt, alloc, folder).context(format_args!("{folder}"))?;
    let report = check(alloc, &mut disk).context(format_args!("{folder}"))?;
    let has_marker = disk.read(alloc, MARKER_FILE)?.is_some();
    tell_faults(rt, &report)?;
    tell_mending(rt, &report, has_marker || report.refusal.is_some())?;
    Ok(if report.is_ok() {
        Status::Success
    } else {
        Status::Failure
    })
}
