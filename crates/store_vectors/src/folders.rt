//! The disk over a real folder: what it keeps, and what it fails at.
ghost use Rattle.std.specs.Prelude.{◌<◌, ◌^◌};

use crate::bytes::{bytes_of, call_of, number_of};
use crate::folder_steps::{LOG_PAYLOAD, STEPS};
use crate::logs::staged_of;
use crate::rows::{put_difference, verdict};
use crate::telling::{LOG, put_digits, put_log, put_number, put_value};
use chunk_store::{DirDisk, Disk};
use gate_log::{GateLog, Staged};
use srch_base::Failed;
use std::alloc::Global;
use std::fs::{self, File, Permissions};
use std::os::unix::fs::{PermissionsExt, symlink};
use std::test::Fail;
use std::{env, process};

/// What steps in a folder work on.
#[derive(Drop)]
struct Scene<'a> {
    /// The folder as a disk, while it is open.
    disk: Option<DirDisk<&'a HostRuntime>>,
    /// The greatest length that the system lets a file have, once it was looked for.
    greatest: u64,
    /// Permissions don't bind who runs the test.
    is_free: bool,
}

/// The path of the test's folder.
fn folder(rt: &HostRuntime) -> Option<String> {
    let place = env::temp_dir(rt).ok()?;
    let id = process::id(rt.process());
    format!(in rt.alloc(); "{}/store_vectors_{id}", place.as_str()).ok()
}

/// The path of a name in a folder; `/` is the folder itself.
fn path_in(alloc: Global, folder: &str, name: &str) -> Option<String> {
    let mut path = String::from_str(alloc, folder).ok()?;
    path.push_str(name).ok()?;
    Some(path)
}

/// The permissions that a word stands for.
fn mode_of(word: &str) -> Permissions {
    Permissions::from_mode(match word {
        "nothing" => 0,
        "reading" => 0o555,
        _ => 0o755,
    })
}

/// The greatest length that the system lets a file have. The file has it then.
fn longest(rt: &HostRuntime, path: &str) -> Option<u64> {
    let file = File::create(rt, path).ok()?;
    let mut len = 0;
    let mut step = 1 << 62;
    for _ in 0..63 {
        if file.set_len(len | step).is_ok() {
            len |= step;
        }
        step /= 2;
    }
    Some(len)
}

/// Puts the bytes of a file.
fn put_bytes(rt: &HostRuntime, path: &str, text: &mut String) -> Option<()> {
    let bytes = fs::read(rt, path).ok()?;
    put_digits(bytes.as_slice(), text)
}

/// Makes a folder anew, and says whether it could be made.
fn is_made_anew(rt: &HostRuntime, path: &str) -> bool {
    let _was_there = fs::remove_dir_all(rt, path).is_ok();
    fs::create_dir(rt, path).is_ok()
}

/// Does something with a path, and says whether it could be done.
fn is_done(rt: &HostRuntime, kind: &str, path: &str, rest: &str) -> bool {
    match kind {
        "new" => is_made_anew(rt, path),
        "removed" => fs::remove_dir_all(rt, path).is_ok(),
        "folder" => fs::create_dir(rt, path).is_ok(),
        "link" => symlink(rt, rest, path).is_ok(),
        "file" => fs::write(rt, path, rest).is_ok(),
        "mode" => fs::set_permissions(rt, path, mode_of(rest)).is_ok(),
        _ => false,
    }
}

/// Puts what a call that answers nothing else answers.
fn put_done(is_done: bool, text: &mut String) -> Option<()> {
    text.push_str(if is_done { "done" } else { "failed" }).ok()
}

/// Puts a length, or that it is the greatest one.
fn put_length(length: u64, greatest: u64, text: &mut String) -> Option<()> {
    if length == greatest {
        return text.push_str("longest").ok();
    }
    put_number(length, text)
}

/// Puts the length of a file, or that it has none.
fn put_len(len: Result<Option<u64>, Failed>, greatest: u64, text: &mut String) -> Option<()> {
    match len {
        Ok(Some(length)) => put_length(length, greatest, text),
        Ok(None) => text.push_str("none").ok(),
        Err(Failed) => text.push_str("failed").ok(),
    }
}

/// Puts what is read of a file, so many bytes.
fn put_read(
    disk: &mut DirDisk<&HostRuntime>,
    (file, at): (u32, u64),
    count: &str,
    text: &mut String,
) -> Option<()> {
    let mut room = [0; 8];
    let into = room.get_mut(..number_of(count)? as usize)?;
    match disk.read(file, at, into) {
        Ok(()) => put_digits(into, text),
        Err(Failed) => text.push_str("failed").ok(),
    }
}

/// Writes the bytes that these words spell, and says whether that was done.
fn is_written(
    alloc: Global,
    disk: &mut DirDisk<&HostRuntime>,
    (file, at): (u32, u64),
    words: &str,
) -> Option<bool> {
    let bytes = bytes_of(alloc, words)?;
    Some(disk.write(file, at, &bytes).is_ok())
}

/// Puts what a call answers.
fn put_call(
    alloc: Global,
    disk: &mut DirDisk<&HostRuntime>,
    (kind, file, at, rest): (&str, u32, u64, &str),
    greatest: u64,
    text: &mut String,
) -> Option<()> {
    match kind {
        "length" => put_len(disk.len(file), greatest, text),
        "sync" => put_done(disk.sync(file).is_ok(), text),
        "remove" => put_done(disk.remove(file).is_ok(), text),
        "write" => put_done(is_written(alloc, disk, (file, at), rest)?, text),
        _ => put_read(disk, (file, at), rest, text),
    }
}

/// Writes a log of one record.
fn write_log(disk: &mut DirDisk<&HostRuntime>, staged: &Staged) -> Option<()>
    requires { staged.now.number < 2 ^ 63 }
{
    let mut log = GateLog::create(disk, LOG).ok()?;
    log.stage(disk, staged).ok()?;
    log.open_gate(disk).ok()
}

/// Writes a log of one record, and puts what is read of it.
fn put_log_of(alloc: Global, disk: &mut DirDisk<&HostRuntime>, text: &mut String) -> Option<()> {
    let staged = staged_of(alloc, 1, LOG_PAYLOAD)?;
    write_log(disk, &staged)?;
    put_log(alloc, disk, text)
}

/// Opens a folder as a disk in place of the one before, and puts whether it could be opened.
fn put_opened<'a>(
    rt: &'a HostRuntime,
    disk: &mut Option<DirDisk<&'a HostRuntime>>,
    path: &str,
    text: &mut String,
) -> Option<()> {
    match DirDisk::open(rt, rt.alloc(), path) {
        Ok(opened) => {
            *disk = Some(opened);
            put_done(true, text)
        }
        Err(fault) => put_value(&fault, text),
    }
}

/// Puts what a step that isn't a call answers.
fn put_step<'a>(
    rt: &'a HostRuntime,
    scene: &mut Scene<'a>,
    (kind, path, rest): (&str, &str, &str),
    text: &mut String,
) -> Option<()> {
    match kind {
        "open" => return put_opened(rt, &mut scene.disk, path, text),
        "log" => return put_log_of(rt.alloc(), scene.disk.as_mut()?, text),
        "bytes" => return put_bytes(rt, path, text),
        "close" => scene.disk = None,
        "longest" => scene.greatest = longest(rt, path)?,
        "bound" => scene.is_free = fs::create_dir(rt, path).is_ok(),
        _ => return put_done(is_done(rt, kind, path, rest), text),
    }
    put_done(true, text)
}

/// Puts what a step with a path answers.
fn put_path_step<'a>(
    rt: &'a HostRuntime,
    scene: &mut Scene<'a>,
    folder: &str,
    step: &str,
    text: &mut String,
) -> Option<()> {
    let (kind, rest) = step.split_once(' ').unwrap_or((step, ""));
    let (name, rest) = rest.split_once(' ').unwrap_or((rest, ""));
    let path = path_in(rt.alloc(), folder, name)?;
    put_step(rt, scene, (kind, path.as_str(), rest), text)
}

/// Puts what a step in a folder answers.
fn put_answer<'a>(
    rt: &'a HostRuntime,
    scene: &mut Scene<'a>,
    folder: &str,
    step: &str,
    text: &mut String,
) -> Option<()> {
    match call_of(step, scene.greatest) {
        Some(call) => {
            let greatest = scene.greatest;
            put_call(rt.alloc(), scene.disk.as_mut()?, call, greatest, text)
        }
        None => put_path_step(rt, scene, folder, step, text),
    }
}

/// What a step is to answer: behind ` / ` where permissions don't bind who runs the test.
fn wanted_of(wanted: &str, is_free: bool) -> &str {
    match wanted.split_once(" / ") {
        Some((_, free)) if is_free => free,
        Some((bound, _)) => bound,
        None => wanted,
    }
}

/// Puts a step that answers something else.
fn put_if_wrong<'a>(
    rt: &'a HostRuntime,
    scene: &mut Scene<'a>,
    folder: &str,
    line: &str,
    wrong: &mut String,
) -> Option<()> {
    let (step, wanted) = line.split_once(" ⇒ ").unwrap_or((line, "an arrow"));
    let mut answer = String::new(rt.alloc());
    let is_told = put_answer(rt, scene, folder, step, &mut answer).is_some();
    if is_told && answer.as_str() == wanted_of(wanted, scene.is_free) {
        return Some(());
    }
    put_difference(step, answer.as_str(), wrong)
}

/// Puts the steps in a folder that answer something else.
fn put_wrong(rt: &HostRuntime, folder: &str, steps: &str, wrong: &mut String) -> Option<()> {
    let mut scene = Scene {
        disk: None,
        greatest: 0,
        is_free: false,
    };
    for line in steps.lines() {
        put_if_wrong(rt, &mut scene, folder, line, wrong)?;
    }
    Some(())
}

/// Puts the steps in the test's folder that answer something else.
fn put_all_wrong(rt: &HostRuntime, wrong: &mut String) -> Option<()> {
    let folder = folder(rt)?;
    put_wrong(rt, folder.as_str(), STEPS, wrong)
}

#[test]
fn a_folder_answers_so(rt: HostRuntime) -> Result<(), Fail> {
    let mut wrong = String::new(rt.alloc());
    let tried = put_all_wrong(&rt, &mut wrong);
    verdict(tried, wrong)
}
