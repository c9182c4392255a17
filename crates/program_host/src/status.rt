//! How a run ended, with its exit status and its line, in one table (docs/MANUAL.md). The line is in place: want of
//! memory can be reported without memory.
ghost use Rattle.std.specs.Prelude.{◌≡◌, ◌+◌, ◌≤◌, ◌++◌, codes, length};
ghost use Rattle.doc_types.specs.declared.schema.TheConstants.{MAX_NAME_BYTES};
ghost use Rattle.program_host.specs.Statuses.{NamesIndex, code_of, line_of, strayed_line};
ghost use Rattle.program_host.specs.steps.Lines.{beginning_of};

use arrayvec::ArrayVec;
use commit_outcomes::Strayed;
use conf_text::ConfKind;
use itoa::Buffer;
use srch_base::{Name, OpenFault};
use store_steps::DamageKind;

/// The most bytes of a status's line.
const MAX_LINE_BYTES: usize = 160;

/// How a run ended.
#[derive(PartialEq, Eq, Drop)]
pub enum Status {
    /// The work was done. Each connection that was served may have ended in any way.
    Done,
    /// The words aren't those that the program knows.
    Usage,
    /// The file isn't a configuration: its first fault is of this kind, at this line, counted from 1.
    Config {
        line: u32,
        kind: ConfKind,
    },
    /// The host failed, or a door, or a store as it was opened.
    HostFault,
    /// The files of an index can't be read: this is the first place that is wrong.
    Damaged {
        index: Name,
        file: u32,
        place: u64,
        kind: DamageKind,
    },
    NoMemory,
    /// What workers and an index count of its history contradicts each other.
    Strayed {
        index: Name,
        strayed: Strayed,
    },
    /// A job of a selftest failed: FLUSH or OPTIMIZE was refused, or it didn't leave one chunk. Another job overtook it or came behind
    /// it, or a limit leaves no room; no cause of it is known here.
    JobFailed,
}

impl Status {
    /// The table of statuses: the program's exit status, and the text that is printed to the errors, or what stands in it before a
    /// place or a name.
    fn row(&self) -> (u8, &'static [u8])
        ensures code { result.0 ≡ code_of self.now }
        ensures text { result.1.now ≡ beginning_of self.now }
    {
        match self {
            Status::Done => (0, b""),
            Status::Usage => (2, b"searchd: bad arguments\n"),
            Status::Config { .. } => (3, b"searchd: config line "),
            Status::HostFault => (4, b"searchd: host fault\n"),
            Status::Damaged { .. } => (5, b"searchd: index "),
            Status::NoMemory => (6, b"searchd: out of memory\n"),
            Status::Strayed { .. } => (7, b"searchd: index "),
            Status::JobFailed => (8, b"searchd: job failed\n"),
        }
    }

    /// The exit status of the program.
    pub fn code(&self) -> u8
        ensures { result ≡ code_of self.now }
    {
        self.row().0
    }

    /// The line that is printed to the errors, with the LF at its end. It is empty where the work was done.
    pub fn line(&self) -> ArrayVec<u8, MAX_LINE_BYTES>
        requires { NamesIndex self.now }
        ensures { result.items ≡ line_of self.now }
    {
        let mut line = ArrayVec::new();
        put(&mut line, self.row().1);
        match self {
            Status::Config { line: number, kind } => put_fault(&mut line, *number, *kind),
            Status::Damaged {
                index,
                file,
                place,
                kind,
            } => put_damage(&mut line, index, *file, *place, *kind),
            Status::Strayed { index, strayed: _ } => put_strayed(&mut line, index),
            Status::Done
            | Status::Usage
            | Status::HostFault
            | Status::NoMemory
            | Status::JobFailed => {}
        }
        line
    }
}

/// Appends a text where there is room for it.
fn put(line: &mut ArrayVec<u8, MAX_LINE_BYTES>, text: &[u8])
    requires { length line.old.items + length text.now ≤ MAX_LINE_BYTES }
    ensures { line.new.items ≡ line.old.items ++ text.now }
{
    let _ = line.try_extend_from_slice(text);
}

/// Appends the place and the kind of a configuration's fault.
fn put_fault(line: &mut ArrayVec<u8, MAX_LINE_BYTES>, number: u32, kind: ConfKind)
    requires { line.old.items ≡ beginning_of (Status.Config number kind) }
    ensures { line.new.items ≡ line_of (Status.Config number kind) }
{
    let mut digits = Buffer::new();
    put(line, digits.format(number).as_bytes());
    put(line, b": ");
    put(line, kind.text().as_bytes());
    put(line, b"\n");
}

/// Appends the name of an index, and where and how its files are damaged.
fn put_damage(
    line: &mut ArrayVec<u8, MAX_LINE_BYTES>,
    index: &Name,
    file: u32,
    place: u64,
    kind: DamageKind,
)
    requires begins { line.old.items ≡ beginning_of (Status.Damaged index.now file place kind) }
    requires short { length index.now ≤ MAX_NAME_BYTES }
    ensures { line.new.items ≡ line_of (Status.Damaged index.now file place kind) }
{
    let (mut digits, mut places) = (Buffer::new(), Buffer::new());
    put(line, index.as_bytes());
    put(line, b": file ");
    put(line, digits.format(file).as_bytes());
    put(line, b" at ");
    put(line, places.format(place).as_bytes());
    put(line, b": ");
    put(line, kind.text().as_bytes());
    put(line, b"\n");
}

/// Appends the name of an index whose history strayed.
fn put_strayed(line: &mut ArrayVec<u8, MAX_LINE_BYTES>, index: &Name)
    requires begins { line.old.items ≡ codes "searchd: index " }
    requires short { length index.now ≤ MAX_NAME_BYTES }
    ensures { line.new.items ≡ strayed_line index.now }
{
    put(line, index.as_bytes());
    put(line, b": history strayed");
    put(line, b"\n");
}

impl From<OpenFault> for Status {
    ghost use Rattle.program_host.specs.Statuses.{status_of};

    ghost from_gives = { λ fault status. status ≡ status_of fault };

    fn from(fault: OpenFault) -> Self {
        match fault {
            OpenFault::NoMemory => Status::NoMemory,
            OpenFault::Failed => Status::HostFault,
        }
    }
}
