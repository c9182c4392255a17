//! How a run of the tool ended, with its exit status and its line. The line is in place: out of memory can be reported without memory.
ghost use Rattle.std.specs.Prelude.{◌≡◌, ◌+◌, ◌≤◌, ◌++◌, [], codes, length};
ghost use Rattle.doc_types.specs.declared.schema.TheConstants.{MAX_NAME_BYTES};
ghost use Rattle.index_tool.specs.Statuses.{NamesIndex, code_of, shown};

use arrayvec::ArrayVec;
use conf_text::ConfKind;
use itoa::Buffer;
use srch_base::OpenFault;
use store_steps::DamageKind;

/// The most bytes of a status's line.
const MAX_LINE_BYTES: usize = 160;

/// How a run of the tool ended.
#[derive(Clone, Copy, Debug, PartialEq, Eq, Drop)]
pub enum ToolStatus {
    /// All lines were printed.
    Done,
    /// The words aren't those that the tool knows.
    Usage,
    /// The file isn't a configuration: its first fault is of this kind, at this line, counted from 1.
    Config {
        line: u32,
        kind: ConfKind,
    },
    /// The host failed, or the store.
    HostFault,
    /// The files of the index can't be read: this is the first place that is wrong.
    Damaged {
        file: u32,
        place: u64,
        kind: DamageKind,
    },
    NoMemory,
    /// The configuration has no index of this name.
    UnknownIndex,
}

impl ToolStatus {
    /// The exit status of the program.
    pub fn code(&self) -> u8
        ensures { result ≡ code_of self.now }
    {
        match self {
            ToolStatus::Done => 0,
            ToolStatus::Usage => 2,
            ToolStatus::Config { .. } => 3,
            ToolStatus::HostFault => 4,
            ToolStatus::Damaged { .. } => 5,
            ToolStatus::NoMemory => 6,
            ToolStatus::UnknownIndex => 7,
        }
    }

    /// The line that is printed to the errors, with the LF at its end, by the name of the index that was asked for. It is empty where
    /// the work was done.
    pub fn line(&self, index: &[u8]) -> ArrayVec<u8, MAX_LINE_BYTES>
        requires { NamesIndex index.now self.now }
        ensures { result.items ≡ (shown index.now self.now).printed }
    {
        let mut line = ArrayVec::new();
        match self {
            ToolStatus::Done => {}
            ToolStatus::Usage => put(&mut line, b"indextool: bad arguments\n"),
            ToolStatus::Config { line: number, kind } => put_fault(&mut line, *number, *kind),
            ToolStatus::HostFault => put(&mut line, b"indextool: host fault\n"),
            ToolStatus::Damaged { file, place, kind } => {
                put_damage(&mut line, index, *file, *place, *kind);
            }
            ToolStatus::NoMemory => put(&mut line, b"indextool: out of memory\n"),
            ToolStatus::UnknownIndex => put(&mut line, b"indextool: unknown index\n"),
        }
        line
    }
}

/// Appends a text where there is room for it.
fn put(line: &mut ArrayVec<u8, MAX_LINE_BYTES>, text: &[u8])
    requires { length line.old.items + length text.now ≤ MAX_LINE_BYTES }
    ensures { line.new.items ≡ line.old.items ++ text.now }
{
    let _ = line.try_extend_from_slice(text);
}

/// Writes the place and the kind of a configuration's fault.
fn put_fault(line: &mut ArrayVec<u8, MAX_LINE_BYTES>, number: u32, kind: ConfKind)
    requires { line.old.items ≡ [] }
    ensures { line.new.items ≡ (shown [] (ToolStatus.Config number kind)).printed }
{
    let mut digits = Buffer::new();
    put(line, b"indextool: config line ");
    put(line, digits.format(number).as_bytes());
    put(line, b": ");
    put(line, kind.text().as_bytes());
    put(line, b"\n");
}

/// Writes where and how the files of an index are damaged.
fn put_damage(
    line: &mut ArrayVec<u8, MAX_LINE_BYTES>,
    index: &[u8],
    file: u32,
    place: u64,
    kind: DamageKind,
)
    requires begins { line.old.items ≡ [] }
    requires short { length index.now ≤ MAX_NAME_BYTES }
    ensures { line.new.items ≡ (shown index.now (ToolStatus.Damaged file place kind)).printed }
{
    let (mut digits, mut places) = (Buffer::new(), Buffer::new());
    put(line, b"indextool: index ");
    put(line, index);
    put(line, b": file ");
    put(line, digits.format(file).as_bytes());
    put(line, b" at ");
    put(line, places.format(place).as_bytes());
    put(line, b": ");
    put(line, kind.text().as_bytes());
    put(line, b"\n");
}

impl From<OpenFault> for ToolStatus {
    ghost use Rattle.index_tool.specs.Statuses.{status_of};

    ghost from_gives = { λ fault status. status ≡ status_of fault };

    fn from(fault: OpenFault) -> Self {
        match fault {
            OpenFault::NoMemory => ToolStatus::NoMemory,
            OpenFault::Failed => ToolStatus::HostFault,
        }
    }
}
