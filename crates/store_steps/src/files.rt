//! What is known of the files of an index, beside what they hold.
ghost use Rattle.std.specs.Prelude.{◌≡◌};
ghost use Rattle.store_steps.specs.Doubts.{sure_files};

use gate_log::GateLog;
use root_slots::{Root, RootState};

/// The root and the log of an index, and which files its states name.
///
/// After a root that couldn't be replaced another state than the own one may stand on the disk: it is in doubt. The log that grows is
/// the own state's newer log, and the older log of the one in doubt, so whichever is read has the commits that come.
#[derive(Drop)]
pub struct Files {
    pub root: Root,
    /// The log that grows.
    pub log: GateLog,
    /// The own state: the one that was read at opening, or that was written since.
    pub state: RootState,
    /// The number of the next file that is made: no state names it, nor one behind it.
    pub next_file: u32,
    /// Whether no state is in doubt.
    pub sure: bool,
}

impl Files {
    /// The files of a root that has this state, where none is in doubt.
    pub fn sure(root: Root, state: RootState, log: GateLog) -> Files
        ensures { result ≡ sure_files root state log }
    {
        let next_file = state.next_file;
        Files {
            root,
            log,
            state,
            next_file,
            sure: true,
        }
    }
}
