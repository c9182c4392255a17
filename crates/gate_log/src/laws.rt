//! What the file of a log stands for, by where the log stands in it: the meaning of its clauses on crashes.
ghost use Rattle.std.specs.Prelude.{◌≡◌, ◌⊎◌, ℕ, List, [], ◌∷◌, ◌++◌, Option, Some, None, false, length, map, take};
ghost use Rattle.chunk_store.specs.Images.{contents};
ghost use Rattle.gate_log.specs.Logs.{Stands, IsLogOf, quiet_log};
ghost use Rattle.gate_log.specs.Reading.{AreAlike, IsBadAt, IsReadAs, record_of};
ghost use Rattle.gate_log.specs.declared.reading.Before.{Before as WhatIsBefore};
ghost use Rattle.gate_log.specs.declared.reading.LogRead.{LogRead as TheRead};
ghost use Rattle.gate_log.specs.declared.fault.LogKind.{LogKind};
ghost use Rattle.gate_log.specs.declared.log.GateLog.{GateLog as TheLog};
ghost use Rattle.gate_log.specs.declared.records.LogRecord.{LogRecord};

/// While no gate may be open that isn't known to be, a log's file is read as its records.
pub fn a_log_gives_its_records()
    ensures { (log : TheLog) (records : List LogRecord) (file : Option (List ℕ)) → log.pending ≡ false → Stands log records None file → IsLogOf records (contents file) }
{}

/// While the gate of a staged record is opened, a log's file is read as its records, or as these and the staged one.
pub fn a_log_gives_its_records_or_one_more()
    ensures { (log : TheLog) (records : List LogRecord) (r : LogRecord) (file : Option (List ℕ)) → Stands log records (Some r) file → IsLogOf records (contents file) ⊎ IsLogOf (records ++ r ∷ []) (contents file) }
{}

/// A file whose front was read with no fault is a log with the records that were found.
pub fn a_log_that_is_read_stands()
    ensures { (before : WhatIsBefore) (read : TheRead) (file : ℕ) (most : ℕ) (whole : List ℕ) → IsReadAs before (take most whole) read → read.fault ≡ None → Stands (quiet_log file read.end read.last) (map record_of read.records.items) None (Some whole) }
{}

/// The bytes of a log are read in one way: as one list of records, with one thing wrong behind them or nothing.
pub fn a_log_is_read_in_one_way()
    ensures reading { (before : WhatIsBefore) (bytes : List ℕ) (a b : TheRead) → IsReadAs before bytes a → IsReadAs before bytes b → AreAlike a b }
    ensures records { (bytes : List ℕ) (records others : List LogRecord) → IsLogOf records bytes → IsLogOf others bytes → records ≡ others }
    ensures fault { (bytes : List ℕ) (kind other : LogKind) (place elsewhere : ℕ) → IsBadAt kind place bytes → IsBadAt other elsewhere bytes → (kind ≡ other) × (place ≡ elsewhere) }
    ensures one { (bytes : List ℕ) (records : List LogRecord) (kind : LogKind) (place : ℕ) → IsLogOf records bytes → IsBadAt kind place bytes → ⊥ }
{}
