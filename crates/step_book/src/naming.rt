//! What the types of one index agree on. A front that was seen, a book under a lock and a value that was published belong
//! together, and no value of a program can say so: a naming type does. Its members are functions of an index's number, so that
//! one type names all indexes of a program. They are picked once, after all indexes were opened.
use std::marker::Brand;

/// The books, the columns and the beginnings of the indexes, by their numbers.
pub trait Naming {
    ghost use Rattle.std.specs.Prelude.{ℕ};
    ghost use Rattle.logbook.specs.Pages.{Book};
    ghost use Rattle.doc_types.specs.declared.schema.Schema.{Schema};
    ghost use Rattle.step_history.specs.History.{Base};
    ghost use Rattle.step_book.specs.Tellings.{AtOpening};

    /// The book that keeps the line.
    ghost book: { ℕ → Book };

    /// The books of its faults and of its stops.
    ghost faults: { ℕ → Book };

    ghost stops: { ℕ → Book };

    /// The columns.
    ghost schema: { ℕ → Schema };

    /// The snapshot at opening, and where the log ended then.
    ghost base: { ℕ → Base };

    /// What its disk had counted at opening.
    ghost opened: { ℕ → AtOpening };
}

impl Naming for Brand {
    ghost use Rattle.step_book.specs.Tellings.{no_base, no_schema, nothing_opened};

    ghost book = { λ index. record { number = 0; log_name = 0; cells_name = 0 } };

    ghost faults = { λ index. record { number = 0; log_name = 0; cells_name = 0 } };

    ghost stops = { λ index. record { number = 0; log_name = 0; cells_name = 0 } };

    ghost schema = { λ index. no_schema };

    ghost base = { λ index. no_base };

    ghost opened = { λ index. nothing_opened };
}
