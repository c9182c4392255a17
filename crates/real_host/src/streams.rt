//! The two standard streams that are printed to, with how often each has failed.
ghost use Rattle.std.specs.Prelude.{◌≡◌, ℕ};
ghost use Rattle.program_host.specs.Printing.{CountsPrint};
ghost use Rattle.real_host.specs.Streams.{faults_of};

use program_host::Stream;
use srch_base::Failed;
use std::io::{self, Stderr, Stdout, Write};

/// The standard streams that are printed to.
#[derive(Drop)]
pub struct Streams {
    output: Stdout,
    errors: Stderr,
    out_faults: u64,
    error_faults: u64,
    refusal: Option<io::Error>,
}

impl Streams {
    /// The streams, of which none has failed yet.
    pub fn new(output: Stdout, errors: Stderr) -> Streams {
        Streams {
            output,
            errors,
            out_faults: 0,
            error_faults: 0,
            refusal: None,
        }
    }

    /// Why printing failed last, none where it hasn't.
    pub fn refusal(&self) -> Option<io::Error> {
        self.refusal
    }

    /// Prints a line to one of them.
    pub fn print(&mut self, to: Stream, line: &[u8]) -> Result<(), Failed>
        ensures { CountsPrint result to (faults_of self.old) (faults_of self.new) }
    {
        let printed = match to {
            Stream::Out => self.output.write_all(line),
            Stream::Err => self.errors.write_all(line),
        };
        match (printed, to) {
            (Ok(()), _) => Ok(()),
            (Err(error), Stream::Out) => {
                self.out_faults = self.out_faults.saturating_add(1);
                self.refusal = Some(error);
                Err(Failed)
            }
            (Err(error), Stream::Err) => {
                self.error_faults = self.error_faults.saturating_add(1);
                self.refusal = Some(error);
                Err(Failed)
            }
        }
    }
}
