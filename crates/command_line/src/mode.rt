//! What the program is asked to do.

/// What the program is asked to do, with the values of the options.
#[derive(Clone, Copy)]
pub enum Mode<'a> {
    /// To serve one connection over the standard streams.
    Session {
        config: &'a str,
    },
    /// To serve connections by workers, each with a door of its own, so many one after another.
    Serve {
        config: &'a str,
        listen: &'a str,
        workers: u32,
        sessions: u32,
    },
    /// To open each index and say what it has.
    Check {
        config: &'a str,
    },
    /// To serve so many documents that are generated from a number, and say what was found.
    Selftest {
        number: u32,
        docs: u32,
    },
}
