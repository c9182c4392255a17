//! The words after a program's name.

use srch_base::NoMemory;
use std::env;
use std::io::ErrorKind;

/// The words after the program's name. Words that aren't all UTF-8 are taken for none, which no program here knows.
pub fn words_of(rt: &HostRuntime) -> Result<Vec<String>, NoMemory> {
    let mut words = Vec::new(rt.alloc());
    match env::args(rt) {
        Ok(mut args) => {
            let _program = args.next();
            for word in args {
                words.push(word)?;
            }
            Ok(words)
        }
        Err(error) if error.kind() == ErrorKind::OutOfMemory => Err(NoMemory),
        Err(_) => Ok(words),
    }
}
