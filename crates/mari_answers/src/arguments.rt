//! The words that a program was called with.

ghost use Rattle.std.specs.Prelude.{◌≡◌, drop};

use crate::status::Status;
use std::env;
use std::io::ErrorKind;
use std::rt::Env;

/// The words after the first, which is the program's name.
fn after_name(mut words: Vec<String>) -> Vec<String>
    ensures { result.items ≡ drop 1 words.items }
{
    if !words.is_empty() {
        words.remove(0);
    }
    words
}

/// The words after the program's name. One that isn't text makes them no words at all, which are no command; running
/// out of memory has its own status.
pub fn words_of(rt: &(impl Env + AllocGlobal)) -> Result<Vec<String>, Status> {
    match env::args(rt) {
        Ok(words) => match words.collect(rt.alloc()) {
            Ok(words) => Ok(after_name(words)),
            Err(_) => Err(Status::Memory),
        },
        Err(error) if error.kind() == ErrorKind::OutOfMemory => Err(Status::Memory),
        Err(_) => Ok(Vec::new(rt.alloc())),
    }
}
