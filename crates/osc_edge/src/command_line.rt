//! The trusted edge to the command line: the words that a program is started with, of which nothing is told.
use std::alloc::AllocError;
use std::{env, io};

/// The words of the command line, without the program's name; none where one of them isn't UTF-8, which is no command
/// either. The `Err` means that there is no memory for them.
pub fn command_words(rt: &HostRuntime) -> Result<Vec<String>, AllocError> {
    let mut words = Vec::new(rt.alloc());
    match env::args(rt) {
        Ok(args) => {
            for word in args.skip(1) {
                words.push(word)?;
            }
        }
        Err(error) if error.kind() == io::ErrorKind::InvalidData => {}
        Err(_) => return Err(AllocError),
    }
    Ok(words)
}
