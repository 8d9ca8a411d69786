// Calls of the host that have failed.
use diagnostics::{Failure, Operation, Reason};
use std::alloc::Global;
use std::io::Error;

/// Why a call failed.
#[derive(Drop)]
pub enum Cause {
    Host(Error),
    /// The file was read or created in this run under another name.
    SameFile,
    /// Standard output goes to the file.
    IsOutput,
    /// Another run holds the file.
    Locked,
}

impl From<Error> for Cause {
    fn from(error: Error) -> Self {
        Cause::Host(error)
    }
}

/// A call that failed, and what the host says.
#[derive(Drop)]
pub struct Failed {
    operation: Operation,
    name: String,
    cause: Cause,
    words: String,
}

fn host_words(alloc: Global, cause: &Cause) -> String {
    let words = match cause {
        Cause::Host(error) => error.to_string(alloc),
        _ => Ok(String::new(alloc)),
    };
    words.unwrap_or(String::new(alloc))
}

impl Failed {
    /// None where there is no memory to keep the name.
    pub fn new(alloc: Global, operation: Operation, name: &str, cause: Cause) -> Option<Failed> {
        let words = host_words(alloc, &cause);
        match String::from_str(alloc, name) {
            Ok(name) => Some(Failed {
                operation,
                name,
                cause,
                words,
            }),
            Err(_) => None,
        }
    }

    /// The call in the words of messages.
    pub fn failure(&self) -> Failure<'_> {
        let reason = match &self.cause {
            Cause::Host(_) => Reason::Host(self.words.as_str()),
            Cause::SameFile => Reason::SameFile,
            Cause::IsOutput => Reason::IsOutput,
            Cause::Locked => Reason::Locked,
        };
        Failure {
            operation: self.operation,
            name: self.name.as_str(),
            reason,
        }
    }
}
