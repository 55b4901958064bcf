// The parts of a result line, written to standard output.
use std::fmt::Display;
use std::io::Stdout;
use std::{fmt, io};

// Where the result lines go, and the outcome of the writes so far. After one that failed nothing more is written, and
// `outcome` keeps its error.
#[derive(Drop)]
pub(crate) struct Results {
    stdout: Stdout,
    outcome: io::Result<()>,
}

impl Results {
    pub(crate) fn new(stdout: Stdout) -> Results {
        Results {
            stdout,
            outcome: Ok(()),
        }
    }

    // The first error of a write, if there was one.
    pub(crate) fn into_outcome(self) -> io::Result<()> {
        self.outcome
    }

    // Writes `text`, if no write before it failed.
    pub(crate) fn print<D: Display + Drop>(&mut self, text: D) {
        if self.outcome.is_ok() {
            self.outcome = self.stdout.print(text);
        }
    }

    // Writes bytes that need not be text, if no write before them failed.
    pub(crate) fn bytes(&mut self, bytes: &[u8]) {
        if self.outcome.is_ok() {
            self.outcome = self.stdout.write_all(bytes);
        }
    }

    // Writes a refusal, with its place and headers where it has them.
    pub(crate) fn refused<D: Display + Drop>(&mut self, refusal: D) {
        self.print(format_args!("refused {refusal}"));
    }
}

// Words, written as four hexadecimal digits each, run together; `-` for none.
#[derive(Drop)]
pub(crate) struct Words<'a>(pub(crate) &'a [u16]);

impl fmt::Display for Words<'_> {
    fn fmt<W: fmt::Write>(&self, f: &mut fmt::Formatter<W>) -> fmt::Result {
        if self.0.is_empty() {
            return write!(f, "-");
        }
        for word in self.0 {
            write!(f, "{word:04X}")?;
        }
        Ok(())
    }
}
