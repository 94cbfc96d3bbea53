use std::io::{self, ErrorKind, Write};

/// A write that a signal interrupts is made so often at most.
const MOST_TRIES: u32 = 1_000;

/// A writer that makes a write again which a signal interrupts: one of a long slice goes past a `BufWriter`, which
/// does so for what it keeps alone.
#[derive(Drop)]
pub(crate) struct Patient<W> {
    pub(crate) inner: W,
}

impl<W: Write> Write for Patient<W> {
    ghost contents = { λ patient. W.contents patient.inner };

    fn write(&mut self, buf: &[u8]) -> io::Result<usize> {
        for _try in 0..MOST_TRIES {
            match self.inner.write(buf) {
                Err(error) if error.kind() == ErrorKind::Interrupted => {}
                done => return done,
            }
        }
        Err(io::Error::from(ErrorKind::Interrupted))
    }

    fn flush(&mut self) -> io::Result<()> {
        self.inner.flush()
    }
}
