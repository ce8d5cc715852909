//! What a program prints: text and numbers, one after the other.
#![tactic(auto)]

ghost use Rattle.std.specs.Prelude.{◌≡◌, IsOk, IsErr, IfSome, codes};
ghost use Rattle.std.specs.Io.KnownBytes.{Appends};

use std::io;
use std::io::Write;

/// Where a program prints. After a failed write nothing more is written, and `finish` answers its error.
#[derive(Drop)]
pub struct Output<W: Write> {
    to: W,
    written: io::Result<()>,
}

impl<W: Write> Output<W> {
    pub fn new(to: W) -> Output<W>
        ensures writer { result.to ≡ to }
        ensures written { IsOk result.written }
    {
        Output {
            to,
            written: Ok(()),
        }
    }

    pub fn text(&mut self, t: &[u8])
        ensures failed { IsErr self.old.written → self.new ≡ self.old }
        ensures bytes { IsOk self.new.written → Appends (W.contents self.old.to) (W.contents self.new.to) t.now }
    {
        if self.written.is_ok() {
            self.written = self.to.write_all(t);
        }
    }

    pub fn decimal(&mut self, n: u64)
        ensures failed { IsErr self.old.written → self.new ≡ self.old }
    {
        if self.written.is_ok() {
            self.written = write!(self.to, "{n}");
        }
    }

    /// A text and a number after it.
    pub fn named(&mut self, name: &[u8], n: u64)
        ensures failed { IsErr self.old.written → self.new ≡ self.old }
    {
        self.text(name);
        self.decimal(n);
    }

    /// A blank and a number.
    pub fn number(&mut self, n: u64)
        ensures failed { IsErr self.old.written → self.new ≡ self.old }
    {
        self.named(b" ", n);
    }

    /// A number, with which the line ends.
    pub fn answer(&mut self, n: u64)
        ensures failed { IsErr self.old.written → self.new ≡ self.old }
    {
        self.number(n);
        self.line_end();
    }

    pub fn line_end(&mut self)
        ensures failed { IsErr self.old.written → self.new ≡ self.old }
        ensures bytes { IsOk self.new.written → Appends (W.contents self.old.to) (W.contents self.new.to) (codes "\n") }
    {
        self.text(b"\n");
    }

    /// Two hex digits.
    pub fn hex(&mut self, n: u8)
        ensures failed { IsErr self.old.written → self.new ≡ self.old }
    {
        if self.written.is_ok() {
            self.written = write!(self.to, "{n:02x}");
        }
    }
}

impl<W: Write + Drop> Output<W> {
    /// The first error, where a write failed.
    pub fn finish(self) -> io::Result<()>
        ensures { result ≡ self.written }
    {
        self.written
    }
}
