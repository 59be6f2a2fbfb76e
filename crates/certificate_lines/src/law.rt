//! The law of the lines as they are written.

ghost use Rattle.certificate_lines.specs.Texts.{IsReadAgain};

/// A line that can be written is read again from its text. It does nothing: its contract is the law.
pub fn read_again()
    ensures { IsReadAgain }
{}
