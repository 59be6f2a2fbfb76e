//! Lists in brackets as text.

ghost use Rattle.std.specs.Prelude.{◌≡◌, ◌++◌, OnOk};
ghost use Rattle.line_text.specs.Writing.{behind_text, listing_text};

use ind_base::{List, NoMemory, Text};

/// What has a text.
pub trait Written: Sized {
    ghost use Rattle.std.specs.Prelude.{◌≡◌, ◌++◌, ℕ, List as Sequence, OnOk};

    /// The text.
    ghost text: { Self → Sequence ℕ };

    /// Appends the text.
    fn put(&self, out: &mut List<u8>) -> Result<(), NoMemory>
        ensures { OnOk result (out.new ≡ out.old ++ Self.text self.now) };
}

impl Written for Text {
    ghost text = { λ w. w };

    fn put(&self, out: &mut List<u8>) -> Result<(), NoMemory> {
        out.extend(self.as_slice())
    }
}

/// Appends items behind the first one, and the bracket that closes.
fn put_behind<T: Written>(out: &mut List<u8>, items: &[T]) -> Result<(), NoMemory>
    ensures { OnOk result (out.new ≡ out.old ++ behind_text T.text items.now) }
{
    for x in items {
        out.extend(b",")?;
        x.put(out)?;
    }
    out.extend(b")")
}

/// Appends a list in brackets, with commas and no spaces.
pub fn put_list<T: Written>(out: &mut List<u8>, items: &[T]) -> Result<(), NoMemory>
    ensures { OnOk result (out.new ≡ out.old ++ listing_text T.text items.now) }
{
    match items {
        [first, rest @ ..] => {
            out.extend(b"(")?;
            first.put(out)?;
            put_behind(out, rest)
        }
        _ => out.extend(b"()"),
    }
}
