//! Lines, one after the other.

ghost use Rattle.std.specs.Prelude.{◌≡◌, ◌<◌, ◌∷◌, length};
ghost use Rattle.line_text.specs.Lines.{lines_of, without_return};
ghost use Rattle.line_text.specs.Bytes as bytes_of;

/// The line without a carriage return at its end.
fn without_return_of(line: &[u8]) -> &[u8]
    ensures { result.now ≡ without_return line.now }
{
    if line.is_empty() {
        return line;
    }
    let last = line.len() - 1;
    if line[last] == b'\r' {
        let (front, _) = line.split_at(last);
        front
    } else {
        line
    }
}

/// The first line, without its end, and the bytes behind it. A line ends with a line feed, and one
/// carriage return before it is taken off; the last line may lack its end.
pub fn split_line(bytes: &[u8]) -> (&[u8], &[u8])
    requires { 0 < length bytes.now }
    ensures lines { lines_of bytes.now ≡ result.0.now ∷ lines_of result.1.now }
    ensures shorter { length result.1.now < length bytes.now }
{
    for (at, b) in bytes.iter().enumerate() {
        if *b == b'\n' {
            let (line, _) = bytes.split_at(at);
            let (_, rest) = bytes.split_at(at + 1);
            return (without_return_of(line), rest);
        }
    }
    (bytes, b"".as_slice())
}

/// Whether each byte is a tab or one of 32 to 126.
pub fn all_plain(line: &[u8]) -> bool
    ensures { result ≡ bytes_of.all_plain line.now }
{
    line.iter()
        .all(|b| *b == b'\t' || (b' ' <= *b && *b <= b'~'))
}

/// The line up to its comment, which begins with `#`.
pub fn before_comment(line: &[u8]) -> &[u8]
    ensures { result.now ≡ bytes_of.before_comment line.now }
{
    for (at, b) in line.iter().enumerate() {
        if *b == b'#' {
            let (text, _) = line.split_at(at);
            return text;
        }
    }
    line
}
