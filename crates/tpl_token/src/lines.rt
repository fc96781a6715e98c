// The lines of a text.
ghost use Rattle.std.specs.Prelude.{◌≡◌, ◌<◌, ◌≤◌, ◌∷◌, IfSome, length, option_copied};
ghost use Rattle.std.specs.List.{list_any};
ghost use Rattle.tpl_lang.specs.Lines.{length_until, lines, lines_left, stripped, is_bad_byte};

/// How many bytes stand before the first b.
pub fn length_until(bytes: &[u8], b: u8) -> usize
    ensures within { result ≤ length bytes.now }
    ensures value { result ≡ length_until b bytes.now }
{
    let mut n = 0;
    while n < bytes.len() && bytes[n] != b {
        n += 1;
    }
    n
}

/// The first line, and what stands behind its end.
pub fn split_line(bytes: &[u8]) -> (&[u8], Option<&[u8]>)
    ensures split { lines bytes.now ≡ result.0.now ∷ lines_left (option_copied result.1) }
    ensures shorter { IfSome result.1 (λ rest. length rest.now < length bytes.now) }
{
    let n = length_until(bytes, b'\n');
    if n == bytes.len() {
        return (bytes, None);
    }
    (&bytes[..n], Some(&bytes[n + 1..]))
}

/// A line without the carriage return at its end.
pub fn strip(line: &[u8]) -> &[u8]
    ensures { result.now ≡ stripped line.now }
{
    if line.is_empty() || line[line.len() - 1] != b'\r' {
        return line;
    }
    &line[..line.len() - 1]
}

fn is_bad(b: u8) -> bool
    ensures { result ≡ is_bad_byte b }
{
    b != b'\t' && (b < 0x20 || b > 0x7e)
}

/// Whether a byte is none that a text may have.
pub fn has_bad_byte(line: &[u8]) -> bool
    ensures { result ≡ list_any is_bad_byte line.now }
{
    line.iter().any(|b| is_bad(*b))
}
