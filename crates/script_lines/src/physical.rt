//! The physical lines of a text.
ghost use Rattle.std.specs.Prelude.{◌≡◌, ◌+◌, ◌-◌, ◌<◌, ◌≤◌, ◌∷◌, [], drop, length};
ghost use Rattle.std.specs.List.{prefix_len};
ghost use Rattle.script_lines.specs.Physical.{feeds, is_line_byte, physical_lines, without_return};

/// How many bytes from the front on are no line feed.
fn line_len(text: &[u8]) -> usize
    ensures is { result ≡ prefix_len is_line_byte text.now }
    ensures bound { result ≤ length text.now }
{
    for (i, byte) in text.iter().enumerate() {
        if *byte == b'\n' {
            return i;
        }
    }
    text.len()
}

/// A line without one carriage return at its end.
fn without_return(line: &[u8]) -> &[u8]
    ensures { result.now ≡ without_return line.now }
{
    match line.split_last() {
        Some((last, front)) => { if *last == b'\r' { front } else { line } }
        None => line,
    }
}

/// The first physical line of a text, and the text behind it.
#[derive(Drop)]
pub struct PhysicalLine<'a> {
    /// Its bytes, without the line feed and one carriage return before it.
    pub bytes: &'a [u8],
    /// The text behind it.
    pub after: &'a [u8],
    /// How many line feeds end it: one, or none at the end of the text.
    pub ended: u32,
}

/// The first physical line of a text that has one.
pub fn first_line(text: &[u8]) -> PhysicalLine<'_>
    requires { 0 < length text.now }
    ensures lines { physical_lines text.now ≡ result.bytes.now ∷ physical_lines result.after.now }
    ensures shorter { length result.after.now + result.ended ≤ length text.now }
    ensures farther { length result.after.now < length text.now }
    ensures suffix { result.after.now ≡ drop (length text.now - length result.after.now) text.now }
    ensures counted { feeds text.now ≡ result.ended + feeds result.after.now }
    ensures last { result.ended < 1 → result.after.now ≡ [] }
    ensures one { result.ended ≤ 1 }
{
    let (line, rest) = text.split_at(line_len(text));
    match rest.split_first() {
        Some((_, after)) => PhysicalLine {
            bytes: without_return(line),
            after,
            ended: 1,
        },
        None => PhysicalLine {
            bytes: line,
            after: rest,
            ended: 0,
        },
    }
}
