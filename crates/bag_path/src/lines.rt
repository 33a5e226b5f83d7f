//! Splits octets into lines, as in tag files (RFC 8493 section 2.3). The octets need not be UTF-8.
ghost use Rattle.std.specs.Prelude.{◌≡◌, ◌+◌, ◌<◌, ◌≤◌, ◌^◌, ◌⊎◌, ◌∷◌, length, take, slice_index};
ghost use Rattle.std.specs.List.{All};
ghost use Rattle.bag_path.specs.Lines.{IsPlain, line, lines_of};
ghost use Rattle.bag_path.specs.Octets.{lf, cr};

/// How a line ends.
#[derive(Clone, Copy, Debug, PartialEq, Eq)]
pub enum Ending {
    /// A newline.
    Lf,
    /// A carriage return that no newline follows.
    Cr,
    /// A carriage return and a newline, which are one ending.
    CrLf,
    /// The end of the octets. Only the last line can end this way, and then it isn't empty.
    Nothing,
}

/// A line.
#[derive(Clone, Copy, Debug)]
pub struct Line<'a> {
    /// Its number, counted from 1.
    pub number: u64,
    /// Its octets before the ending.
    pub text: &'a [u8],
    /// How it ends.
    pub ending: Ending,
}

/// The lines of octets, in order.
#[derive(Drop)]
pub struct Lines<'a> {
    number: u64,
    rest: &'a [u8],
    ghost in_range: { number + length rest.now < 2 ^ 64 },
}

impl<'a> Lines<'a> {
    ghost use Rattle.std.specs.Prelude.{◌≡◌};
    ghost use Rattle.std.specs.List.{enumerate_from};
    ghost use Rattle.bag_path.specs.Lines.{lines_of};
    ghost use Rattle.bag_path.specs.LinesLeft.{lines_left};

    /// The lines of these octets. If there are no octets, there are no lines.
    pub fn new(octets: &'a [u8]) -> Lines<'a>
        ensures { lines_left result ≡ enumerate_from 1 (lines_of octets.now) }
    {
        Lines {
            number: 1,
            rest: octets,
        }
    }
}

impl<'a> Iterator for Lines<'a> {
    ghost use Rattle.std.specs.Iterator.{YieldsFirstBy, item_count};
    ghost use Rattle.bag_path.specs.LinesLeft.{lines_left, numbered_text};

    type Item = Line<'a>;

    ghost next_gives = { YieldsFirstBy numbered_text lines_left };

    ghost remaining = { item_count lines_left };

    fn next(&mut self) -> Option<Line<'a>> {
        if self.rest.is_empty() {
            return None;
        }
        let number = self.number;
        let (text, ending, rest) = first_line(self.rest);
        self.rest = rest;
        self.number += 1;
        Some(Line {
            number,
            text,
            ending,
        })
    }
}

/// The number of octets before the first LF or CR.
fn text_len(octets: &[u8]) -> usize
    ensures within { result ≤ length octets.now }
    ensures plain { All IsPlain (take result octets.now) }
    ensures ending { result < length octets.now
        → (slice_index octets.now result ≡ lf) ⊎ (slice_index octets.now result ≡ cr) }
{
    for (i, octet) in octets.iter().enumerate() {
        if *octet == b'\n' || *octet == b'\r' {
            return i;
        }
    }
    octets.len()
}

/// The text and the ending of the first line, and the octets after it.
fn first_line(octets: &[u8]) -> (&[u8], Ending, &[u8])
    requires { 0 < length octets.now }
    ensures first { lines_of octets.now ≡ line result.0.now result.1 ∷ lines_of result.2.now }
    ensures shorter { length result.2.now < length octets.now }
{
    let (text, rest) = octets.split_at(text_len(octets));
    if rest.is_empty() {
        return (text, Ending::Nothing, rest);
    }
    if rest[0] == b'\n' {
        return (text, Ending::Lf, &rest[1..]);
    }
    if rest.len() > 1 && rest[1] == b'\n' {
        return (text, Ending::CrLf, &rest[2..]);
    }
    (text, Ending::Cr, &rest[1..])
}
