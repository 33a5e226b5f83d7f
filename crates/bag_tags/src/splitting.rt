//! Splits lines at blanks and at other octets.
ghost use Rattle.std.specs.Prelude.{◌≡◌, ◌≤◌, length, take, drop};
ghost use Rattle.bag_tags.specs.Words.{begins_blank, is_blank, is_blank_line, without};
ghost use Rattle.bag_tags.specs.WordsReading.{cuts, until};

/// The byte order mark of UTF-8.
pub(crate) const MARK: &[u8] = b"\xEF\xBB\xBF";

/// The octets before which a text is cut.
#[derive(Clone, Copy, Debug, PartialEq, Eq)]
pub(crate) enum Cut {
    Blank,
    NoBlank,
    Dot,
    Colon,
}

impl Cut {
    ghost use Rattle.std.specs.Prelude.{◌≡◌};
    ghost use Rattle.bag_tags.specs.WordsReading.{cuts};

    fn is_at(self, octet: u8) -> bool
        ensures { result ≡ cuts self octet }
    {
        match self {
            Cut::Blank => is_blank(octet),
            Cut::NoBlank => !is_blank(octet),
            Cut::Dot => octet == b'.',
            Cut::Colon => octet == b':',
        }
    }
}

/// The octets before the first one at which the text is cut, and the rest with that one.
pub(crate) fn split_at_first(text: &[u8], cut: Cut) -> (&[u8], &[u8])
    ensures { until (cuts cut) text.now ≡ (result.0.now, result.1.now) }
{
    text.split_at(front_len(text, cut))
}

/// Does the same for a `str`.
pub(crate) fn split_text(text: &str, cut: Cut) -> (&str, &str)
    ensures { until (cuts cut) text.now ≡ (result.0.now, result.1.now) }
{
    text.split_at(front_len(text.as_bytes(), cut))
}

fn front_len(text: &[u8], cut: Cut) -> usize
    ensures within { result ≤ length text.now }
    ensures front { until (cuts cut) text.now ≡ (take result text.now, drop result text.now) }
{
    for (i, octet) in text.iter().enumerate() {
        if cut.is_at(*octet) {
            return i;
        }
    }
    text.len()
}

/// Whether an octet is a space or a tab.
pub(crate) fn is_blank(octet: u8) -> bool
    ensures { result ≡ is_blank octet }
{
    octet == b' ' || octet == b'\t'
}

/// Whether a text begins with a space or a tab.
pub(crate) fn begins_blank(text: &[u8]) -> bool
    ensures { result ≡ begins_blank text.now }
{
    match text.first() {
        Some(octet) => is_blank(*octet),
        None => false,
    }
}

/// Whether a line is empty or only blanks.
pub(crate) fn is_blank_line(text: &[u8]) -> bool
    ensures { result ≡ is_blank_line text.now }
{
    text.iter().all(|octet| is_blank(*octet))
}

/// The text without this front, or the whole text if it doesn't begin with it.
pub(crate) fn without<'a>(front: &[u8], text: &'a [u8]) -> &'a [u8]
    ensures { result.now ≡ without front.now text.now }
{
    text.strip_prefix(front).unwrap_or(text)
}
