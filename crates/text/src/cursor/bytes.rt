//! How much of what is wanted stands at the front of a text (docs/TEXTS.md).

ghost use Rattle.std.specs.Prelude.{◌≡◌, ◌∷◌};
ghost use Rattle.std.specs.List.{prefix_len};
ghost use Rattle.grammar.specs.Bytes.{is_blank as blank, begins_name as begins, goes_in_name as goes_in, is_char as commented};
ghost use Rattle.text.specs.Fronts.{agreed, PartIs, Inside};

/// Whether the byte is white space.
fn is_blank(byte: u8) -> bool
    ensures { result ≡ blank byte }
{
    matches!(byte, b'\t' | b'\n' | b'\r' | b' ')
}

/// Whether a name can begin with the byte.
pub(super) fn begins_name(byte: u8) -> bool
    ensures { result ≡ begins byte }
{
    matches!(byte, b'A'..=b'Z' | b'a'..=b'z' | b'_')
}

/// Whether a name can go on with the byte.
fn goes_in_name(byte: u8) -> bool
    ensures { result ≡ goes_in byte }
{
    begins_name(byte) || matches!(byte, b'0'..=b'9' | b'-' | b'.')
}

/// Whether the byte can stand in a comment, if it does not end it.
fn is_char(byte: u8) -> bool
    ensures { result ≡ commented byte }
{
    matches!(byte, b'\t' | b'\n' | b'\r' | b' '..=127)
}

/// How many bytes at the front are white space.
pub(super) fn blanks(text: &[u8]) -> usize
    ensures { result ≡ prefix_len blank text.now }
{
    text.iter().take_while(|b| is_blank(**b)).count()
}

/// How many bytes at the front can stand in a name.
pub(super) fn name_bytes(text: &[u8]) -> usize
    ensures { result ≡ prefix_len goes_in text.now }
{
    text.iter().take_while(|b| goes_in_name(**b)).count()
}

/// How many bytes of the word stand at the front.
pub(super) fn common(word: &[u8], text: &[u8]) -> usize
    ensures { result ≡ agreed word.now text.now }
{
    word.iter()
        .zip(text)
        .take_while(|(c, b)| **c == **b)
        .count()
}

/// What a comment goes on with.
#[derive(Clone, Copy)]
enum Part {
    /// So many bytes of its inside.
    Inner(usize),
    /// Its end, which is `-->`.
    End,
    /// So many bytes of its end, behind which it does not go on.
    Broken(usize),
}

/// What a comment goes on with that has been read up to here.
fn next_part(text: &[u8]) -> Part
    ensures { PartIs text.now result }
{
    match text {
        [b'-', rest @ ..] => behind_dash(rest),
        [b, ..] if is_char(*b) => Part::Inner(1),
        _ => Part::Broken(0),
    }
}

/// The same, where a `-` stands before the text.
fn behind_dash(text: &[u8]) -> Part
    ensures { PartIs (45 ∷ text.now) result }
{
    match text {
        [b'-', rest @ ..] => match rest {
            [b'>', ..] => Part::End,
            _ => Part::Broken(2),
        },
        [b, ..] if is_char(*b) => Part::Inner(2),
        _ => Part::Broken(1),
    }
}

/// How many bytes at the front are the inside of a comment, behind which stands `-->`;
/// or how many go on as a comment does, where it does not end.
pub(super) fn comment_inside(text: &[u8]) -> Result<usize, usize>
    ensures { Inside text.now result }
{
    let mut at = 0;
    loop {
        match next_part(&text[at..]) {
            Part::Inner(bytes) => at += bytes,
            Part::End => return Ok(at),
            Part::Broken(bytes) => return Err(at + bytes),
        }
    }
}
