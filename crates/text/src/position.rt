//! Lines and columns of a text.

ghost use Rattle.std.specs.Prelude.{◌≡◌, ◌<◌, ◌-◌, ◌^◌, take};
ghost use Rattle.text.specs.Positions.{position_of, step as walked, ends_line as line_end, next_of};

/// Where a place is: its line and its column, both from 1; columns count bytes.
#[derive(Clone, Copy)]
pub struct Position {
    pub line: usize,
    pub column: usize,
}

// Whether a line ends with the byte: a line feed, or a carriage return with none behind it.
fn ends_line(byte: u8, next: Option<u8>) -> bool
    ensures { result ≡ line_end byte next }
{
    byte == b'\n' || byte == b'\r' && next != Some(b'\n')
}

impl Position {
    /// The beginning of a text.
    pub const FIRST: Position = Position { line: 1, column: 1 };

    // Behind a byte: a new line, or the next column.
    fn behind(self, byte: u8, next: Option<u8>) -> Position
        requires { (self.line < 2 ^ 64 - 1) × (self.column < 2 ^ 64 - 1) }
        ensures { result ≡ walked self byte next }
    {
        if ends_line(byte, next) {
            Position {
                line: self.line + 1,
                column: 1,
            }
        } else {
            Position {
                line: self.line,
                column: self.column + 1,
            }
        }
    }

    /// That of a place of the text, in bytes from 0; of its end where the place is beyond that.
    pub fn of(text: &[u8], place: usize) -> Position
        ensures { result ≡ position_of (take place text.now) }
    {
        let before = &text[..place.min(text.len())];
        let mut position = Position::FIRST;
        for (at, byte) in before.iter().enumerate() {
            position = position.behind(*byte, before.get(at + 1).copied());
        }
        position
    }
}
