//! What is known of the texts read so far.

ghost use Rattle.std.specs.Prelude.{◌≡◌, []};

use crate::names::Names;

/// The names met so far, and how many texts were begun. It moves into a reader of
/// a text, which adds to it, and is handed back by it.
#[derive(Drop)]
pub struct Vocabulary {
    pub names: Names,
    /// stays at 65,535 once it is reached
    pub texts: u16,
}

impl Vocabulary {
    /// No names and no texts.
    pub fn new() -> Vocabulary
        ensures { result ≡ record { names = []; texts = 0 } }
    {
        Vocabulary {
            names: Names::new(),
            texts: 0,
        }
    }
}

impl Default for Vocabulary {
    ghost is_default = { λ v. v ≡ record { names = []; texts = 0 } };

    fn default() -> Vocabulary {
        Vocabulary::new()
    }
}
