//! What a search leaves, with the word that the workers shared.
ghost use Rattle.std.specs.Prelude.{◌≡◌, None};

use tsn_answer::Found;
use tsn_incumbent::EndedWord;

/// What a search leaves; and, where several workers have searched and a book is what they leave, the word that they shared, with
/// what each had seen and posted in the end.
#[derive(Drop)]
pub struct Searched {
    pub found: Found,
    pub word: Option<EndedWord>,
}

impl Searched {
    /// What one worker leaves, or an argument.
    pub fn alone(found: Found) -> Searched
        ensures { result ≡ record { found = found; word = None } }
    {
        Searched { found, word: None }
    }
}
