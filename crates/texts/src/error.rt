// The refusal to make a text.
ghost use Rattle.std.specs.Prelude.{◌≡◌};
ghost use Rattle.texts.specs.Refused.{told};

// The kind has no text of these bytes.
#[derive(Clone, Copy, Debug, PartialEq, Eq)]
pub struct NoSuchText;

impl NoSuchText {
    // The number of this refusal, as a rule of this project has it.
    pub fn number(&self) -> u32
        ensures { result ≡ (told self.now).0 }
    {
        15
    }
}
