// The word that a command begins with.
ghost use Rattle.std.specs.Prelude.{◌≡◌, MatchResult, ◌≢◌};
ghost use Rattle.script.specs.declared.verbs.Verb.{Verb as AnyVerb};
ghost use Rattle.script.specs.Verbs.{verb_word};

use crate::fault::LineFault;

#[derive(Clone, Copy)]
pub(crate) enum Verb {
    Archive,
    Space,
    Sender,
    Seal,
    Share,
    Take,
    Dispute,
    Look,
    Next,
    Open,
    Advance,
    Free,
    Floor,
}

// The verb that a word is; no verb has another word.
impl<'a> TryFrom<&'a [u8]> for Verb {
    type Error = LineFault;

    ghost try_from_gives = { λ word r. MatchResult r (λ v. word.now ≡ verb_word v) (λ _. (v : AnyVerb) → word.now ≢ verb_word v) };

    fn try_from(word: &'a [u8]) -> Result<Verb, LineFault> {
        match word {
            b"archive" => Ok(Verb::Archive),
            b"space" => Ok(Verb::Space),
            b"sender" => Ok(Verb::Sender),
            b"seal" => Ok(Verb::Seal),
            b"share" => Ok(Verb::Share),
            b"take" => Ok(Verb::Take),
            b"dispute" => Ok(Verb::Dispute),
            b"look" => Ok(Verb::Look),
            b"next" => Ok(Verb::Next),
            b"open" => Ok(Verb::Open),
            b"advance" => Ok(Verb::Advance),
            b"free" => Ok(Verb::Free),
            b"floor" => Ok(Verb::Floor),
            _ => Err(LineFault::BadLine),
        }
    }
}
