//! The words of a text that are left, of which each call takes the one that is due.

ghost use Rattle.std.specs.Prelude.{◌≡◌, ◌+◌, ◌<◌, ◌≤◌, ◌^◌, [], ◌∷◌, length, map, Some, None, IfOk, IfErr};
ghost use Rattle.graph_theory.specs.Text.{words, number_of};
ghost use Rattle.graph_theory.specs.LadFault.{refused_at, OnWord};
ghost use Rattle.graph_theory.specs.Progress.{At, IsOpen, Went, StopsAt};

use graph_theory::lad_text::{LadCause, LadFault, Place, refusal};
use graph_theory::text_words::{first_word, number_in};
use std::marker::Model;

/// What is left of a text, and how many of its words were taken.
#[derive(Drop)]
pub(crate) struct Words<'a> {
    rest: &'a [u8],
    taken: u64,
}

impl<'a> Model for Words<'a> {
    ghost Value = { At };

    ghost view = { λ s. (map number_of (words s.rest.now), s.taken) };

    ghost invariant = { λ s. s.taken + length s.rest.now < 2 ^ 63 };
}

impl<'a> Words<'a> {
    pub(crate) fn new(bytes: &'a [u8]) -> Self
        ensures { result ≡ (map number_of (words bytes.entry.now), 0) }
    {
        Words {
            rest: bytes,
            taken: 0,
        }
    }

    /// For how many vertices room is taken first: so many as are announced, but no more than the text can have, since each takes two
    /// bytes at least.
    pub(crate) fn room(&self, announced: u32) -> usize
        ensures { result ≤ announced }
    {
        let most = self.rest.len() / 2;
        let announced = announced as usize;
        if announced < most { announced } else { most }
    }

    /// The fault of the next word.
    fn fault(&self, cause: LadCause) -> LadFault
        ensures { OnWord result (λ w d. (w ≡ self.now.1 + 1) × (d ≡ cause)) }
    {
        LadFault::Word {
            word: self.taken + 1,
            cause,
        }
    }

    /// Takes the number that is due.
    #[inline]
    pub(crate) fn take(&mut self, due: Place) -> Result<u32, LadFault>
        requires { IsOpen due }
        ensures ok { IfOk result
            (λ n. Went self.old self.new (n ∷ []) × (refused_at due (Some (Some n)) ≡ None)) }
        ensures err { IfErr result (λ e. OnWord e (StopsAt self.old [] due)) }
    {
        let Some((word, rest)) = first_word(self.rest) else {
            return Err(self.fault(LadCause::EndsEarly));
        };
        let Some(number) = number_in(word) else {
            return Err(self.fault(LadCause::NotNumber));
        };
        match refusal(due, number) {
            Some(cause) => Err(self.fault(cause)),
            None => {
                self.rest = rest;
                self.taken += 1;
                Ok(number)
            }
        }
    }

    /// Whether no word is left.
    pub(crate) fn finish(&self) -> Result<(), LadFault>
        ensures ok { IfOk result (λ _. self.now.0 ≡ []) }
        ensures err { IfErr result (λ e. OnWord e (StopsAt self.now [] Place.End)) }
    {
        match first_word(self.rest) {
            None => Ok(()),
            Some(_) => Err(self.fault(LadCause::WordsLeft)),
        }
    }
}
