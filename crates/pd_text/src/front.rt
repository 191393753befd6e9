//! The beginnings of tellings.

ghost use Rattle.std.specs.Prelude.{◌≡◌, ◌++◌, IfOk, OnOk, map};
ghost use Rattle.pd_text.specs.Pieces.{piece_of};
ghost use Rattle.pd_text.specs.Fronts.{front_of_file, front_with, line_with, refusal_pieces, said};

use crate::line::{begin_line, end_line, push_pieces};
use crate::{Form, Piece, Unit};
use std::alloc::{AllocError, Global};
use std::marker::Model;

/// The beginning of a telling, as it stands in its form: what several tellings have in common is written once.
#[derive(Drop)]
pub struct Front {
    form: Form,
    text: Vec<u8>,
}

impl Model for Front {
    ghost use Rattle.pd_text.specs.Fronts.{FrontData};

    ghost Value = { FrontData };

    ghost view = { λ f. record { form = f.form; text = f.text.items } };
}

impl Front {
    /// The beginning of what is told of a file.
    ///
    /// # Errors
    /// There is no memory.
    pub fn of_file(alloc: Global, form: Form, name: &[u8]) -> Result<Front, AllocError>
        ensures { IfOk result (λ front. front ≡ front_of_file form name.now) }
    {
        let mut text = Vec::new(alloc);
        begin_line(&mut text, form)?;
        push_pieces(&mut text, form, &[Piece::File(name)])?;
        Ok(Front { form, text })
    }

    /// The same with pieces behind it.
    ///
    /// # Errors
    /// There is no memory.
    pub fn with(&self, alloc: Global, pieces: &[Piece<'_>]) -> Result<Front, AllocError>
        ensures { IfOk result (λ front. front ≡ front_with self.now (map piece_of pieces.now)) }
    {
        let mut text = Vec::new(alloc);
        text.extend_from_slice(self.text.as_slice())?;
        push_pieces(&mut text, self.form, pieces)?;
        Ok(Front {
            form: self.form,
            text,
        })
    }

    /// The same, and the number of a refusal.
    ///
    /// # Errors
    /// There is no memory.
    pub fn refused(&self, alloc: Global, number: u64) -> Result<Front, AllocError>
        ensures { IfOk result (λ front. front ≡ front_with self.now (refusal_pieces number)) }
    {
        self.with(
            alloc,
            &[
                Piece::Number(b": refused ", b"refusal", Unit::Plain, number),
                Piece::LineWords(b": "),
            ],
        )
    }

    /// Writes a sentence behind it, on a line of its own: the word that it is of, which an object has before it, and behind it what
    /// is likelier meant. The word and the hint are left out where they are empty.
    ///
    /// # Errors
    /// There is no memory; some of the line may stand in the text.
    pub fn say(
        &self,
        text: &mut Vec<u8>,
        word: &[u8],
        sentence: &[u8],
        hint: &[u8],
    ) -> Result<(), AllocError>
        ensures { OnOk result (text.new.items ≡ text.old.items ++ line_with self.now (said word.now sentence.now hint.now)) }
    {
        self.push_line(
            text,
            &[
                Piece::MemberText(b"key", word),
                Piece::Text(b"", b"sentence", sentence),
                Piece::Text(b"; hint: ", b"hint", hint),
            ],
        )
    }

    /// Writes a telling that begins so and ends with these pieces, on a line of its own.
    ///
    /// # Errors
    /// There is no memory; some of the line may stand in the text.
    #[tactic(auto, unfolding(crate::specs::Fronts::line_with))]
    pub fn push_line(&self, text: &mut Vec<u8>, pieces: &[Piece<'_>]) -> Result<(), AllocError>
        ensures { OnOk result (text.new.items ≡ text.old.items ++ line_with self.now (map piece_of pieces.now)) }
    {
        text.extend_from_slice(self.text.as_slice())?;
        push_pieces(text, self.form, pieces)?;
        end_line(text, self.form)
    }
}
