//! The command `show`: stores the result and the channels that a transcript certifies, and prints the summary.
//!
//! It is a view, for `show-live` too.

use crate::inputs::Inputs;
use crate::run::done_status;
use crate::verify::result_text;
use crate::view::{Answer, AnswerText, AnswerTexts, View};
use auction_core::record::Record;
use command_words::run_words::VerifyArgs;
use command_words::show_words::ShowArgs;
use result_text::channels::channels_csv;
use result_text::counts::summary;
use std::alloc::{AllocError as NoMemory, Global};

impl View for ShowArgs<'_> {
    ghost use Rattle.command_words.specs.Words.{show_view};
    ghost use Rattle.commands.specs.Views.{show_answer};

    ghost shown = { λ names. (show_view names).shown };

    ghost says = { λ names. show_answer (show_view names) };

    fn files(&self) -> VerifyArgs<'_> {
        self.shown
    }

    fn answer(&self, alloc: Global, inputs: &Inputs, rec: &Record) -> Result<Answer<'_>, NoMemory> {
        let result = result_text(alloc, inputs, rec)?;
        let channels = channels_csv(alloc, rec)?;
        let printed = summary(alloc, rec, &inputs.book)?;
        let mut stored = Vec::new(alloc);
        stored.push(AnswerText {
            name: self.result,
            text: result,
        })?;
        stored.push(AnswerText {
            name: self.channels,
            text: channels,
        })?;
        Ok(Answer::Tells(AnswerTexts {
            stored,
            printed,
            status: done_status(rec),
        }))
    }
}
