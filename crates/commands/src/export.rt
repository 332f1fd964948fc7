//! The command `export`: stores the packing formula of a step's test, for a prover of the user's own.
//!
//! It is a view. `undecided_tests` makes the formula.

ghost use Rattle.std.specs.Prelude.{◌≡◌, IfOk, None};
ghost use Rattle.auction_core.specs.Setup.{IsOfAuction};
ghost use Rattle.commands.specs.Records.{IsRecordIn};
ghost use Rattle.commands.specs.Settling.{missing_fault};
ghost use Rattle.undecided_tests.specs.Queries.{step_numbered};
ghost use Rattle.undecided_tests.specs.Settling.{formula_text};

use crate::inputs::Inputs;
use crate::settling::{missing_fault, step_line};
use crate::status::DONE;
use crate::view::{Answer, AnswerText, AnswerTexts, View};
use auction_core::record::Record;
use command_words::proof_words::ExportArgs;
use command_words::run_words::VerifyArgs;
use std::alloc::{AllocError as NoMemory, Global};
use undecided_tests::formula::formula_of_step;

// Returns the text of the packing formula of the stations that this step asked about.
fn formula_of(alloc: Global, inputs: &Inputs, rec: &Record, step: u32) -> Result<Vec<u8>, NoMemory>
    requires auction { IsOfAuction inputs.now.scenario inputs.now.book }
    requires own { IsRecordIn rec.now.order inputs.now rec.now }
    requires there { missing_fault (step_numbered rec.now.steps step) ≡ None }
    ensures { IfOk result (λ text. text.items ≡ formula_text inputs.now.book rec.now step) }
{
    let text = formula_of_step(alloc, rec, &inputs.book, step)?;
    Ok(text)
}

impl View for ExportArgs<'_> {
    ghost use Rattle.command_words.specs.Words.{export_view};
    ghost use Rattle.commands.specs.Views.{export_answer};

    ghost shown = { λ names. (export_view names).shown };

    ghost says = { λ names. export_answer (export_view names) };

    fn files(&self) -> VerifyArgs<'_> {
        self.shown
    }

    fn answer(&self, alloc: Global, inputs: &Inputs, rec: &Record) -> Result<Answer<'_>, NoMemory> {
        if let Some(fault) = missing_fault(rec, self.step) {
            return Ok(Answer::Lacks(step_line(alloc, self.step, fault)?));
        }
        let text = formula_of(alloc, inputs, rec, self.step)?;
        let mut stored = Vec::new(alloc);
        stored.push(AnswerText {
            name: self.formula,
            text,
        })?;
        Ok(Answer::Tells(AnswerTexts {
            stored,
            printed: Vec::new(alloc),
            status: DONE,
        }))
    }
}
