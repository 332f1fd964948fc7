//! Views: commands that verify a transcript and then answer by texts about it.
//!
//! A view is a type with the names that it works on, and one function: what it answers about the inputs and the record. `run_view`
//! does all else. The views are `show` and `export`.

ghost use Rattle.std.specs.Prelude.{◌≡◌, ◌⊎◌, ◌++◌, [], IfOk, None, OnOk, map};
ghost use Rattle.auction_core.specs.Setup.{IsOfAuction};
ghost use Rattle.command_words.specs.Words.{verify_view};
ghost use Rattle.commands.specs.Delivery.{Delivers, named_text};
ghost use Rattle.commands.specs.Ends.{EndsOutOfMemory, IsShown};
ghost use Rattle.commands.specs.Faults.{AreFaultsCounted};
ghost use Rattle.commands.specs.Outside.{outside};
ghost use Rattle.commands.specs.Records.{IsRecordIn};
ghost use Rattle.commands.specs.Views.{ViewEnds, answer_text, answer_view};

use crate::delivery::deliver;
use crate::finish::Finish;
use crate::inputs::Inputs;
use crate::messages::explain::print_out_of_memory;
use crate::messages::print_text;
use crate::shown::{ShownAuction, read_verified};
use crate::status::{NO_MEMORY, NOT_SETTLED};
use auction_core::record::Record;
use command_words::run_words::VerifyArgs;
use outside_io::folder::{Folder, NewFile};
use outside_io::sink::Sink;
use std::alloc::{AllocError as NoMemory, Global};

/// A text to store, and the name to store it under.
#[derive(Drop)]
pub struct AnswerText<'a> {
    pub name: &'a str,
    pub text: Vec<u8>,
}

/// The texts of an answer.
#[derive(Drop)]
pub struct AnswerTexts<'a> {
    /// The texts to store, in order.
    pub stored: Vec<AnswerText<'a>>,
    /// The text to print once they are stored.
    pub printed: Vec<u8>,
    /// The status if all is stored and printed: `DONE` or `LEFT_OPEN`.
    pub status: u8,
}

/// What a view answers about a verified transcript.
#[derive(Drop)]
pub enum Answer<'a> {
    /// These texts.
    Tells(AnswerTexts<'a>),
    /// Something that the words name is not there; this line says so.
    Lacks(Vec<u8>),
}

/// A command that answers by texts about a verified transcript.
pub trait View {
    ghost use Rattle.auction_core.specs.declared.record.Record.{Record};
    ghost use Rattle.command_words.specs.Words.{VerifyNames};
    ghost use Rattle.commands.specs.declared.inputs.Inputs.{Inputs};
    ghost use Rattle.commands.specs.Views.{ViewAnswer};

    /// The names of the files of the auction, with its transcript.
    ghost shown: { Self → VerifyNames };

    /// What the view answers about these inputs and the record that their transcript certifies.
    ghost says: { Self → Inputs → Record → ViewAnswer };

    /// Returns the names of the files of the auction.
    fn files(&self) -> VerifyArgs<'_>
        ensures { verify_view result ≡ shown self.now };

    /// Returns the answer. `rec` is the record of `inputs` that their transcript certifies. Uses neither folder nor sink.
    ///
    /// # Errors
    ///
    /// Memory ran out.
    fn answer(&self, alloc: Global, inputs: &Inputs, rec: &Record) -> Result<Answer<'_>, NoMemory>
        requires auction { IsOfAuction inputs.now.scenario inputs.now.book }
        requires own { IsRecordIn rec.now.order inputs.now rec.now }
        ensures { IfOk result (λ answer. answer_view answer ≡ says self.now inputs.now rec.now) };
}

// Appends the texts, as the folder takes them. Fails only if memory runs out.
fn push_files<'t>(files: &mut Vec<NewFile<'t>>, texts: &'t [AnswerText<'_>]) -> Result<(), NoMemory>
    ensures { OnOk result (map named_text files.new.items ≡ map named_text files.old.items ++ map answer_text texts.now) }
{
    let Some((one, rest)) = texts.split_first() else {
        return Ok(());
    };
    files.push(NewFile {
        name: one.name,
        bytes: &one.text,
    })?;
    push_files(files, rest)
}

// Returns the texts to store as the folder takes them. Fails only if memory runs out.
fn files_of<'t>(alloc: Global, texts: &'t [AnswerText<'_>]) -> Result<Vec<NewFile<'t>>, NoMemory>
    ensures { IfOk result (λ files. map named_text files.items ≡ map answer_text texts.now) }
{
    let mut files = Vec::new(alloc);
    push_files(&mut files, texts)?;
    Ok(files)
}

// Stores the texts of an answer and then prints the one to print. Returns the answer's status if all succeeds, else the status of
// what failed.
fn tell<F: Folder, K: Sink>(
    alloc: Global,
    folder: &mut F,
    out: &mut K,
    texts: &AnswerTexts<'_>,
) -> u8
    ensures tells { EndsOutOfMemory (outside (F.modelled folder.old) (K.modelled out.old)) (outside (F.modelled folder.new) (K.modelled out.new)) result None
        ⊎ Delivers (map answer_text texts.now.stored.items) texts.now.printed.items texts.now.status
        (outside (F.modelled folder.old) (K.modelled out.old)) (outside (F.modelled folder.new) (K.modelled out.new)) result }
    ensures counted { AreFaultsCounted
        (outside (F.modelled folder.old) (K.modelled out.old)) (outside (F.modelled folder.new) (K.modelled out.new)) result }
{
    let Ok(files) = files_of(alloc, &texts.stored) else {
        print_out_of_memory(out);
        return NO_MEMORY;
    };
    deliver(folder, out, &files, &texts.printed, texts.status)
}

// Answers about the record that the transcript of these inputs certifies. Returns the status.
fn answer_for<V: View, F: Folder, K: Sink>(
    alloc: Global,
    view: &V,
    folder: &mut F,
    out: &mut K,
    inputs: &Inputs,
    rec: &Record,
) -> u8
    requires auction { IsOfAuction inputs.now.scenario inputs.now.book }
    requires shown { IsShown (V.shown view.now) (outside (F.modelled folder.old) (K.modelled out.old)) inputs.now rec.now }
    ensures ends { ViewEnds (V.shown view.now) (V.says view.now)
        (outside (F.modelled folder.old) (K.modelled out.old)) (outside (F.modelled folder.new) (K.modelled out.new)) result }
    ensures counted { AreFaultsCounted
        (outside (F.modelled folder.old) (K.modelled out.old)) (outside (F.modelled folder.new) (K.modelled out.new)) result }
{
    let Ok(answer) = view.answer(alloc, inputs, rec) else {
        print_out_of_memory(out);
        return NO_MEMORY;
    };
    match &answer {
        Answer::Tells(texts) => tell(alloc, folder, out, texts),
        Answer::Lacks(line) => {
            print_text(out, line);
            NOT_SETTLED
        }
    }
}

/// Reads the inputs and the transcript, checks each step, and answers about the record that the transcript certifies: stores the
/// texts of the answer in order and then prints its text, or prints what is lacking.
///
/// No record is returned. If a file cannot be read or is rejected, or a step cannot be verified, it ends as `verify` does.
pub fn run_view<V: View, F: Folder, K: Sink>(
    alloc: Global,
    view: &V,
    folder: &mut F,
    out: &mut K,
) -> Finish
    ensures ends { ViewEnds (V.shown view.now) (V.says view.now)
        (outside (F.modelled folder.old) (K.modelled out.old)) (outside (F.modelled folder.new) (K.modelled out.new)) result.status }
    ensures none { result.result ≡ None }
    ensures no_other { result.below ≡ None }
    ensures no_batch { result.batch ≡ [] }
    ensures counted { AreFaultsCounted
        (outside (F.modelled folder.old) (K.modelled out.old)) (outside (F.modelled folder.new) (K.modelled out.new)) result.status }
{
    let ShownAuction { inputs, record } = match read_verified(alloc, &view.files(), folder, out) {
        Ok(shown) => shown,
        Err(finish) => return finish,
    };
    Finish::without_record(answer_for(alloc, view, folder, out, &inputs, &record))
}
