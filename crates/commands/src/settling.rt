//! Checks whether a step of a verified record can be exported or settled, and prints why a step or a log is rejected.
//!
//! `export` and `import` use it.

ghost use Rattle.std.specs.Prelude.{◌≡◌, ◌≤◌, ◌++◌, IfOk, option_map};
ghost use Rattle.commands.specs.Outside.{IsLinePrintedTo};
ghost use Rattle.commands.specs.Settling.{unsettled_line, missing_fault, open_fault, step_line, step_why, unlogged_text};
ghost use Rattle.undecided_tests.specs.Queries.{step_numbered};

use crate::messages::{print_line, print_line_at};
use auction_core::record::{Record, Shown, Step};
use itoa::Buffer;
use lrat_text::LratErr;
use outside_io::sink::Sink;
use std::alloc::{AllocError as NoMemory, Global};
use undecided_tests::settle::SettleErr;

/// Why a step is not exported or settled.
#[derive(Clone, Copy, Debug, PartialEq, Eq)]
pub enum StepFault {
    /// The record has no step of this number.
    NoSuchStep,
    /// The step's test was decided.
    NotUndecided,
}

// Returns the step of this number, counted from 1, if there is one.
fn step_at(rec: &Record, step: u32) -> Option<&Step>
    ensures { option_map (λ x. x.now) result ≡ step_numbered rec.now.steps step }
{
    let place = (step as usize).checked_sub(1)?;
    rec.steps.as_slice().get(place)
}

/// Returns why this step cannot be exported, or nothing if it can.
pub fn missing_fault(rec: &Record, step: u32) -> Option<StepFault>
    ensures { result ≡ missing_fault (step_numbered rec.now.steps step) }
{
    match step_at(rec, step) {
        Some(_) => None,
        None => Some(StepFault::NoSuchStep),
    }
}

/// Returns why this step cannot be settled, or nothing if it can.
pub fn open_fault(rec: &Record, step: u32) -> Option<StepFault>
    ensures { result ≡ open_fault (step_numbered rec.now.steps step) }
{
    let Some(step) = step_at(rec, step) else {
        return Some(StepFault::NoSuchStep);
    };
    match step.shown {
        Shown::Undecided(_) => None,
        _ => Some(StepFault::NotUndecided),
    }
}

// Returns the words for why a step is not exported or settled, with the line's end.
#[tactic(auto, unfolding(crate::specs::Settling::step_why))]
fn step_why(fault: StepFault) -> &'static str
    ensures { result.now ≡ step_why fault }
{
    match fault {
        StepFault::NoSuchStep => ": no such step\n",
        StepFault::NotUndecided => ": not undecided\n",
    }
}

/// Returns the line that says why the step of this number is not exported or settled.
///
/// # Errors
///
/// Memory ran out.
pub fn step_line(alloc: Global, step: u32, fault: StepFault) -> Result<Vec<u8>, NoMemory>
    ensures { IfOk result (λ text. text.items ≡ step_line step fault) }
{
    let mut number = Buffer::new();
    let mut text = Vec::new(alloc);
    text.extend_from_slice(b"step ")?;
    text.extend_from_slice(number.format(step).as_bytes())?;
    text.extend_from_slice(step_why(fault).as_bytes())?;
    Ok(text)
}

/// Prints why the step of this number is not exported or settled. Allocates no memory.
pub fn print_step_fault<K: Sink>(out: &mut K, step: u32, fault: StepFault)
    ensures says { IsLinePrintedTo (K.modelled out.old) (K.modelled out.new) (step_line step fault) }
    ensures counted { (K.modelled out.old).faults ≤ (K.modelled out.new).faults }
{
    let mut number = Buffer::new();
    print_line(out, &["step ", number.format(step), step_why(fault)]);
}

// Prints why the text of this name is not a log.
#[tactic(auto, unfolding(crate::specs::Settling::unlogged_text))]
fn print_unread<K: Sink>(out: &mut K, name: &str, why: LratErr)
    ensures says { IsLinePrintedTo (K.modelled out.old) (K.modelled out.new) (name.now ++ unlogged_text why) }
    ensures counted { (K.modelled out.old).faults ≤ (K.modelled out.new).faults }
{
    match why {
        LratErr::Truncated => print_line(out, &[name, ": truncated\n"]),
        LratErr::BadLine { n } => print_line_at(out, name, ": line ", n, ": bad line\n"),
        LratErr::RatStep { n } => print_line_at(out, name, ": line ", n, ": RAT step\n"),
        LratErr::NoMemory => print_line(out, &[name, ": out of memory\n"]),
    }
}

/// Prints why the log of this name does not settle the step. Allocates no memory.
#[tactic(auto, unfolding(crate::specs::Settling::log_why))]
pub fn print_log_fault<K: Sink>(out: &mut K, name: &str, fault: SettleErr)
    ensures says { IsLinePrintedTo (K.modelled out.old) (K.modelled out.new) (unsettled_line name.now fault) }
    ensures counted { (K.modelled out.old).faults ≤ (K.modelled out.new).faults }
{
    match fault {
        SettleErr::Unread(why) => print_unread(out, name, why),
        SettleErr::NoRefutation => print_line(out, &[name, ": not a refutation\n"]),
        SettleErr::NoMemory => print_line(out, &[name, ": out of memory\n"]),
    }
}
