//! The outside of the program: a folder of files and a sink of bytes, each with a count of its faults.
//!
//! `MemoryFolder` and `MemorySink` live in memory, for tests. Their contents are part of the model: `MemoryFolder` is a modelled
//! folder and `MemorySink` a modelled sink. Calls chosen by number fail.
//!
//! `RealFolder` and `RealSink` call the operating system, and are not modelled: no contract says what a real file or the standard
//! output contains. What is proved of them:
//!
//! - A load, and all pieces of a file together, keep to their limit.
//! - A call that returns `Failed` has counted a fault, and no other call has.
//! - A piece with bytes does not end its file.
//! - If the reader is modelled, the loops read all of its bytes, and a piece reads the next ones. If the writer is modelled, the
//! loops write all bytes.
//!
//! That the system's files and its output behave like such a reader and such a writer is trusted.
//!
//! The crate calls the standard library only. `commands` and the crates above it reach the outside through this crate; no reader,
//! solver or check of answers uses it.
//!
//! The modules in reading order:
//!
//! - `folder`, `sink`: the traits.
//! - `real`: the folder and sink of the operating system.
//! - `atomic_store`, `writing`: how `real` stores files and writes bytes.
//! - `memory_folder`, `memory_sink`: the folder and sink in memory.
//! - `piece_file`, `fault_plan`, `diary`: their parts.
#![tactic(auto)]

mod atomic_store;
pub mod diary;
mod fault_plan;
pub mod folder;
pub mod memory_folder;
pub mod memory_sink;
mod piece_file;
pub mod real;
pub mod sink;
mod writing;
