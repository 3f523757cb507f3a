//! The whole program over its words, its files and its two outputs, so that a test can run it in memory.

ghost use Rattle.std.specs.Prelude.{◌≡◌, ◌≢◌, ◌⊎◌, [], map};
ghost use Rattle.clap.specs.Words.{kind_of};
ghost use Rattle.fab_text.specs.Failures.{grown};
ghost use Rattle.vplace.specs.Asking.{AskForHelp, AskForHelpAlone, IsServed, faults};
ghost use Rattle.vplace.specs.Done.{IsAsAsked, IsChecked, IsExample, IsPlaced, IsResumed, IsTold};
ghost use Rattle.vplace.specs.Said.{IsFaultSaid, IsSaid, no_memory_line};
ghost use Rattle.vplace.specs.Status.{IsRefused};

use crate::arguments::as_bytes;
use crate::check_command::{check_files, check_texts};
use crate::example::{ARCH, NET, PLACE};
use crate::files::NamedFiles;
use crate::flags::{Asked, parse_words};
use crate::messages;
use crate::place_command::place_files;
use crate::resume_command::resume_files;
use crate::status::Status;
use clap::Error;
use clap::error::ErrorKind;
use fab_text::{Sink, write_whole};
use std::alloc::{AllocError, Global};
use std::sync::Wait;
use std::thread::Threads;

// The parser's message about a command line, as bytes.
fn text_of(alloc: Global, error: &Error) -> Result<Vec<u8>, AllocError> {
    let text = error.to_string(alloc)?;
    as_bytes(alloc, text.as_str())
}

// Prints requested help on the output, and what is wrong with the words on standard error.
fn tell<O: Sink, E: Sink>(alloc: Global, error: &Error, out: &mut O, err: &mut E) -> Status
    ensures silent { IsRefused result → O.contents out.new ≡ O.contents out.old }
    ensures written { result ≡ Status.Done → O.failed out.new ≡ O.failed out.old }
    ensures quiet { result ≡ Status.Done → E.contents err.new ≡ E.contents err.old }
    ensures said { result ≢ Status.Done →
        IsFaultSaid (E.contents err.old) (E.contents err.new) (E.failed err.old)
        (E.failed err.new) }
    ensures told { result ≡ Status.Done → IsTold (O.contents out.old) (O.contents out.new) }
    ensures memory { result ≡ Status.NoMemory →
        IsSaid no_memory_line (E.contents err.old) (E.contents err.new) (E.failed err.old)
        (E.failed err.new) }
    ensures help { result ≡ Status.Done → (kind_of error.now ≡ ErrorKind.DisplayHelp) ⊎
        (kind_of error.now ≡ ErrorKind.DisplayVersion) }
    ensures wrong { kind_of error.now ≢ ErrorKind.DisplayHelp →
        kind_of error.now ≢ ErrorKind.DisplayVersion → (result ≡ Status.CommandLine) ⊎
        (result ≡ Status.NoMemory) }
    ensures served { (kind_of error.now ≡ ErrorKind.DisplayHelp) ⊎
        (kind_of error.now ≡ ErrorKind.DisplayVersion) →
        IsServed result (O.failed out.old) (O.failed out.new) }
    ensures starved { kind_of error.now ≡ ErrorKind.OutOfMemory → result ≡ Status.NoMemory }
{
    if error.kind() == ErrorKind::OutOfMemory {
        return messages::no_memory(err);
    }
    let Ok(text) = text_of(alloc, error) else {
        return messages::no_memory(err);
    };
    // The parser's text is never empty.
    if text.is_empty() {
        return messages::no_memory(err);
    }
    if error.use_stderr() {
        let _ = write_whole(err, text.as_slice());
        return Status::CommandLine;
    }
    match write_whole(out, text.as_slice()) {
        Ok(()) => Status::Done,
        Err(_) => messages::unwritable_report(err),
    }
}

// Does what the words ask for.
fn run<R: AllocGlobal + Threads + Wait + Sync, F: NamedFiles, O: Sink, E: Sink>(
    rt: &R,
    words: &[Vec<u8>],
    files: &mut F,
    out: &mut O,
    err: &mut E,
) -> Status
    ensures silent { IsRefused result → O.contents out.new ≡ O.contents out.old }
    ensures written { result ≡ Status.Done → O.failed out.new ≡ O.failed out.old }
    ensures quiet { result ≡ Status.Done → E.contents err.new ≡ E.contents err.old }
    ensures said { result ≢ Status.Done →
        IsFaultSaid (E.contents err.old) (E.contents err.new) (E.failed err.old)
        (E.failed err.new) }
    ensures memory { result ≡ Status.NoMemory →
        IsSaid no_memory_line (E.contents err.old) (E.contents err.new) (E.failed err.old)
        (E.failed err.new) }
    ensures example { words.now ≡ [] → result ≡ Status.Done →
        IsExample ARCH.now NET.now PLACE.now (O.contents out.old) (O.contents out.new) }
    ensures decided { result ≡ Status.Done →
        IsAsAsked ARCH.now NET.now PLACE.now (map (λ word. word.items) words.now) (F.held files.old)
        (F.held files.new) (O.contents out.old) (O.contents out.new) }
    ensures wrong { words.now ≢ [] → faults (map (λ word. word.items) words.now) ≢ [] →
        (result ≡ Status.CommandLine) ⊎
        ((result ≡ Status.NoMemory) ⊎ AskForHelp (map (λ word. word.items) words.now)) }
    ensures kept { result ≢ Status.Done → F.held files.new ≡ F.held files.old }
    ensures served { AskForHelpAlone (map (λ word. word.items) words.now) →
        IsServed result (O.failed out.old) (O.failed out.new) }
{
    let alloc = rt.alloc();
    match parse_words(alloc, words) {
        Ok(Asked::Example) => { check_texts(alloc, ARCH, NET, PLACE, out, err) }
        Ok(Asked::Check(names)) => check_files(alloc, &names, &*files, out, err),
        Ok(Asked::Place(words)) => place_files(rt, &words, files, out, err),
        Ok(Asked::Resume(words)) => resume_files(rt, &words, files, out, err),
        Err(error) => tell(alloc, &error, out, err),
    }
}

/// Does what the words ask for. Returns the exit status: 0 done, 1 a file or the size of the array is refused or the design does not fit, 2
/// the command line, 3 no memory, 4 a device. `words` are those after the program's name.
pub fn program<R: AllocGlobal + Threads + Wait + Sync, F: NamedFiles, O: Sink, E: Sink>(
    rt: &R,
    words: &[Vec<u8>],
    files: &mut F,
    out: &mut O,
    err: &mut E,
) -> u8
    // Nothing is written to the output if a file, the size of the array or the command line is refused.
    ensures silent { (result ≡ 1) ⊎ (result ≡ 2) → O.contents out.new ≡ O.contents out.old }

    // If the status is 0, no write to the output failed, and nothing was printed on standard error.
    ensures written { result ≡ 0 → O.failed out.new ≡ O.failed out.old }
    ensures quiet { result ≡ 0 → E.contents err.new ≡ E.contents err.old }

    // If the status is not 0, something was printed on standard error, unless that failed too. With status 3, it is that there was no
    // memory.
    ensures said { result ≢ 0 →
        IsFaultSaid (E.contents err.old) (E.contents err.new) (E.failed err.old)
        (E.failed err.new) }
    ensures memory { result ≡ 3 →
        IsSaid no_memory_line (E.contents err.old) (E.contents err.new) (E.failed err.old)
        (E.failed err.new) }

    // With no words, the status is 0 only if the report of the check of the built-in texts was written.
    ensures example { words.now ≡ [] → result ≡ 0 →
        IsExample ARCH.now NET.now PLACE.now (O.contents out.old) (O.contents out.new) }

    // In all, status 0 means that one of these was written: help or the version; the report of the built-in check, or of a check of named
    // files; or the report of a run of named files, or of a run that goes on from a named checkpoint. After a run, its placement is at the
    // out name; if it stopped, its checkpoint is at the save name.
    ensures done { result ≡ 0 → IsTold (O.contents out.old) (O.contents out.new) ⊎
        (IsExample ARCH.now NET.now PLACE.now (O.contents out.old) (O.contents out.new) ⊎
        (IsChecked (F.held files.old) (O.contents out.old) (O.contents out.new) ⊎
        (IsPlaced (F.held files.old) (F.held files.new) (O.contents out.old)
        (O.contents out.new) ⊎
        IsResumed (F.held files.old) (F.held files.new) (O.contents out.old)
        (O.contents out.new)))) }

    // And it is what the words ask for. Help or the version was printed only if they ask for it. The built-in check was done only with no
    // words. The names and numbers of a check or a run are those that its own subcommand's options give.
    ensures decided { result ≡ 0 →
        IsAsAsked ARCH.now NET.now PLACE.now (map (λ word. word.items) words.now) (F.held files.old)
        (F.held files.new) (O.contents out.old) (O.contents out.new) }

    // Wrong words end with 2, unless memory runs out, or they ask for help or the version.
    ensures wrong { words.now ≢ [] → faults (map (λ word. word.items) words.now) ≢ [] →
        (result ≡ 2) ⊎ ((result ≡ 3) ⊎ AskForHelp (map (λ word. word.items) words.now)) }

    // Words that ask for help or the version, with nothing wrong in them, end with 0, unless memory runs out or the output fails.
    ensures served { AskForHelpAlone (map (λ word. word.items) words.now) → (result ≡ 0) ⊎
        ((result ≡ 3) ⊎ ((result ≡ 4) × (O.failed out.new ≡ grown (O.failed out.old)))) }

    // If the status is not 0, the files are as before.
    ensures kept { result ≢ 0 → F.held files.new ≡ F.held files.old }
{
    run(rt, words, files, out, err).code()
}
