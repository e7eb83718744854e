//! From the words of the command line to their request.
ghost use Rattle.std.specs.{Prelude.◌≡◌, Prelude.IfOk, Prelude.Ok, Prelude.length, Prelude.map, Prelude.string_bytes, Vec.Iter.into_iter_items, Vec.Iter.into_iter_len};
ghost use Rattle.rds.specs.CommandLine.{IsAskedFor, IsGiven, IsNoWords, SaysNoMemory, texts_of};

use rds_tool::{Asked, CliFault, FaultKind, asked_of};
use std::alloc::{AllocError, Global};
use std::env::Args;
use std::io;
use std::io::ErrorKind;

/// The words of the command line. The error is `Words` if one is not valid UTF-8, and `Memory` if memory was refused.
pub fn given_words(alloc: Global, args: io::Result<Args>) -> Result<Vec<String>, FaultKind>
    ensures { IsGiven args result }
{
    match args {
        Ok(args) => match collected(alloc, args) {
            Ok(words) => Ok(words),
            Err(_) => Err(FaultKind::Memory),
        },
        Err(error) => match error.kind() {
            ErrorKind::InvalidData => Err(FaultKind::Words),
            _ => Err(FaultKind::Memory),
        },
    }
}

fn collected(alloc: Global, args: Args) -> Result<Vec<String>, AllocError>
    ensures { into_iter_len args ≡ length (into_iter_items args)
        → IfOk result (λ words. words.items ≡ into_iter_items args) }
{
    args.collect(alloc)
}

/// The request of these words, or the text to show instead.
pub fn asked_for(alloc: Global, given: &Result<Vec<String>, FaultKind>) -> Result<Asked, CliFault>
    ensures { IsAskedFor (texts_of string_bytes given.now) result }
{
    match given {
        Ok(words) => asked_by(alloc, words.as_slice()),
        Err(kind) => Err(no_words(alloc, *kind)),
    }
}

fn asked_by(alloc: Global, given: &[String]) -> Result<Asked, CliFault>
    ensures { IsAskedFor (Ok (map string_bytes given.now)) result }
{
    match words_of(alloc, given) {
        Ok(words) => asked_of(alloc, words.as_slice()),
        Err(_) => Err(no_memory(alloc)),
    }
}

fn words_of(alloc: Global, given: &[String]) -> Result<Vec<&str>, AllocError>
    ensures { IfOk result (λ words. map (λ word. word.now) words.items ≡ map string_bytes given.now) }
{
    let mut words = Vec::new(alloc);
    for word in given {
        words.push(word.as_str())?;
    }
    Ok(words)
}

fn no_words(alloc: Global, kind: FaultKind) -> CliFault
    ensures { IsNoWords kind result }
{
    match kind {
        FaultKind::Words => bad_words(alloc),
        _ => no_memory(alloc),
    }
}

fn bad_words(alloc: Global) -> CliFault
    ensures { IsNoWords FaultKind.Words result }
{
    match "error: an argument is not valid UTF-8\n".to_string(alloc) {
        Ok(text) => CliFault {
            kind: FaultKind::Words,
            text,
        },
        Err(_) => no_memory(alloc),
    }
}

fn no_memory(alloc: Global) -> CliFault
    ensures { SaysNoMemory result }
{
    CliFault {
        kind: FaultKind::Memory,
        text: String::new(alloc),
    }
}
