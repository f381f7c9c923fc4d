//! The commands that write networks and labels, over texts in memory: all that the clauses of `run` take for
//! known of files and outputs is known here.

ghost use Rattle.std.specs.Prelude.{◌≡◌, ◌∷◌, [], ℕ, codes, IfOk, Some};
ghost use Rattle.io_kit.specs.Files.{contents_of};
ghost use Rattle.bonsai_top.specs.Headline.{IsCarriedDown, IsCarriedUp, IsHeadline};
ghost use Rattle.bonsai_top.specs.Words.{bytes_of_words, short_number_of};

use base_kit::{List, NoMemory, Text};
use bonsai_top::{Status, run};
use io_kit::{MemFile, MemSink, MemSource};
use std::alloc::Global;

// The words of a command on a class of the network.
fn words_on_class(alloc: Global, command: &str, class: &str) -> Result<Vec<String>, NoMemory>
    ensures { IfOk result (λ words. bytes_of_words words.items ≡ command.now ∷ codes "network" ∷ class.now ∷ []) }
{
    let mut words = Vec::new(alloc);
    words.push(String::from_str(alloc, command)?)?;
    words.push(String::from_str(alloc, "network")?)?;
    words.push(String::from_str(alloc, class)?)?;
    Ok(words)
}

// The words of a command on a class and a solution of it.
fn words_on_solution(alloc: Global, command: &str, class: &str) -> Result<Vec<String>, NoMemory>
    ensures { IfOk result (λ words. bytes_of_words words.items ≡ command.now ∷ codes "network" ∷ class.now ∷ codes "solution" ∷ []) }
{
    let mut words = Vec::new(alloc);
    words.push(String::from_str(alloc, command)?)?;
    words.push(String::from_str(alloc, "network")?)?;
    words.push(String::from_str(alloc, class)?)?;
    words.push(String::from_str(alloc, "solution")?)?;
    Ok(words)
}

// The file that holds the network.
fn network_file(alloc: Global, text: List<u8>) -> Result<MemSource, NoMemory>
    ensures { IfOk result (λ source. contents_of source.files (codes "network") ≡ Some text) }
{
    let name = Text::copy_of(alloc, "network")?;
    let mut files = List::new(alloc);
    files.push(MemFile { name, bytes: text })?;
    Ok(MemSource::new(files, List::new(alloc)))
}

// The files that hold the network and the solution.
fn both_files(alloc: Global, text: List<u8>, solution: List<u8>) -> Result<MemSource, NoMemory>
    ensures network { IfOk result (λ source. contents_of source.files (codes "network") ≡ Some text) }
    ensures solution { IfOk result (λ source. contents_of source.files (codes "solution") ≡ Some solution) }
{
    let network_name = Text::copy_of(alloc, "network")?;
    let solution_name = Text::copy_of(alloc, "solution")?;
    let mut files = List::new(alloc);
    files.push(MemFile {
        name: network_name,
        bytes: text,
    })?;
    files.push(MemFile {
        name: solution_name,
        bytes: solution,
    })?;
    Ok(MemSource::new(files, List::new(alloc)))
}

// An output that begins empty, with room for so many bytes.
fn output_of(alloc: Global, room: usize) -> Result<MemSink, NoMemory>
    ensures { IfOk result (λ sink. sink.taken ≡ []) }
{
    Ok(MemSink::new(alloc, usize::MAX, room, List::new(alloc))?)
}

/// What `compress` writes of a class of the text, where it has room, or how the call ended.
pub fn compressed(
    alloc: Global,
    text: List<u8>,
    class: &str,
    room: usize,
) -> Result<Result<MemSink, Status>, NoMemory>
    ensures { IfOk result (λ ended. IfOk ended (λ out. (number : ℕ) → short_number_of class.now ≡ Some number → IsHeadline text number [] (Some out.taken))) }
{
    let words = words_on_class(alloc, "compress", class)?;
    let mut files = network_file(alloc, text)?;
    let mut out = output_of(alloc, room)?;
    let mut err = output_of(alloc, room)?;
    match run(alloc, &words, &mut files, &mut out, &mut err) {
        Status::Done => Ok(Ok(out)),
        status => Ok(Err(status)),
    }
}

/// What `canon` writes of a class of the text, or how the call ended.
pub fn canonized(
    alloc: Global,
    text: List<u8>,
    class: &str,
    room: usize,
) -> Result<Result<MemSink, Status>, NoMemory>
    ensures { IfOk result (λ ended. IfOk ended (λ out. (number : ℕ) → short_number_of class.now ≡ Some number → IsHeadline text number [] (Some out.taken))) }
{
    let words = words_on_class(alloc, "canon", class)?;
    let mut files = network_file(alloc, text)?;
    let mut out = output_of(alloc, room)?;
    let mut err = output_of(alloc, room)?;
    match run(alloc, &words, &mut files, &mut out, &mut err) {
        Status::Done => Ok(Ok(out)),
        status => Ok(Err(status)),
    }
}

/// What `fold` writes of a solution of the network, or how the call ended.
pub fn folded(
    alloc: Global,
    text: List<u8>,
    solution: List<u8>,
    class: &str,
    room: usize,
) -> Result<Result<MemSink, Status>, NoMemory>
    ensures { IfOk result (λ ended. IfOk ended (λ out. (number : ℕ) → short_number_of class.now ≡ Some number → IsCarriedDown text solution number [] (Some out.taken))) }
{
    let words = words_on_solution(alloc, "fold", class)?;
    let mut files = both_files(alloc, text, solution)?;
    let mut out = output_of(alloc, room)?;
    let mut err = output_of(alloc, room)?;
    match run(alloc, &words, &mut files, &mut out, &mut err) {
        Status::Done => Ok(Ok(out)),
        status => Ok(Err(status)),
    }
}

/// What `lift` writes of a solution of the groups, or how the call ended.
pub fn lifted(
    alloc: Global,
    text: List<u8>,
    solution: List<u8>,
    class: &str,
    room: usize,
) -> Result<Result<MemSink, Status>, NoMemory>
    ensures { IfOk result (λ ended. IfOk ended (λ out. (number : ℕ) → short_number_of class.now ≡ Some number → IsCarriedUp text solution number [] (Some out.taken))) }
{
    let words = words_on_solution(alloc, "lift", class)?;
    let mut files = both_files(alloc, text, solution)?;
    let mut out = output_of(alloc, room)?;
    let mut err = output_of(alloc, room)?;
    match run(alloc, &words, &mut files, &mut out, &mut err) {
        Status::Done => Ok(Ok(out)),
        status => Ok(Err(status)),
    }
}
