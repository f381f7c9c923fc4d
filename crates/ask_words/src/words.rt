//! The words of a call.

ghost use Rattle.std.specs.Prelude.{◌≡◌, IfOk, map};
ghost use Rattle.ask_words.specs.Words.{bytes_of_words};
ghost use Rattle.ask_words.specs.Commands.{command_of, file_of, class_word_of, second_of};

use crate::request::Command;
use crate::tasks::request_in;
use base_kit::NoMemory;
use std::alloc::Global;

// The bytes of each word.
fn bytes_of(alloc: Global, words: &[String]) -> Result<Vec<&[u8]>, NoMemory>
    ensures { IfOk result (λ bytes. map (λ word. word.now) bytes.items ≡ bytes_of_words words.now) }
{
    let mut bytes = Vec::new(alloc);
    for word in words {
        bytes.push(word.as_bytes())?;
    }
    Ok(bytes)
}

/// What the words of a call ask, if they are of a form.
///
/// # Errors
/// Out of memory.
#[tactic(auto, unfolding(crate::specs::Commands::command_of))]
pub fn read_words(alloc: Global, words: &[String]) -> Result<Option<Command>, NoMemory>
    ensures { IfOk result (λ command. command ≡ command_of (bytes_of_words words.now)) }
{
    let [_file, rest @ ..] = words else {
        return Ok(None);
    };
    if let [word, _second] = rest {
        if word.as_str() == "questions" {
            return Ok(Some(Command::Questions));
        }
    }
    let bytes = bytes_of(alloc, rest)?;
    match request_in(alloc, &bytes)? {
        Some(request) => Ok(Some(Command::One(request))),
        None => Ok(None),
    }
}

/// The file that the words name first.
pub fn file_word(words: &[String]) -> &str
    ensures { result.now ≡ file_of (bytes_of_words words.now) }
{
    match words {
        [file, ..] => file.as_str(),
        [] => "",
    }
}

/// The word for the classes.
pub fn class_word(words: &[String]) -> &str
    ensures { result.now ≡ class_word_of (bytes_of_words words.now) }
{
    match words {
        [_, class, ..] => class.as_str(),
        _ => "",
    }
}

/// The file of questions.
pub fn second_word(words: &[String]) -> &str
    ensures { result.now ≡ second_of (bytes_of_words words.now) }
{
    match words {
        [_, _, second, ..] => second.as_str(),
        _ => "",
    }
}
