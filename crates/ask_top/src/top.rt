//! The one public call of the program.

ghost use Rattle.std.specs.Prelude.{◌≡◌, ◌≤◌, ◌⊎◌, ℕ, List, None, IsSome};
ghost use Rattle.io_kit.specs.Ends.{Rose};
ghost use Rattle.endings.specs.Meets.{RunMeets};
ghost use Rattle.ask_words.specs.Commands.{command_of, file_of, second_of};
ghost use Rattle.ask_words.specs.Words.{bytes_of_words};
ghost use Rattle.ask_top.specs.Outcomes.{IsAskOutcome};
ghost use Rattle.ask_top.specs.Reads.{NetworkRose, QuestionsFailed};

use crate::findings::found;
use ask_words::{class_word, file_word, read_words, second_word};
use endings::{Ending, Finding, tell};
use io_kit::{Sink, Source};
use std::alloc::Global;

const USAGE: &[u8] =
    b"usage: bonsai-ask F questions S, or F N [without DOWN] count | solutions | forwards | [failing links|routers] QUESTION; QUESTION: route R, isolated R, hops H R, through W R, avoids W R, carries C R, lacks C R\n";

/// Does what the words ask for: reads the files that they name, and writes the answers to `out`, or a line to `err` that
/// says why there are none.
pub fn run<S: Source, O: Sink, E: Sink>(
    alloc: Global,
    words: &[String],
    files: &mut S,
    out: &mut O,
    err: &mut E,
) -> Ending
    // What is reported is allowed by the words over the contents, as far as these are known, or a fault that has its cause, or
    // that memory ran out.
    ensures meets { RunMeets (IsAskOutcome (bytes_of_words words.now) (S.contents files.old)) (file_of (bytes_of_words words.now)) (second_of (bytes_of_words words.now))
        (NetworkRose (command_of (bytes_of_words words.now)) (S.faults files.old (file_of (bytes_of_words words.now))) (S.faults files.new (file_of (bytes_of_words words.now))))
        (QuestionsFailed (command_of (bytes_of_words words.now)) (S.contents files.old (file_of (bytes_of_words words.now))) (S.faults files.old (second_of (bytes_of_words words.now))) (S.faults files.new (second_of (bytes_of_words words.now)))) result
        (O.taken out.old) (O.taken out.new) (O.faults out.old) (O.faults out.new) (E.taken err.old) (E.taken err.new) (E.faults err.old) (E.faults err.new) }

    // Only words of no form are misuse, and no others come to anything else, unless memory runs out. If the words are of
    // no form, no file is touched.
    ensures usage { command_of (bytes_of_words words.now) ≡ None → (result ≡ Ending.Usage) ⊎ ((result ≡ Ending.WriteFault) ⊎ (result ≡ Ending.Memory)) }
    ensures usage_only { result ≡ Ending.Usage → command_of (bytes_of_words words.now) ≡ None }
    ensures unread { command_of (bytes_of_words words.now) ≡ None → files.new ≡ files.old }

    // The files are as they were, and no count of faults falls.
    ensures contents { S.contents files.new ≡ S.contents files.old }
    ensures files_later { (n : List ℕ) → S.faults files.old n ≤ S.faults files.new n }
    ensures out_later { O.faults out.old ≤ O.faults out.new }
    ensures err_later { E.faults err.old ≤ E.faults err.new }

    // A fault has its cause, whether the files are known or not.
    ensures read_fault { result ≡ Ending.ReadFault → IsSome (command_of (bytes_of_words words.now))
        × (NetworkRose (command_of (bytes_of_words words.now)) (S.faults files.old (file_of (bytes_of_words words.now))) (S.faults files.new (file_of (bytes_of_words words.now)))
        ⊎ QuestionsFailed (command_of (bytes_of_words words.now)) (S.contents files.old (file_of (bytes_of_words words.now))) (S.faults files.old (second_of (bytes_of_words words.now))) (S.faults files.new (second_of (bytes_of_words words.now)))) }
    ensures write_fault { result ≡ Ending.WriteFault → Rose (E.faults err.old) (E.faults err.new) ⊎ Rose (O.faults out.old) (O.faults out.new) }
{
    let first = file_word(words);
    let second = second_word(words);
    match read_words(alloc, words) {
        Ok(Some(command)) => {
            let finding = found(alloc, &command, first, class_word(words), second, files);
            tell(out, err, &finding, USAGE, first, second)
        }
        Ok(None) => tell(out, err, &Finding::Misuse, USAGE, first, second),
        Err(_) => tell(out, err, &Finding::NoMemory, USAGE, first, second),
    }
}
