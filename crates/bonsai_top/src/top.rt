//! The one public call of the program.

ghost use Rattle.std.specs.Prelude.{◌≡◌, ◌≤◌, ◌⊎◌, ℕ, List, [], ◌∷◌, codes, Some, None, IsSome, false};
ghost use Rattle.io_kit.specs.Ends.{Rose};
ghost use Rattle.bonsai_top.specs.Words.{bytes_of_words, file_of, second_of, short_number_of};
ghost use Rattle.bonsai_top.specs.Commands.{command_of, is_read, reads_first, FirstRose};
ghost use Rattle.bonsai_top.specs.Faults.{SecondFailed};
ghost use Rattle.bonsai_top.specs.Outcomes.{IsOutcome};
ghost use Rattle.bonsai_top.specs.Meets.{RunMeets};
ghost use Rattle.bonsai_top.specs.Headline.{IsHeadline, IsCarriedDown, IsCarriedUp};

use crate::command::{file_word, read_words, second_word};
use crate::tell::tell;
use crate::work::work;
use answer_kit::{Reply, Status};
use io_kit::{Sink, Source};
use std::alloc::Global;

/// Does what the words ask for: reads the files that they name, and writes the output to `out`, or a
/// line to `err` that says why there is none.
pub fn run<S: Source, O: Sink, E: Sink>(
    alloc: Global,
    words: &[String],
    files: &mut S,
    out: &mut O,
    err: &mut E,
) -> Status
    // What is reported is an outcome that the words allow over the contents, as far as these are known, or a
    // fault that has its cause, or that memory ran out.
    ensures meets { RunMeets (IsOutcome (bytes_of_words words.now) (S.contents files.old)) (file_of (bytes_of_words words.now)) (second_of (bytes_of_words words.now))
        (FirstRose (command_of (bytes_of_words words.now)) (S.faults files.old (file_of (bytes_of_words words.now))) (S.faults files.new (file_of (bytes_of_words words.now))))
        (SecondFailed (command_of (bytes_of_words words.now)) (S.contents files.old (file_of (bytes_of_words words.now))) (S.faults files.old (second_of (bytes_of_words words.now))) (S.faults files.new (second_of (bytes_of_words words.now)))) result
        (O.taken out.old) (O.taken out.new) (O.faults out.old) (O.faults out.new) (E.taken err.old) (E.taken err.new) (E.faults err.old) (E.faults err.new) }

    // Exactly the words that name no command are misuse. If the words name no command, or one that reads
    // no file, no file is touched.
    ensures usage { command_of (bytes_of_words words.now) ≡ None → (result ≡ Status.Usage) ⊎ (result ≡ Status.WriteFault) }
    ensures usage_only { result ≡ Status.Usage → command_of (bytes_of_words words.now) ≡ None }
    ensures unread { is_read reads_first (command_of (bytes_of_words words.now)) ≡ false → files.new ≡ files.old }

    // The headline: if `compress` is done over a file and an output that are known, what was written is read
    // as the compressed network.
    ensures headline { result ≡ Status.Done → (file class : List ℕ) (number : ℕ) → bytes_of_words words.now ≡ codes "compress" ∷ file ∷ class ∷ [] → short_number_of class ≡ Some number
        → (text before : List ℕ) → S.contents files.old file ≡ Some text → O.taken out.old ≡ Some before → IsHeadline text number before (O.taken out.new) }

    // The same holds if `canon` is done. That its maps are canonical is in `meets`.
    ensures canonical { result ≡ Status.Done → (file class : List ℕ) (number : ℕ) → bytes_of_words words.now ≡ codes "canon" ∷ file ∷ class ∷ [] → short_number_of class ≡ Some number
        → (text before : List ℕ) → S.contents files.old file ≡ Some text → O.taken out.old ≡ Some before → IsHeadline text number before (O.taken out.new) }

    // If `fold` or `lift` is done over files and an output that are known, what was written is read as stable
    // labels of the other problem that correspond to the solution.
    ensures folded { result ≡ Status.Done → (file class second : List ℕ) (number : ℕ) → bytes_of_words words.now ≡ codes "fold" ∷ file ∷ class ∷ second ∷ [] → short_number_of class ≡ Some number
        → (text solution before : List ℕ) → S.contents files.old file ≡ Some text → S.contents files.old second ≡ Some solution → O.taken out.old ≡ Some before
        → IsCarriedDown text solution number before (O.taken out.new) }
    ensures lifted { result ≡ Status.Done → (file class second : List ℕ) (number : ℕ) → bytes_of_words words.now ≡ codes "lift" ∷ file ∷ class ∷ second ∷ [] → short_number_of class ≡ Some number
        → (text solution before : List ℕ) → S.contents files.old file ≡ Some text → S.contents files.old second ≡ Some solution → O.taken out.old ≡ Some before
        → IsCarriedUp text solution number before (O.taken out.new) }

    // The files are as they were, and no count of faults falls.
    ensures contents { S.contents files.new ≡ S.contents files.old }
    ensures files_later { (n : List ℕ) → S.faults files.old n ≤ S.faults files.new n }
    ensures out_later { O.faults out.old ≤ O.faults out.new }
    ensures err_later { E.faults err.old ≤ E.faults err.new }

    // A fault has its cause, whether the files are known or not.
    ensures read_fault { result ≡ Status.ReadFault → IsSome (command_of (bytes_of_words words.now))
        × (FirstRose (command_of (bytes_of_words words.now)) (S.faults files.old (file_of (bytes_of_words words.now))) (S.faults files.new (file_of (bytes_of_words words.now)))
        ⊎ SecondFailed (command_of (bytes_of_words words.now)) (S.contents files.old (file_of (bytes_of_words words.now))) (S.faults files.old (second_of (bytes_of_words words.now))) (S.faults files.new (second_of (bytes_of_words words.now)))) }
    ensures write_fault { result ≡ Status.WriteFault → Rose (E.faults err.old) (E.faults err.new) ⊎ Rose (O.faults out.old) (O.faults out.new) }
{
    compress_laws::laws::plan_compresses();
    compress_laws::laws::fitting_plan_compresses();
    answer_groups::laws::canonical_fits();
    answer_solutions::laws::fold_is_read_back();
    answer_solutions::laws::lift_is_read_back();
    match read_words(words) {
        None => tell(out, err, &Reply::Misuse, "", ""),
        Some(command) => {
            let first = file_word(words);
            let second = second_word(words);
            let reply = work(alloc, command, first, second, files);
            tell(out, err, &reply, first, second)
        }
    }
}
