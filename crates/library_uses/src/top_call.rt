//! The top call with words, files and outputs of one's own, and the exit status: each call with all that it
//! promises.

pub mod memory;

ghost use Rattle.std.specs.Prelude.{◌≡◌, ◌≤◌, ◌⊎◌, ℕ, List, [], ◌∷◌, codes, Some, None, IsSome, false};
ghost use Rattle.answer_kit.specs.Outcome.{code_of};
ghost use Rattle.io_kit.specs.Ends.{Rose};
ghost use Rattle.bonsai_top.specs.Words.{bytes_of_words, file_of, second_of, short_number_of};
ghost use Rattle.bonsai_top.specs.Commands.{command_of, is_read, reads_first, FirstRose};
ghost use Rattle.bonsai_top.specs.Faults.{SecondFailed};
ghost use Rattle.bonsai_top.specs.Outcomes.{IsOutcome};
ghost use Rattle.bonsai_top.specs.Meets.{RunMeets};
ghost use Rattle.bonsai_top.specs.Headline.{IsHeadline, IsCarriedDown, IsCarriedUp};

use bonsai_top::{Status, run};
use io_kit::{Sink, Source};
use std::alloc::Global;

/// What the words ask for, over any files and any two outputs.
pub fn answered<S: Source, O: Sink, E: Sink>(
    alloc: Global,
    words: &[String],
    files: &mut S,
    out: &mut O,
    err: &mut E,
) -> Status
    ensures meets { RunMeets (IsOutcome (bytes_of_words words.now) (S.contents files.old)) (file_of (bytes_of_words words.now)) (second_of (bytes_of_words words.now))
        (FirstRose (command_of (bytes_of_words words.now)) (S.faults files.old (file_of (bytes_of_words words.now))) (S.faults files.new (file_of (bytes_of_words words.now))))
        (SecondFailed (command_of (bytes_of_words words.now)) (S.contents files.old (file_of (bytes_of_words words.now))) (S.faults files.old (second_of (bytes_of_words words.now))) (S.faults files.new (second_of (bytes_of_words words.now)))) result
        (O.taken out.old) (O.taken out.new) (O.faults out.old) (O.faults out.new) (E.taken err.old) (E.taken err.new) (E.faults err.old) (E.faults err.new) }
    ensures usage { command_of (bytes_of_words words.now) ≡ None → (result ≡ Status.Usage) ⊎ (result ≡ Status.WriteFault) }
    ensures usage_only { result ≡ Status.Usage → command_of (bytes_of_words words.now) ≡ None }
    ensures unread { is_read reads_first (command_of (bytes_of_words words.now)) ≡ false → files.new ≡ files.old }
    ensures headline { result ≡ Status.Done → (file class : List ℕ) (number : ℕ) → bytes_of_words words.now ≡ codes "compress" ∷ file ∷ class ∷ [] → short_number_of class ≡ Some number
        → (text before : List ℕ) → S.contents files.old file ≡ Some text → O.taken out.old ≡ Some before → IsHeadline text number before (O.taken out.new) }
    ensures canonical { result ≡ Status.Done → (file class : List ℕ) (number : ℕ) → bytes_of_words words.now ≡ codes "canon" ∷ file ∷ class ∷ [] → short_number_of class ≡ Some number
        → (text before : List ℕ) → S.contents files.old file ≡ Some text → O.taken out.old ≡ Some before → IsHeadline text number before (O.taken out.new) }
    ensures folded { result ≡ Status.Done → (file class second : List ℕ) (number : ℕ) → bytes_of_words words.now ≡ codes "fold" ∷ file ∷ class ∷ second ∷ [] → short_number_of class ≡ Some number
        → (text solution before : List ℕ) → S.contents files.old file ≡ Some text → S.contents files.old second ≡ Some solution → O.taken out.old ≡ Some before
        → IsCarriedDown text solution number before (O.taken out.new) }
    ensures lifted { result ≡ Status.Done → (file class second : List ℕ) (number : ℕ) → bytes_of_words words.now ≡ codes "lift" ∷ file ∷ class ∷ second ∷ [] → short_number_of class ≡ Some number
        → (text solution before : List ℕ) → S.contents files.old file ≡ Some text → S.contents files.old second ≡ Some solution → O.taken out.old ≡ Some before
        → IsCarriedUp text solution number before (O.taken out.new) }
    ensures contents { S.contents files.new ≡ S.contents files.old }
    ensures files_later { (n : List ℕ) → S.faults files.old n ≤ S.faults files.new n }
    ensures out_later { O.faults out.old ≤ O.faults out.new }
    ensures err_later { E.faults err.old ≤ E.faults err.new }
    ensures read_fault { result ≡ Status.ReadFault → IsSome (command_of (bytes_of_words words.now))
        × (FirstRose (command_of (bytes_of_words words.now)) (S.faults files.old (file_of (bytes_of_words words.now))) (S.faults files.new (file_of (bytes_of_words words.now)))
        ⊎ SecondFailed (command_of (bytes_of_words words.now)) (S.contents files.old (file_of (bytes_of_words words.now))) (S.faults files.old (second_of (bytes_of_words words.now))) (S.faults files.new (second_of (bytes_of_words words.now)))) }
    ensures write_fault { result ≡ Status.WriteFault → Rose (E.faults err.old) (E.faults err.new) ⊎ Rose (O.faults out.old) (O.faults out.new) }
{
    run(alloc, words, files, out, err)
}

/// The exit status that stands for how a call ended.
pub fn exit_status(status: &Status) -> u8
    ensures { result ≡ code_of status.now }
{
    status.code()
}
