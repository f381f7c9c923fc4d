//! The one public call of the program.

ghost use Rattle.std.specs.Prelude.{◌≡◌, ◌≤◌, ◌⊎◌, ℕ, List, length, Some, None, IfOk, IsSome, true};
ghost use Rattle.all_classes.specs.Headlines.{is_compressing, HasHeadlines};
ghost use Rattle.all_classes.specs.Meets.{RunMeets};
ghost use Rattle.all_classes.specs.Progress.{TellsFrames};
ghost use Rattle.all_classes.specs.Requests.{file_of, first_of, last_of, request_of};
ghost use Rattle.all_classes.specs.Tellings.{IsAnswer};
ghost use Rattle.all_classes.specs.Work.{IsWorkOf};
ghost use Rattle.all_classes.specs.declared.request.Request.{Request};
ghost use Rattle.bonsai_top.specs.Words.{bytes_of_words};
ghost use Rattle.cfg_ast.specs.meaning.Classes.{classes_of};
ghost use Rattle.endings.specs.Telling.{ending_of};
ghost use Rattle.io_kit.specs.Ends.{Rose};

use crate::frames::{Stop, put_frames};
use crate::request::{Request, file_word, read_words};
use crate::shared_work::SharedWork;
use base_kit::{List, NoMemory};
use cfg_ast::DestClass;
use cfg_check::Checked;
use class_counts::few_classes;
use dest_classes::classes;
use endings::{Ending, Finding, tell, tell_no_memory, tell_write_fault};
use io_kit::{Sink, Source};
use network_files::network_of;
use std::alloc::Global;

const USAGE: &[u8] = b"usage: bonsai-all F groups|compress|report|json|canon|certify [FROM TO]\n";

// How the frames end, by whether the work is done for each.
fn ending_of(done: bool) -> Ending
    ensures { result ≡ ending_of done }
{
    if done { Ending::Done } else { Ending::NotAll }
}

// The classes of a network, and what they share.
fn classes_and_work(
    alloc: Global,
    checked: &Checked,
) -> Result<(List<DestClass>, SharedWork), NoMemory>
    ensures classes { IfOk result (λ made. made.0 ≡ classes_of checked.now.network) }
    ensures work { IfOk result (λ made. IsWorkOf checked.now.network made.1) }
{
    let classes = classes(alloc, checked)?;
    let work = SharedWork::of(alloc, checked)?;
    Ok((classes, work))
}

// Writes the frames of the classes that are asked, and says why if these are not all.
fn tell_frames<O: Sink, E: Sink>(
    alloc: Global,
    request: &Request,
    checked: &Checked,
    out: &mut O,
    err: &mut E,
) -> Ending
    requires { (classes : ℕ) → classes ≤ 999999999 → last_of request.now.asked classes ≤ 999999999 }
    ensures tells { TellsFrames (IsAnswer request.now.command checked.now.network) request.now.asked (length (classes_of checked.now.network)) result
        (O.taken out.old) (O.taken out.new) (O.faults out.old) (O.faults out.new) (E.taken err.old) (E.taken err.new) (E.faults err.old) (E.faults err.new) }
    ensures out_later { O.faults out.old ≤ O.faults out.new }
    ensures err_later { E.faults err.old ≤ E.faults err.new }
{
    few_classes();
    let Ok((classes, mut work)) = classes_and_work(alloc, checked) else {
        return tell_no_memory(err);
    };
    let from = request.asked.first();
    let to = request.asked.last(classes.len() as u32);
    match put_frames(
        alloc,
        request.command,
        checked,
        classes.as_slice(),
        from,
        to,
        &mut work,
        out,
    ) {
        Ok(done) => ending_of(done),
        Err(Stop::NoMemory) => tell_no_memory(err),
        Err(Stop::Failed) => tell_write_fault(err),
    }
}

/// Does what the words ask for: reads the file that they name once, and writes to `out` a frame for each
/// class that is asked, or a line to `err` that says why there is none, or no more.
pub fn run<S: Source, O: Sink, E: Sink>(
    alloc: Global,
    words: &[String],
    files: &mut S,
    out: &mut O,
    err: &mut E,
) -> Ending
    // What is reported are frames of outcomes that `bonsai` may have for the words, or a line, or a fault that
    // has its cause, or that memory ran out.
    ensures meets { RunMeets (bytes_of_words words.now) (S.contents files.old)
        (IsSome (request_of (bytes_of_words words.now)) × Rose (S.faults files.old (file_of (bytes_of_words words.now))) (S.faults files.new (file_of (bytes_of_words words.now)))) result
        (O.taken out.old) (O.taken out.new) (O.faults out.old) (O.faults out.new) (E.taken err.old) (E.taken err.new) (E.faults err.old) (E.faults err.new) }

    // The headline: over a file and an output that are known, each frame of `compress` and `canon` with status
    // 0 has bytes that are read as the compressed network of its class.
    ensures headline { (request : Request) → request_of (bytes_of_words words.now) ≡ Some request → is_compressing request.command ≡ true
        → (text : List ℕ) → S.contents files.old (file_of (bytes_of_words words.now)) ≡ Some text
        → HasHeadlines text (first_of request.asked) result (O.taken out.old) (O.taken out.new) }

    // Exactly the words of no form are misuse. If the words are of no form, no file is touched.
    ensures usage { request_of (bytes_of_words words.now) ≡ None → (result ≡ Ending.Usage) ⊎ (result ≡ Ending.WriteFault) }
    ensures usage_only { result ≡ Ending.Usage → request_of (bytes_of_words words.now) ≡ None }
    ensures unread { request_of (bytes_of_words words.now) ≡ None → files.new ≡ files.old }

    // The files are as they were, and no count of faults falls.
    ensures contents { S.contents files.new ≡ S.contents files.old }
    ensures files_later { (n : List ℕ) → S.faults files.old n ≤ S.faults files.new n }
    ensures out_later { O.faults out.old ≤ O.faults out.new }
    ensures err_later { E.faults err.old ≤ E.faults err.new }

    // A fault has its cause, whether the file is known or not.
    ensures read_fault { result ≡ Ending.ReadFault → IsSome (request_of (bytes_of_words words.now))
        × Rose (S.faults files.old (file_of (bytes_of_words words.now))) (S.faults files.new (file_of (bytes_of_words words.now))) }
    ensures write_fault { result ≡ Ending.WriteFault → Rose (E.faults err.old) (E.faults err.new) ⊎ Rose (O.faults out.old) (O.faults out.new) }
{
    bonsai_top::laws::done_is_headline();
    few_classes();
    match read_words(words) {
        None => tell(out, err, &Finding::Misuse, USAGE, "", ""),
        Some(request) => {
            let file = file_word(words);
            match network_of(alloc, file, files) {
                Ok(checked) => tell_frames(alloc, &request, &checked, out, err),
                Err(finding) => tell(out, err, &finding, USAGE, file, ""),
            }
        }
    }
}
