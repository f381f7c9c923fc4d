//! The words of a call, and the command that they name.

ghost use Rattle.std.specs.Prelude.{◌≡◌};
ghost use Rattle.bonsai_top.specs.Words.{bytes_of_words, short_number_of, file_of, second_of};
ghost use Rattle.bonsai_top.specs.Commands.{network_command, class_command, second_command, command_on_word, command_on_class, command_on_second, command_of};

use base_kit::read_number;

/// The commands on a network.
#[derive(Clone, Copy, Debug, PartialEq, Eq)]
pub enum NetworkCommand {
    Classes,
    Summary,
}

/// The commands on a class.
#[derive(Clone, Copy, Debug, PartialEq, Eq)]
pub enum ClassCommand {
    Groups,
    Compress,
    Report,
    Json,
    Canon,
    Certify,
}

/// The commands on a class and a second file.
#[derive(Clone, Copy, Debug, PartialEq, Eq)]
pub enum SecondCommand {
    Check,
    Fold,
    Lift,
    Run,
    Reach,
    Verify,
}

/// A command, by what it works on.
#[derive(Clone, Copy, Debug, PartialEq, Eq)]
pub enum Command {
    /// The network of the first file.
    OnNetwork(NetworkCommand),
    /// The class of a number there.
    OnClass(ClassCommand, u32),
    /// The class of a number there, and the second file.
    OnSecond(SecondCommand, u32),
    /// No file: the fat tree of a size.
    Trial(u32),
}

/// A number of at most nine digits.
pub fn short_number(word: &str) -> Option<u32>
    ensures { result ≡ short_number_of word.now }
{
    let n = read_number(word.as_bytes())?;
    if n <= 999_999_999 { Some(n) } else { None }
}

fn network_command(name: &str) -> Option<NetworkCommand>
    ensures { result ≡ network_command name.now }
{
    if name == "classes" {
        return Some(NetworkCommand::Classes);
    }
    if name == "summary" {
        return Some(NetworkCommand::Summary);
    }
    None
}

/// The command on a class that has this name.
pub fn class_command(name: &str) -> Option<ClassCommand>
    ensures { result ≡ class_command name.now }
{
    if name == "groups" {
        return Some(ClassCommand::Groups);
    }
    if name == "compress" {
        return Some(ClassCommand::Compress);
    }
    if name == "report" {
        return Some(ClassCommand::Report);
    }
    if name == "json" {
        return Some(ClassCommand::Json);
    }
    if name == "canon" {
        return Some(ClassCommand::Canon);
    }
    if name == "certify" {
        return Some(ClassCommand::Certify);
    }
    None
}

fn second_command(name: &str) -> Option<SecondCommand>
    ensures { result ≡ second_command name.now }
{
    if name == "check" {
        return Some(SecondCommand::Check);
    }
    if name == "fold" {
        return Some(SecondCommand::Fold);
    }
    if name == "lift" {
        return Some(SecondCommand::Lift);
    }
    if name == "run" {
        return Some(SecondCommand::Run);
    }
    if name == "reach" {
        return Some(SecondCommand::Reach);
    }
    if name == "verify" {
        return Some(SecondCommand::Verify);
    }
    None
}

// A command and one word: a file, or the size of a fat tree.
fn on_word(name: &str, word: &str) -> Option<Command>
    ensures { result ≡ command_on_word name.now word.now }
{
    if name == "trial" {
        let size = short_number(word)?;
        return Some(Command::Trial(size));
    }
    let command = network_command(name)?;
    Some(Command::OnNetwork(command))
}

// A command on a file and the number of a class.
fn on_class(name: &str, class: &str) -> Option<Command>
    ensures { result ≡ command_on_class name.now class.now }
{
    let command = class_command(name)?;
    let number = short_number(class)?;
    Some(Command::OnClass(command, number))
}

// A command on a file, the number of a class and a second file.
fn on_second(name: &str, class: &str) -> Option<Command>
    ensures { result ≡ command_on_second name.now class.now }
{
    let command = second_command(name)?;
    let number = short_number(class)?;
    Some(Command::OnSecond(command, number))
}

/// The command that the words name.
#[tactic(auto, unfolding(crate::specs::Commands::command_of))]
pub fn read_words(words: &[String]) -> Option<Command>
    ensures { result ≡ command_of (bytes_of_words words.now) }
{
    match words {
        [name, word] => on_word(name.as_str(), word.as_str()),
        [name, _file, class] => on_class(name.as_str(), class.as_str()),
        [name, _file, class, _second] => on_second(name.as_str(), class.as_str()),
        _ => None,
    }
}

/// The file that the words name first.
pub fn file_word(words: &[String]) -> &str
    ensures { result.now ≡ file_of (bytes_of_words words.now) }
{
    match words {
        [_, file, ..] => file.as_str(),
        _ => "",
    }
}

/// The file that the words name behind the number.
pub fn second_word(words: &[String]) -> &str
    ensures { result.now ≡ second_of (bytes_of_words words.now) }
{
    match words {
        [_, _, _, second, ..] => second.as_str(),
        _ => "",
    }
}
