//! Words of each form, and words of none.

use ask_words::{Command, read_words};
use std::alloc::Global;
use std::test::Fail;

// Whether the words of a line are of a form.
fn has_form(alloc: Global, line: &str) -> Result<bool, Fail> {
    let mut words = Vec::new(alloc);
    for word in line.split_whitespace() {
        words.push(String::from_str(alloc, word)?)?;
    }
    let command = read_words(alloc, &words)?;
    Ok(command.is_some())
}

#[test]
fn words_of_each_form_are_read(rt: HostRuntime) -> Result<(), Fail> {
    let lines = [
        "F questions S",
        "F 1 count",
        "F * solutions",
        "F 1-1 forwards",
        "F 10.0.0.7/24 route a",
        "F 10.0.0.7 isolated a,b-c,d.e_f",
        "F 0 hops 999999999 *",
        "F 1 without a,b:c,c:a through a b",
        "F 1 without a:b failing links avoids * *",
        "F 1 failing routers carries 1:1 a",
        "F 1 lacks 4294901759 a",
    ];
    for line in lines {
        assert!(rt; has_form(rt.alloc(), line)?, "{line}");
    }
    Ok(())
}

#[test]
fn other_words_are_of_no_form(rt: HostRuntime) -> Result<(), Fail> {
    let lines = [
        "",
        "F",
        "F 1",
        "F 1 questions S",
        "F questions S T",
        "F 01 count",
        "F 1000000000 count",
        "F 0-1 count",
        "F 2-1 count",
        "F 10.0.0.0/33 count",
        "F 1 without a",
        "F 1 without a, count",
        "F 1 without a:a count",
        "F 1 without a:b,b:a count",
        "F 1 without a:b:c count",
        "F 1 route a,a",
        "F 1 route -a",
        "F 1 hops 01 a",
        "F 1 carries no-export a",
        "F 1 carries 65535:0 a",
        "F 1 failing route a",
        "F 1 failing links count",
        "F 1 count count",
    ];
    for line in lines {
        assert!(rt; !has_form(rt.alloc(), line)?, "{line}");
    }
    Ok(())
}

#[test]
fn a_file_of_questions_is_told_from_a_request(rt: HostRuntime) -> Result<(), Fail> {
    let alloc = rt.alloc();
    let mut words = Vec::new(alloc);
    for word in ["F", "questions", "S"] {
        words.push(String::from_str(alloc, word)?)?;
    }
    match read_words(alloc, &words)? {
        Some(Command::Questions) => {}
        Some(Command::One(_)) => assert!(rt; false),
        None => assert!(rt; false),
    }
    Ok(())
}
