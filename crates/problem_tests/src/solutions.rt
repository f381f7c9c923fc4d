//! Solutions are read and printed.

ghost use Rattle.std.specs.Prelude.{◌≡◌, ◌≤◌, IfOk, length};
ghost use Rattle.base_kit.specs.Names.{AreApart};

use base_kit::{List, Protocol, Text};
use solution_text::{SolKind, SolRefusal, print_labels, read_labels};
use srp_core::Labels;
use std::alloc::Global;
use std::test::Fail;

/// The names a, b and c.
fn names(alloc: Global) -> Result<List<Text>, Fail>
    ensures three { IfOk result (λ names. length names ≡ 3) }
    ensures apart { IfOk result (λ names. AreApart names) }
{
    let mut names = List::new(alloc);
    names.push(Text::copy_of(alloc, "a")?)?;
    names.push(Text::copy_of(alloc, "b")?)?;
    names.push(Text::copy_of(alloc, "c")?)?;
    Ok(names)
}

fn read(alloc: Global, protocol: Protocol, text: &[u8]) -> Result<Labels, Fail>
    requires { length text.now ≤ 1000 }
    ensures { IfOk result (λ labels. length labels ≡ 3) }
{
    let names = names(alloc)?;
    let labels = read_labels(alloc, text, protocol, &names)?;
    Ok(labels)
}

#[test]
fn what_is_read_is_printed_in_order(rt: HostRuntime) -> Result<(), Fail> {
    let alloc = rt.alloc();
    let cases: [(Protocol, &[u8], &[u8]); 3] = [
        (
            Protocol::Ospf,
            b"c cost 4294967295\n\n\ta  none\r\nb cost 0",
            b"a none\nb cost 0\nc cost 4294967295\n",
        ),
        (
            Protocol::Bgp,
            b"a bgp 100 path comms\nb bgp 0 path 65001*2 65001 7 comms 65537 1:2\nc none\n",
            b"a bgp 100 path comms\nb bgp 0 path 65001*3 7 comms 1:1 1:2\nc none\n",
        ),
        (
            Protocol::Bgp,
            b"c none\nb none\na bgp 100 path 9*11 9 9*11 8 comms 65534:65535\n",
            b"a bgp 100 path 9*11 9*11 9 8 comms 65534:65535\nb none\nc none\n",
        ),
    ];
    for (protocol, text, output) in cases {
        let labels = read(alloc, protocol, text)?;
        let names = names(alloc)?;
        assert_eq!(rt; labels.as_slice().len(), names.as_slice().len());
        let bytes = print_labels(alloc, &labels, &names)?;
        assert_eq!(rt; bytes.as_slice(), output);
    }
    Ok(())
}

#[test]
fn the_first_line_at_fault_decides(rt: HostRuntime) -> Result<(), Fail> {
    let alloc = rt.alloc();
    let cases: [(&[u8], u32, SolKind); 12] = [
        (b"", 1, SolKind::Missing),
        (b"a none\n\n", 3, SolKind::Missing),
        (b"a none\nb none\nc none none\n", 3, SolKind::BadForm),
        (b"z cost 1\n", 1, SolKind::UnknownRouter),
        (b"-x none\n", 1, SolKind::BadForm),
        (b"a none\na cost 1\n", 2, SolKind::Repeated),
        (b"a none\nb cost 1\nz none\n", 2, SolKind::WrongProtocol),
        (b"a bgp 100 path\n", 1, SolKind::BadForm),
        (b"a bgp 100 path comms 1:2 1:1\n", 1, SolKind::BadForm),
        (b"a bgp 100 path comms 65535:65281\n", 1, SolKind::BadForm),
        (b"a bgp 100 path 65001*1 comms\n", 1, SolKind::BadForm),
        (b"a bgp 100 path 65001*12 comms\n", 1, SolKind::BadForm),
    ];
    let names = names(alloc)?;
    for (text, wanted_line, wanted_kind) in cases {
        match read_labels(alloc, text, Protocol::Bgp, &names) {
            Err(SolRefusal::At { line, kind }) => {
                assert_eq!(rt; line, wanted_line);
                assert_eq!(rt; kind, wanted_kind);
            }
            _ => assert!(rt; false),
        }
    }
    Ok(())
}
