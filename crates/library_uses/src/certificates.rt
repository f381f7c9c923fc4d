//! Calls on certificates of coarseness.

ghost use Rattle.std.specs.Prelude.{◌≡◌, ◌≤◌, IfOk, length};
ghost use Rattle.cut_certificate.specs.Answers.{Verifies};
ghost use Rattle.cut_certificate.specs.Certificates.{AreCoarsest, IsAccepted};
ghost use Rattle.cut_certificate.specs.Printed.{certificate_text};
ghost use Rattle.cut_certificate.specs.Texts.{certificate_of_text};

use base_kit::{ActGraph, List, NoMemory, Text};
use cut_certificate::{Certificate, CutRefusal, certify, print_certificate, verify};
use std::alloc::Global;

/// A certificate of the coarsest partition of a graph.
pub fn certificate_of(alloc: Global, graph: &ActGraph) -> Result<Certificate, NoMemory>
    ensures { IfOk result (IsAccepted graph.now) }
{
    certify(alloc, graph)
}

/// The certificate that a text spells, if it is one.
pub fn verified(
    alloc: Global,
    graph: &ActGraph,
    names: &List<Text>,
    bytes: &[u8],
) -> Result<Certificate, CutRefusal>
    requires short { length bytes.now ≤ 16777216 }
    requires names { length names.now ≡ graph.now.count }
    ensures exact { Verifies result (certificate_of_text graph.now names.now bytes.now) }
    ensures coarsest { IfOk result (λ c. AreCoarsest graph.now c.groups) }
{
    verify(alloc, graph, names, bytes)
}

/// A certificate as a text.
pub fn text_of_certificate(
    alloc: Global,
    graph: &ActGraph,
    names: &List<Text>,
    c: &Certificate,
) -> Result<Vec<u8>, NoMemory>
    requires names { length names.now ≡ graph.now.count }
    requires accepted { IsAccepted graph.now c.now }
    ensures { IfOk result (λ bytes. bytes.items ≡ certificate_text graph.now.edges names.now c.now) }
{
    print_certificate(alloc, graph, names, c)
}
