//! Laws that the printed text of a certificate is read back, and that it is short.
//!
//! The laws speak only of two definitions: the printed text of a certificate, and the certificate of a
//! text.
#![tactic(auto)]

ghost use Rattle.certificate_round_trip.specs.Laws.{PrintedCertificateIsReadBack, PrintedCertificateIsShort};

/// The text of an accepted certificate spells this certificate, if routers have names of their own and
/// no two edges have the same importer and the same link.
pub fn printed_is_read_back()
    ensures { PrintedCertificateIsReadBack }
{}

/// That text has at most 16,777,216 bytes, if there are at most 4,096 routers and no more splits than
/// routers.
pub fn printed_is_short()
    ensures { PrintedCertificateIsShort }
{}
