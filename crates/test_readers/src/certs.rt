//! Shows what texts of certificates are read as, and that they are written so again.

ghost use Rattle.std.specs.Prelude.{◌≡◌};
ghost use Rattle.certificates.specs.Certificate.{IsInGrammar};

use certificates::{Cert, CertFault, CertSection, SectionKind, read_cert, write_cert};
use std::alloc::{AllocError, Global};
use std::io;

/// Shows a section.
fn show_section(rt: &HostRuntime, s: &CertSection) -> io::Result<()> {
    let kind = match s.kind {
        SectionKind::Inside => "inside",
        SectionKind::Alone => "alone",
        SectionKind::Loops => "loops",
    };
    print!(rt; " {kind} {}", s.method)?;
    for (u, potential) in s.section.nodes() {
        print!(rt; " {u}:{potential}")?;
    }
    for l in s.section.loops() {
        let region = if l.region() { "region" } else { "loop" };
        print!(rt; " {region} {} {}", l.header(), l.iteration_cost())?;
        for u in l.members() {
            print!(rt; ",{u}")?;
        }
    }
    Ok(())
}

/// Shows a certificate.
fn show(rt: &HostRuntime, c: &Cert) -> io::Result<()> {
    print!(rt; "version={} root={}", c.version(), c.root())?;
    for s in c.sections() {
        show_section(rt, s)?;
    }
    match c.bound() {
        Some(bound) => print!(rt; " bound={bound} "),
        None => print!(rt; " bound=never "),
    }
}

/// The certificate, put together anew of its parts.
fn anew(c: Cert) -> Cert
    ensures { result ≡ c }
{
    let (version, root, bound) = (c.version(), c.root(), c.bound());
    Cert::new(version, root, c.into_sections(), bound)
}

/// Whether one is the other with a line feed at its end.
fn is_written(text: &[u8], written: &[u8]) -> bool {
    written.strip_suffix(b"\n") == Some(text.strip_suffix(b"\n").unwrap_or(text))
}

/// Writes a certificate, and shows whether that gives the text.
fn show_written(rt: &HostRuntime, text: &[u8], c: &Cert) -> io::Result<()>
    requires { IsInGrammar c.now }
{
    match write_cert(rt.alloc(), c) {
        Ok(written) if is_written(text, &written) => println!(rt; "written"),
        Ok(_) => println!(rt; "written otherwise"),
        Err(_) => Err(io::Error::from(AllocError)),
    }
}

/// Shows what a text is read as.
fn show_text(rt: &HostRuntime, text: &[u8], in_full: bool) -> io::Result<()> {
    match read_cert(rt.alloc(), text) {
        Ok(c) => {
            let c = anew(c);
            if in_full {
                show(rt, &c)?;
            }
            show_written(rt, text, &c)
        }
        Err(CertFault::Line(number)) => println!(rt; "bad line={number}"),
        Err(CertFault::NoMemory) => Err(io::Error::from(AllocError)),
    }
}

/// Shows what a text is read as; of one behind a `#` only whether it is written so.
pub(crate) fn show_row(rt: &HostRuntime, text: &[u8]) -> io::Result<()> {
    match text.strip_prefix(b"#") {
        Some(behind) => show_text(rt, behind, false),
        None => show_text(rt, text, true),
    }
}
