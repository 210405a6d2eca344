//! Texts of certificates, with what they read as.

use ca_cert_text::{CertFault, read_certificate, write_certificate};
use ca_claim::Certificate;
use std::alloc::Global;

// Texts that read as certificates, each written again as the same text.
static READ: [&[u8]; 12] = [
    b"cellaware certificate 1 budget 0\n",
    b"cellaware certificate 1 budget 65536\n",
    b"cellaware certificate 1 budget 3\nx\n",
    b"cellaware certificate 1 budget 3\nc 0 0\n",
    b"cellaware certificate 1 budget 3\nc 4294967295 4294967295\n",
    b"cellaware certificate 1 budget 3\nu\n",
    b"cellaware certificate 1 budget 3\na\n",
    b"cellaware certificate 1 budget 3\nu -1 . .\n",
    b"cellaware certificate 1 budget 3\na +12 -3 .\n",
    b"cellaware certificate 1 budget 3\na . . . +8191\n",
    b"cellaware certificate 1 budget 3\nu +0 -0 +0\n",
    b"cellaware certificate 1 budget 64\nc 0 2\nx\nu -1 . .\na +12 -3 .\n",
];

// Texts that aren't of the form, each with its first faulty line.
static FAULTY: [(&[u8], usize); 40] = [
    (b"", 1),
    (b"\n", 1),
    (b"x\n", 1),
    (b"cellaware certificate 1 budget 3", 1),
    (b"cellaware certificate 1 budget \n", 1),
    (b"cellaware certificate 1 budget 03\n", 1),
    (b"cellaware certificate 1 budget +3\n", 1),
    (b"cellaware certificate 1 budget 3 \n", 1),
    (b" cellaware certificate 1 budget 3\n", 1),
    (b"cellaware certificate 1  budget 3\n", 1),
    (b"cellaware certificate 2 budget 3\n", 1),
    (b"cellaware certificate 1 budget 65537\n", 1),
    (b"cellaware certificate 1 budget 3\r\n", 1),
    (b"Cellaware certificate 1 budget 3\nq\n", 1),
    (b"cellaware certificate 1 budget 3\nx", 2),
    (b"cellaware certificate 1 budget 3\n\n", 2),
    (b"cellaware certificate 1 budget 3\nX\n", 2),
    (b"cellaware certificate 1 budget 3\nx \n", 2),
    (b"cellaware certificate 1 budget 3\nx\r\n", 2),
    (b"cellaware certificate 1 budget 3\nc\n", 2),
    (b"cellaware certificate 1 budget 3\nc 0\n", 2),
    (b"cellaware certificate 1 budget 3\nc 0 \n", 2),
    (b"cellaware certificate 1 budget 3\nc  0 0\n", 2),
    (b"cellaware certificate 1 budget 3\nc 0  0\n", 2),
    (b"cellaware certificate 1 budget 3\nc 0 0 \n", 2),
    (b"cellaware certificate 1 budget 3\nc 01 0\n", 2),
    (b"cellaware certificate 1 budget 3\nc 0 -1\n", 2),
    (b"cellaware certificate 1 budget 3\nc 4294967296 0\n", 2),
    (b"cellaware certificate 1 budget 3\nu \n", 2),
    (b"cellaware certificate 1 budget 3\nu  .\n", 2),
    (b"cellaware certificate 1 budget 3\nu .\t.\n", 2),
    (b"cellaware certificate 1 budget 3\nu ..\n", 2),
    (b"cellaware certificate 1 budget 3\nu +\n", 2),
    (b"cellaware certificate 1 budget 3\nu 1\n", 2),
    (b"cellaware certificate 1 budget 3\nu +01\n", 2),
    (b"cellaware certificate 1 budget 3\nu +8192\n", 2),
    (b"cellaware certificate 1 budget 3\na+1\n", 2),
    (b"cellaware certificate 1 budget 3\na .\n\na .\n", 3),
    (b"cellaware certificate 1 budget 3\nx\nx\nq\nq\n", 4),
    (b"cellaware certificate 1 budget 3\nx\nx\nx\na . +1", 5),
];

// Whether the certificate is written as this text.
fn is_written(alloc: Global, certificate: &Certificate, text: &[u8]) -> bool {
    match write_certificate(alloc, certificate) {
        Ok(written) => written.is(text),
        Err(_) => false,
    }
}

// Whether a text reads as a certificate that is written as the same text.
fn is_read(alloc: Global, text: &[u8]) -> bool {
    match read_certificate(alloc, text) {
        Ok(certificate) => is_written(alloc, &certificate, text),
        Err(_) => false,
    }
}

// The first faulty line of a text, 0 if it has none.
fn faulty_line(alloc: Global, text: &[u8]) -> usize {
    match read_certificate(alloc, text) {
        Err(CertFault::At { line }) => line,
        Err(CertFault::NoMemory) | Ok(_) => 0,
    }
}

#[test]
fn texts_of_certificates(rt: HostRuntime) {
    for text in &READ {
        assert!(rt; is_read(rt.alloc(), text), "{text:?}");
    }
}

#[test]
fn first_faulty_lines(rt: HostRuntime) {
    for (text, line) in &FAULTY {
        assert_eq!(rt; faulty_line(rt.alloc(), text), *line, "{text:?}");
    }
}
