//! Certificate files: what is read, where a file is wrong, and what is written.
ghost use Rattle.wire.specs.Written.{IsWritable};

use crate::faults::show_error;
use row_texts::Told;
use wire::{Certificate, Version, read_certificate, write_certificate};

/// What is read of a file, or why it is not.
pub(crate) fn show_certificate(out: &mut Told, file: &str) {
    match read_certificate(out.alloc(), file.as_bytes()) {
        Ok(file) => show_parts(out, &file),
        Err(error) => show_error(out, &error),
    }
}

fn show_parts(out: &mut Told, file: &Certificate) {
    out.word(match file.version {
        Version::First => "version 1",
        Version::Second => "version 2",
    });
    out.count(", answers ", file.answers.len());
    show_order(out, file.order.as_slice());
    out.count(", text ", file.text.as_str().len());
    out.count(", report ", file.report.as_str().len());
}

fn show_order(out: &mut Told, order: &[usize]) {
    let mut mark = ", order ";
    if order.is_empty() {
        out.word(mark);
    }
    for place in order {
        out.count(mark, *place);
        mark = ",";
    }
}

/// A file that is read and written again.
pub(crate) fn show_written(out: &mut Told, file: &str) {
    match read_certificate(out.alloc(), file.as_bytes()) {
        Ok(file) => show_file(out, &file),
        Err(_) => out.lose(),
    }
}

fn show_file(out: &mut Told, file: &Certificate)
    requires { IsWritable file.now }
{
    match write_certificate(out.alloc(), file) {
        Ok(text) => out.word(text.as_str()),
        Err(_) => out.lose(),
    }
}
