//! Edit scripts, and the texts that they give.
ghost use Rattle.std.specs.Prelude.{◌≤◌, length};
ghost use Rattle.wire.specs.Files.{most_edits};

use crate::faults::show_error;
use row_texts::Told;
use wire::{FileText, Script, read_script, texts};

/// The texts of a script, or why it has none.
pub(crate) fn show(out: &mut Told, file: &str) {
    match read_script(out.alloc(), file.as_bytes()) {
        Ok(script) => show_script(out, &script),
        Err(error) => show_error(out, &error),
    }
}

fn show_script(out: &mut Told, script: &Script)
    requires { length script.now.edits ≤ most_edits }
{
    match texts(out.alloc(), script) {
        Ok(texts) => show_texts(out, texts.as_slice()),
        Err(error) => show_error(out, &error),
    }
}

fn show_texts(out: &mut Told, texts: &[FileText]) {
    out.word("texts");
    for text in texts {
        out.word(" [");
        out.word(text.as_str());
        out.word("]");
    }
}
