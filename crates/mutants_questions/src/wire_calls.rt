ghost use Rattle.std.specs.Prelude.{◌≡◌, ◌<◌, ◌^◌, Ok, length, IfOk};
ghost use Rattle.items.specs.Gives.{Gives};
ghost use Rattle.serde_json.specs.Written.{compact_text};
ghost use Rattle.wire.specs.Edits.{texts_of};
ghost use Rattle.wire.specs.Errors.{fault};
ghost use Rattle.wire.specs.Files.{certificate_of};
ghost use Rattle.wire.specs.Written.{IsWritable, certificate_data};

use items::Items;
use std::alloc::{AllocError, Global};
use wire::{Certificate, FileText, Script, WireError};

/// A certificate file of either version.
pub fn read_certificate(alloc: Global, bytes: &[u8]) -> Result<Certificate, WireError>
    ensures exact { Gives fault (λ x. x) result (certificate_of bytes.now) }
    ensures writable { IfOk result IsWritable }
{
    wire::read_certificate(alloc, bytes)
}

/// The text of a certificate file.
pub fn write_certificate(alloc: Global, file: &Certificate) -> Result<FileText, AllocError>
    requires { IsWritable file.now }
    ensures written { IfOk result (λ text. text ≡ compact_text (certificate_data file.now)) }
    ensures back { IfOk result (λ text. certificate_of text ≡ Ok file.now) }
{
    wire::write_certificate(alloc, file)
}

/// The texts of a script.
pub fn texts(alloc: Global, script: &Script) -> Result<Items<FileText>, WireError>
    requires { length script.now.edits < 2 ^ 32 }
    ensures { Gives fault (λ x. x) result (texts_of script.now) }
{
    wire::texts(alloc, script)
}
