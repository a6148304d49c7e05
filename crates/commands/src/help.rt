ghost use Rattle.std.specs.Prelude.{◌≡◌, IfOk};
ghost use Rattle.commands.specs.Told.{help_reply, usage_reply, version_reply};
ghost use Rattle.commands.specs.Status.{IsAnswer};

use crate::reply::{Reply, line};
use crate::status::Status;
use std::alloc::{AllocError, Global};

/// What the words ask for, as a user reads it.
const HELP: &[u8] = b"\
cra: a verified analyser of numeric C

usage: cra analyse | certify | check | edit | sample N | renew | replay | facets | cost NAME

  analyse    reads the text of a program, and prints what is proved of it
  prove      reads the text of a program, and prints what is proved of it with phases of loops, products of rows and rows at points
  facets     reads the text of a program, and prints what is proved of it with loops bounded along the facets of their changes
  certify    reads the text of a program, and prints its report with all that shows it, as JSON
  check      reads a certificate file, and prints whether its answers show its report
  edit       reads a text with edits as JSON, and prints what comes of each version, and the report of the last
  sample N   makes a text of N procedures with loops, 1 to 250, and prints how many assertions are proved
  renew      reads a certificate file, and where it passes prints one that is made anew
  replay     reads a text with values and turns as JSON, and prints one execution
  cost NAME  reads the text of a program, and prints by how much each procedure changes a global
  --help     prints this
  --version  prints the version
";

/// The answer to words that ask for help.
pub fn help_reply(alloc: Global) -> Result<Reply, AllocError>
    ensures reply { IfOk result (λ reply. reply ≡ help_reply) }
    ensures status { IfOk result (λ reply. IsAnswer reply.status) }
{
    line(alloc, Status::Told, HELP)
}

/// The answer to words that ask for the version.
pub fn version_reply(alloc: Global) -> Result<Reply, AllocError>
    ensures reply { IfOk result (λ reply. reply ≡ version_reply) }
    ensures status { IfOk result (λ reply. IsAnswer reply.status) }
{
    line(alloc, Status::Told, b"cra 0.1.0\n")
}

/// The answer to words that ask for nothing.
pub fn usage_reply(alloc: Global) -> Result<Reply, AllocError>
    ensures reply { IfOk result (λ reply. reply ≡ usage_reply) }
    ensures status { IfOk result (λ reply. IsAnswer reply.status) }
{
    line(
        alloc,
        Status::WrongWords,
        b"usage: cra analyse | certify | check | edit | sample N | renew | replay | facets | cost NAME\n",
    )
}
