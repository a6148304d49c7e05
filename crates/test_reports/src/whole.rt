//! The whole text.

use crate::parts::{blocks, judgements, squash_notes};
use report::{Report, print, proved_assertions, unproved_assertions};
use std::test::Fail;

/// Each form of line.
const TEXT: &str = "\
procedure f
case 1
  x - $1 + 3 <= 0
  2*g*x - g#2 = 0
  g' = -g#2*g#2 - 1
  $ret = g#2 - 5
case 2
  g' = 0
  $ret = 7*g*g*x
note wide -3 * 170141183460469231731687303715884105727
note degree
note squash 17 cases
note cut 3 rows
note limit wide 1 + -2
note dropped g#2 - g' + $ret - 9 <= 0 point g#2 = -1/2, $ret = 12
note dropped g - g' = 0 limit pivots
note facets beyond
procedure none_of_it
none
note squash 33 cases
assertion 1 at 3:14 proved
note squash 20 cases
assertion 2 at 3:14 unproved
  $1*$2 + $1 <= 0
  $2 - 4 = 0
  g = $1
  x = 3
  g#5 = -$2
  point $1*$2 = 2, $1 = -7, $2 = -1/2
note squash 20 cases
assertion 3 at 3:14 unproved
  g = 1
  x = 2
  g#5 = 3
  point none
note squash 20 cases
assertion 4 at 3:14 unproved
  $1 + 1 <= 0
  g = $1
  x = 2
  g#5 = 3
  limit wide 9 * 11
note squash 20 cases
total 1 proved, 3 unproved
";

#[test]
fn every_form_of_line(rt: HostRuntime) -> Result<(), Fail> {
    let alloc = rt.alloc();
    let report = Report {
        procs: blocks(alloc)?,
        notes: squash_notes(alloc, 33)?,
        judged: judgements(alloc)?,
    };
    let text = print(alloc, &report)?;
    assert_eq!(rt; str::from_utf8(&text)?, TEXT);
    assert_eq!(rt;
        (proved_assertions(&report), unproved_assertions(&report)),
        (1, 3)
    );
    Ok(())
}
