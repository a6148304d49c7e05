use crate::tables;
use commands::{MOST_INPUT, run};
use cra_io::{MemorySink, MemorySource};
use std::alloc::Global;
use std::process::Abort;
use std::test::Fail;
use summary_cache::MOST_BYTES;

const USAGE: &[u8] =
    b"usage: cra analyse | certify | check | edit | sample N | renew | replay | facets | cost NAME\n";

const TOO_LONG: &[u8] = b"input is too long\n";

const PROVED: &[u8] =
    b"int main(void) {\n  int x = __VERIFIER_nondet_int();\n  int y = x + 2;\n  assert(x <= y - 1);\n}\n";

const PROVED_REPORT: &[u8] =
    b"procedure main\ncase 1\n  $ret = $1\nassertion 1 at 4:3 proved\ntotal 1 proved, 0 unproved\n";

const UNPROVED: &[u8] =
    b"int main(void) {\n  int a = __VERIFIER_nondet_int();\n  int b = __VERIFIER_nondet_int();\n  assert(a <= b);\n}\n";

const UNPROVED_REPORT: &[u8] =
    b"procedure main\ncase 1\n  $1 - $2 <= 0\n  $ret = $3\nassertion 1 at 4:3 unproved\n  -$1 + $2 + 1 <= 0\n  a = $1\n  b = $2\n  point $1 = 1, $2 = 0\ntotal 0 proved, 1 unproved\n";

const FALSE: &[u8] = b"int main(void) {\n  int x = 1;\n  assert(x <= 0);\n}\n";

const FALSE_REPORT: &[u8] =
    b"procedure main\nnone\nassertion 1 at 3:3 unproved\n  x = 1\n  point none\ntotal 0 proved, 1 unproved\n";

// Sums that go past 64 bits, and a variable that is used twice.
const WIDE: &[u8] =
    b"int main(void){int a=__VERIFIER_nondet_int();int b=a+a-3;int c=b-a+9223372036854775807;\nassert(c+2<=b-1+a);}";

const WIDE_REPORT: &[u8] =
    b"procedure main\ncase 1\n  -$1 + 4611686018427387905 <= 0\n  $ret = $2\nassertion 1 at 2:1 unproved\n  $1 - 4611686018427387904 <= 0\n  a = $1\n  b = 2*$1 - 3\n  c = $1 + 9223372036854775804\n  point $1 = 4611686018427387904\ntotal 0 proved, 1 unproved\n";

const PLAIN: &[u8] = b"int main(void) { assert(0 <= 0); }";

const PLAIN_REPORT: &[u8] =
    b"procedure main\ncase 1\n  $ret = $1\nassertion 1 at 1:18 proved\ntotal 1 proved, 0 unproved\n";

// A variable that is set again, brackets, and one that is declared without a value.
const AGAIN: &[u8] = b"int main(void) { int a = 1; a = a + 2 - (3 - a); int b; assert(a <= b); }";

const AGAIN_REPORT: &[u8] =
    b"procedure main\ncase 1\n  -$1 + 1 <= 0\n  $ret = $2\nassertion 1 at 1:57 unproved\n  $1 <= 0\n  a = 1\n  b = $1\n  point $1 = 0\ntotal 0 proved, 1 unproved\n";

// Two variables of one name, in a procedure without a value.
const HIDDEN: &[u8] =
    b"void main(void) { int x = __VERIFIER_nondet_int(); { int x = 2; } assert(x <= 3); }";

const HIDDEN_REPORT: &[u8] =
    b"procedure main\ncase 1\n  $1 - 3 <= 0\nassertion 1 at 1:67 unproved\n  -$1 + 4 <= 0\n  x = $1\n  x#1 = 2\n  point $1 = 4\ntotal 0 proved, 1 unproved\n";

// Comments, a skipped line, a hexadecimal number, and a column of a call inside a sum.
const SPACED: &[u8] =
    b"#include <assert.h>\nint main() { /* so */ int x = 0x1F + __VERIFIER_nondet_int(); // y\n\tassert(x - 1 <= x); }";

const SPACED_REPORT: &[u8] =
    b"procedure main\ncase 1\n  $ret = $1\nassertion 1 at 3:2 proved\ntotal 1 proved, 0 unproved\n";

// A loop that counts.
const LOOP: &[u8] =
    b"int main(void) {\n  int n = __VERIFIER_nondet_int();\n  int i = 0;\n  assume(n >= 0);\n  while (i < n) i++;\n  assert(i == n);\n}\n";

const LOOP_REPORT: &[u8] =
    b"procedure main\ncase 1\n  $ret = $1\ncase 2\n  -$1 + 1 <= 0\n  $ret = $2\nassertion 1 at 6:3 proved\ntotal 1 proved, 0 unproved\n";

// As many blocks inside each other as a text can have.
const DEEP: &[u8] =
    b"int main(void) {{{{{{{{{{{{{{{{{{{{{{{{{{{{{{{{{{{{{{{{{{{{{{{{{{{{{{{{{{{{{{{{}}}}}}}}}}}}}}}}}}}}}}}}}}}}}}}}}}}}}}}}}}}}}}}}}}}}}}}}}}}}}}}}";

const DEEP_REPORT: &[u8] = b"procedure main\ncase 1\n  $ret = $1\ntotal 0 proved, 0 unproved\n";

// A sum of a progression in a loop.
const SUM: &[u8] =
    b"int main(void) {\n  int n = __VERIFIER_nondet_int();\n  int i = 0;\n  int s = 0;\n  assume(n >= 0);\n  while (i < n) {\n    s += i;\n    i++;\n  }\n  assert(2 * s == n * n - n);\n}\n";

const SUM_REPORT: &[u8] =
    b"procedure main\ncase 1\n  $ret = $1\ncase 2\n  -$2 + 1 <= 0\n  $2*$2 - 2*$1 - $2 = 0\n  $ret = $3\nassertion 1 at 10:3 proved\ntotal 1 proved, 0 unproved\n";

// The same by recursion.
const TRIANGLE: &[u8] =
    b"int sum(int n) { if (n <= 0) return 0; return n + sum(n - 1); }\nint main(void) {\n  int m = __VERIFIER_nondet_int();\n  assume(m >= 0);\n  assert(2 * sum(m) == m * m + m);\n}\n";

const TRIANGLE_REPORT: &[u8] =
    b"procedure sum\ncase 1\n  n <= 0\n  $ret = 0\ncase 2\n  n*n + n - 2*$1 = 0\n  -n + 1 <= 0\n  n - $1 <= 0\n  $ret = $1\nprocedure main\ncase 1\n  $ret = $1\ncase 2\n  -$1 + 1 <= 0\n  $1*$1 + $1 - 2*$2 = 0\n  $1 - $2 <= 0\n  $ret = $3\nassertion 1 at 5:3 proved\ntotal 1 proved, 0 unproved\n";

// A global that is set back behind a call, and an assertion that fails in the fourth activation.
const BALANCED: &[u8] =
    b"int g;\nvoid f(int n) { assert(g <= 2); if (n <= 0) return; g = g + 1; f(n - 1); g = g - 1; }\nint main(void) { f(3); }\n";

const BALANCED_REPORT: &[u8] =
    b"procedure f\ncase 1\n  g - 2 <= 0\n  n <= 0\n  g' = g\ncase 2\n  -n + 1 <= 0\n  g + n - 2 <= 0\n  g' = g\nprocedure main\ncase 1\n  g + 1 <= 0\n  g' = g\n  $ret = $1\nassertion 1 at 2:17 unproved\n  g = 3\n  n = 0\n  point none\ntotal 0 proved, 1 unproved\n";

// A call that is never made.
const ERROR: &[u8] =
    b"void reach_error(void) { assert(0); }\nint main(void) {\n  int x = 0;\n  int y = 0;\n  while (x < 100) {\n    x = x + 1;\n    y = y + 2;\n  }\n  if (y != 200) reach_error();\n  return 0;\n}\n";

const ERROR_REPORT: &[u8] =
    b"procedure reach_error\nnone\nprocedure main\ncase 1\n  $ret = 0\nassertion 1 at 1:26 proved\ntotal 1 proved, 0 unproved\n";

// A quotient is cut off towards zero.
const QUOTIENT: &[u8] = b"int main(void) {\n  assert(7 / -2 == -4);\n}\n";

const QUOTIENT_REPORT: &[u8] =
    b"procedure main\nnone\nassertion 1 at 2:3 unproved\n  point none\ntotal 0 proved, 1 unproved\n";

// A sum that a loop adds up in a global.
const WORK: &[u8] =
    b"int g;\nvoid work(int n) {\n  int i = 0;\n  while (i < n) {\n    g = g + i;\n    i = i + 1;\n  }\n}\nint main(void) { work(4); }\n";

// Names of globals and texts, each with its status and its output.
const COSTS: [(&str, &[u8], u8, &[u8]); 7] = [
    (
        "g",
        WORK,
        0,
        b"procedure work\ncase 1\n  change = 0\ncase 2\n  2*change <= n*n - n\n  by -1, 1, -1, 2\nprocedure main\ncase 1\n  change = 6\n",
    ),
    ("h", WORK, 10, b"no global h\n"),
    ("int", WORK, 10, b"no global int\n"),
    (
        "g",
        b"int g; int main(void) { g = __VERIFIER_nondet_int(); }",
        0,
        b"procedure main\ncase 1\n  no bound\n",
    ),
    (
        "g",
        b"int g; int main(void) { int x = __VERIFIER_nondet_int(); assume(x <= 3); g = g + x + 5; }",
        0,
        b"procedure main\ncase 1\n  change <= 8\n  by 1, 1\n",
    ),
    (
        "cost",
        b"int h, cost; void e(void) { assert(0); } int main(void) { cost = cost * cost + h; }",
        0,
        b"procedure e\nnone\nprocedure main\ncase 1\n  change = cost*cost + h - cost\n",
    ),
    ("g", b"int main(void) { @ }", 3, b"refused byte at 1:18\n"),
];

// Inputs on which an execution is followed, each with its status and its output.
const REPLAYS: [(&[u8], u8, &[u8]); 16] = [
    (
        b"{\"text\":\"int main(void) { int n = __VERIFIER_nondet_int(); assert(n >= 0); }\",\"values\":[\"-1\"],\"turns\":10}",
        1,
        b"any -1\nstopped: assertion 1 failed at 1:51 after 1 steps\n",
    ),
    (
        b"{\"text\":\"int main(void) { int n = __VERIFIER_nondet_int(); assert(n >= 0); }\",\"values\":[\"2\"],\"turns\":10}",
        0,
        b"any 2\ncheck 1 holds\nstopped: main returned 0 after 2 steps\n",
    ),
    (
        b"{\"text\":\"int main(void) { int n = __VERIFIER_nondet_int(); assert(n >= 0); }\",\"values\":[],\"turns\":10}",
        0,
        b"stopped: no value left after 0 steps\n",
    ),
    (
        b"{\"text\":\"int inc(int x) { return x + 1; } int main(void) { return inc(4); }\",\"values\":[],\"turns\":100}",
        0,
        b"call inc(4)\nreturn 5\nstopped: main returned 5 after 5 steps\n",
    ),
    (
        b"{\"text\":\"int inc(int x) { return x + 1; } int main(void) { return inc(4); }\",\"values\":[],\"turns\":4}",
        0,
        b"call inc(4)\nreturn 5\nstopped: turns spent after 4 steps\n",
    ),
    (
        b"{\"text\":\"void v(int a, int b) { assume(a < b); } void main(void) { v(1, -2); }\",\"values\":[],\"turns\":9}",
        0,
        b"call v(1, -2)\nstopped: guard after 1 steps\n",
    ),
    (
        b"{\"text\":\"int main(void) { int x = __VERIFIER_nondet_int(); return 3 - x * x; }\",\"values\":[\"18446744073709551616\"],\"turns\":9}",
        0,
        b"any 18446744073709551616\nstopped: wide 18446744073709551616 * 18446744073709551616 after 1 steps\n",
    ),
    (
        b"{\"text\":\"void v(void) { } void main(void) { v(); }\",\"values\":[],\"turns\":9}",
        0,
        b"call v()\nreturn\nstopped: main returned after 2 steps\n",
    ),
    (
        b"{\"text\":\"int main(void) { return 1 / (2 - 2); }\",\"values\":[],\"turns\":9}",
        0,
        b"stopped: division by zero after 0 steps\n",
    ),
    (
        b"{\"text\":\"int main(void) { @ }\",\"values\":[],\"turns\":9}",
        3,
        b"refused byte at 1:18\n",
    ),
    (b"{\"text\":1", 7, b"input is not JSON\n"),
    (b"[]", 7, b"input has a wrong shape at \n"),
    (
        b"{\"text\":\"\",\"values\":[\"01\"],\"turns\":1}",
        7,
        b"input has a wrong shape at /values/0\n",
    ),
    (
        b"{\"text\":\"\",\"values\":[\"1\", 2],\"turns\":1}",
        7,
        b"input has a wrong shape at /values/1\n",
    ),
    (
        b"{\"text\":\"@\",\"values\":[],\"turns\":100001}",
        7,
        b"input has a wrong shape at /turns\n",
    ),
    (
        b"{\"text\":\"@\",\"values\":[]}",
        7,
        b"input has a wrong shape at /turns\n",
    ),
];

// Texts and their certificate files, that an independent model of the rules gives.
const CERTIFICATES: [(&[u8], &[u8]); 2] = [
    (
        b"int main(void){}",
        b"{\"answers\":[],\"order\":[],\"report\":\"procedure main\\ncase 1\\n  $ret = $1\\ntotal 0 proved, 0 unproved\\n\",\"text\":\"int main(void){}\",\"version\":2}\n",
    ),
    (
        PLAIN,
        b"{\"answers\":[],\"order\":[],\"report\":\"procedure main\\ncase 1\\n  $ret = $1\\nassertion 1 at 1:18 proved\\ntotal 1 proved, 0 unproved\\n\",\"text\":\"int main(void) { assert(0 <= 0); }\",\"version\":2}\n",
    ),
];

// Two columns whose changes are bounded along a facet that no stated direction has.
const SLOPES: &[u8] =
    b"int main(void) {\n  int n = __VERIFIER_nondet_int();\n  int i = 0;\n  int x = 0;\n  int y = 0;\n  while (i < n) {\n    int c = __VERIFIER_nondet_int();\n    if (c > 0) {\n      x = x + 2;\n      y = y + 1;\n    } else {\n      if (c < 0) x = x + 1;\n    }\n    i = i + 1;\n  }\n  int z = 2 * y - x;\n  assert(z <= 0);\n}\n";

// A loop of two phases, the product of two facts, a recursion by two calls, a sum of products, and a
// column whose change reads columns of which it is not known what a turn makes of them; two slopes
// along facets and without them, a body beyond the counts of facets, and a text that is refused.
const PROOFS: [(&str, &[u8], u8, &[u8]); 14] = [
    (
        "prove",
        b"int main(void) { int t = 0; int h = 0;\n  while (t < 60) { if (t < 20) h = h + 3; else h = h - 1; t = t + 1; }\n  assert(h == 20); }\n",
        0,
        b"procedure main\ncase 1\n  $ret = $1\nassertion 1 at 3:3 proved\ntotal 1 proved, 0 unproved\n",
    ),
    (
        "prove",
        b"int main(void) { int a = __VERIFIER_nondet_int(); int b = __VERIFIER_nondet_int();\n  assume(a >= 3); assume(b >= 0); assert(a * b >= 3 * b); assert(a * b >= 1); }\n",
        1,
        b"procedure main\ncase 1\n  -$1 + 3 <= 0\n  -$2 <= 0\n  -$1*$2 + 3*$2 <= 0\n  -$1*$2 + 1 <= 0\n  $ret = $3\nassertion 1 at 2:35 proved\nassertion 2 at 2:59 unproved\n  -$1 + 3 <= 0\n  -$2 <= 0\n  -$1*$2 + 3*$2 <= 0\n  $1*$2 <= 0\n  a = $1\n  b = $2\n  point $1*$2 = 0, $1 = 3, $2 = 0\ntotal 1 proved, 1 unproved\n",
    ),
    (
        "prove",
        b"int f(int n) { if (n <= 1) return 1; int a = f(n - 1); int b = f(n - 2); return a + b; }\nint main(void) { int n = __VERIFIER_nondet_int(); int r = f(n); assert(r >= n); }\n",
        0,
        b"procedure f\ncase 1\n  n - 1 <= 0\n  $ret = 1\ncase 2\n  -n + 2 <= 0\n  -$1 + 1 <= 0\n  n - $1 - 1 <= 0\n  -$2 + 1 <= 0\n  n - $2 - 2 <= 0\n  $ret = $1 + $2\nnote dropped n - 3 <= 0 point n = 4, $1 = 4, $2 = 4\nnote dropped $ret - 4 <= 0 point n = 2, $1 = 4, $2 = 4\nprocedure main\ncase 1\n  $1 - 1 <= 0\n  $ret = $2\ncase 2\n  -$1 + 2 <= 0\n  -$2 + 1 <= 0\n  $1 - $2 - 1 <= 0\n  -$3 + 1 <= 0\n  $1 - $3 - 2 <= 0\n  $1 - $2 - $3 <= 0\n  $ret = $4\nassertion 1 at 2:65 proved\ntotal 1 proved, 0 unproved\n",
    ),
    (
        "prove",
        b"int main(void) { int w = __VERIFIER_nondet_int(); int n = __VERIFIER_nondet_int(); int i = 0; int a = 0;\n  assume(n >= 1); while (i < n) { a = a + w * i; i = i + 1; }\n  assert(2 * a == w * n * n - w * n); }\n",
        0,
        b"procedure main\ncase 1\n  -$3 + 1 <= 0\n  $1*$3*$3 - $1*$3 - 2*$2 = 0\n  $ret = $4\nassertion 1 at 3:3 proved\ntotal 1 proved, 0 unproved\n",
    ),
    (
        "prove",
        b"int main(void) { int n = __VERIFIER_nondet_int(); int m = __VERIFIER_nondet_int();\n  int i = 0; int x = 0; int y = 0; int v = 0; int w = 0;\n  while (i < m) { int r = __VERIFIER_nondet_int();\n    w = w + v * n; v = v + x + y; x = x + r; y = y - r + 1; i = i + 1; }\n  assert(w == 0); }\n",
        1,
        b"procedure main\ncase 1\n  $1 <= 0\n  $ret = $2\ncase 2\n  $2*$2 - 2*$1 - $2 = 0\n  -$2 + 1 <= 0\n  $ret = $3\nreached main loop 1\n  -v <= 0\nassertion 1 at 5:3 unproved\n  $6*$6 - 2*$3 - $6 = 0\n  -$6 + 1 <= 0\n  $4 + 1 <= 0\n  n = $1\n  m = $6\n  i = $6\n  x = -$2 + $6\n  y = $2\n  v = $3\n  w = $4\n  r = $5\n  point $6*$6 = 1, $3 = 0, $4 = -1, $6 = 1\ntotal 0 proved, 1 unproved\n",
    ),
    (
        "prove",
        b"int main(void) { int open = 0; int n = 0;\n  while (__VERIFIER_nondet_int()) {\n    if (open == 0) { open = 1; n = n + 1; } else { open = 0; n = n - 1; } }\n  assert(n == open); }\n",
        0,
        b"procedure main\ncase 1\n  $ret = $1\ncase 2\n  -$2 + 1 <= 0\n  $1 - 1 <= 0\n  -$1 <= 0\n  $1 - $2 <= 0\n  -$1 - $2 <= 0\n  $ret = $3\nreached main loop 1\n  n - 1 <= 0\n  open - n = 0\nassertion 1 at 4:3 proved\ntotal 1 proved, 0 unproved\n",
    ),
    (
        "prove",
        b"int main(void) { int a = __VERIFIER_nondet_int(); int b = __VERIFIER_nondet_int(); int q = 0; int r = a;\n  assume(b >= 1);\n  while (r >= b) { int t = __VERIFIER_nondet_int(); assume(t >= 1); r = r - t * b; q = q + t; }\n  assert(a == q * b + r); }\n",
        0,
        b"procedure main\ncase 1\n  -$2 + 1 <= 0\n  $1 - $2 + 1 <= 0\n  $ret = $3\ncase 2\n  -$1 + 1 <= 0\n  -$5 + 1 <= 0\n  -$1*$2 + $1 - $3 <= 0\n  -$4 + 1 <= 0\n  -$2 + $5 <= 0\n  -$1 + $3 + 1 <= 0\n  $ret = $6\nreached main loop 1\n  b*q - a + r = 0\nassertion 1 at 4:3 proved\ntotal 1 proved, 0 unproved\n",
    ),
    (
        "prove",
        b"int inner = 0; int tips = 0;\nvoid grow(int k) { if (k <= 0) { tips = tips + 1; return; } inner = inner + 1; grow(k - 1); grow(k - 2); }\nint main(void) { int k = __VERIFIER_nondet_int(); grow(k); assert(tips == inner + 1); }\n",
        0,
        b"procedure grow\ncase 1\n  k <= 0\n  inner' = inner\n  tips' = tips + 1\ncase 2\n  -k + 1 <= 0\n  inner - $1 + 1 <= 0\n  tips - $2 + 1 <= 0\n  $1 - $3 <= 0\n  $2 - $4 + 1 <= 0\n  inner' = $3\n  tips' = $4\nnote dropped k - 2 <= 0 point inner = -1, tips = -2, k = 3, $1 = 0, $2 = -1, $3 = 0, $4 = 0\nnote dropped -inner + inner' - 3 <= 0 point inner = -4, tips = -2, k = 1, $1 = 0, $2 = -1, $3 = 0, $4 = 0\nnote dropped -tips + tips' - 4 <= 0 point inner = -1, tips = -5, k = 1, $1 = 0, $2 = -1, $3 = 0, $4 = 0\nprocedure main\ncase 1\n  $1 <= 0\n  inner - tips = 0\n  inner' = inner\n  tips' = tips + 1\n  $ret = $2\ncase 2\n  -$1 + 1 <= 0\n  inner - $2 + 1 <= 0\n  tips - $3 + 1 <= 0\n  $2 - $4 + 1 <= 0\n  $3 - $4 + 1 <= 0\n  inner' = $4 - 1\n  tips' = $4\n  $ret = $5\nreached grow\n  -inner + tips <= 0\nreturned grow\n  -inner' + tips' - 1 <= 0\n  -inner' <= 0\n  -tips' + 1 <= 0\n  inner - tips - inner' + tips' - 1 = 0\nassertion 1 at 3:60 proved\ntotal 1 proved, 0 unproved\n",
    ),
    (
        "prove",
        b"int main(void) { int open = 0; int n = 0;\n  while (__VERIFIER_nondet_int()) { if (open == 0) { open = 1; n = n + 1; } else open = 0; }\n  assert(n == open); }\n",
        1,
        b"procedure main\ncase 1\n  $ret = $1\ncase 2\n  -$2 + 1 <= 0\n  $1 - 1 <= 0\n  -$1 <= 0\n  $1 - $2 <= 0\n  $ret = $3\nassertion 1 at 3:3 unproved\n  -$3 + 1 <= 0\n  $1 - 1 <= 0\n  -$1 <= 0\n  $2 - $3 <= 0\n  -$2 <= 0\n  $1 - $2 + 1 <= 0\n  open = $1\n  n = $2\n  point $1 = 1, $2 = 2, $3 = 2\ntotal 0 proved, 1 unproved\n",
    ),
    (
        "prove",
        b"int two(int b) { int k = 0; int s = 0; while (k < 6) { if (s == 0) s = b; else s = 0; k = k + 1; } return s; }\nint main(void) { int r = two(4); assert(r >= 0); assert(r <= 3); }\n",
        1,
        b"procedure two\ncase 1\n  $ret = $1\nprocedure main\ncase 1\n  -$1 <= 0\n  $1 - 3 <= 0\n  $ret = $2\nreached two loop 1\n  -s <= 0\n  s - 4 <= 0\n  b - s - 4 <= 0\n  k - s - 6 <= 0\n  -b + s <= 0\n  -k + s - 3 <= 0\nreturned two\n  -$ret <= 0\n  $ret - 4 <= 0\nassertion 1 at 2:34 proved\nassertion 2 at 2:50 unproved\n  -$1 + 4 <= 0\n  r = $1\n  point $1 = 4\ntotal 1 proved, 1 unproved\n",
    ),
    (
        "facets",
        SLOPES,
        0,
        b"procedure main\ncase 1\n  $1 <= 0\n  $ret = $2\ncase 2\n  -$3 + 1 <= 0\n  -$2 <= 0\n  $1 - $2 - $3 <= 0\n  -$1 + 2*$2 <= 0\n  $ret = $4\nassertion 1 at 17:3 proved\ntotal 1 proved, 0 unproved\n",
    ),
    (
        "analyse",
        SLOPES,
        1,
        b"procedure main\ncase 1\n  $1 <= 0\n  $ret = $2\ncase 2\n  -$3 + 1 <= 0\n  $2 - $3 <= 0\n  -$2 <= 0\n  $1 - $2 - $3 <= 0\n  -$1 + $2 <= 0\n  -$1 + 2*$2 <= 0\n  $ret = $4\nassertion 1 at 17:3 unproved\n  -$4 + 1 <= 0\n  $2 - $4 <= 0\n  -$2 <= 0\n  $1 - $2 - $4 <= 0\n  -$1 + $2 <= 0\n  $1 - 2*$2 + 1 <= 0\n  n = $4\n  i = $4\n  x = $1\n  y = $2\n  c = $3\n  z = -$1 + 2*$2\n  point $1 = 1, $2 = 1, $4 = 1\ntotal 0 proved, 1 unproved\n",
    ),
    (
        "facets",
        b"int main(void) { int a = 0; int b = 0; int c = 0; int d = 0; int n = __VERIFIER_nondet_int(); int i = 0;\n  while (i < n) { a = a + 1; b = b + 1; c = c + 1; d = d + 1; i = i + 1; }\n  assert(a == d); }\n",
        0,
        b"procedure main\ncase 1\n  $1 <= 0\n  $ret = $2\ncase 2\n  -$1 + 1 <= 0\n  $ret = $2\nnote facets beyond\nassertion 1 at 3:3 proved\ntotal 1 proved, 0 unproved\n",
    ),
    (
        "facets",
        b"int main(void) { @ }",
        3,
        b"refused byte at 1:18\n",
    ),
];

/// How a run went: its status, and what its sink took.
#[derive(Drop)]
pub(crate) struct Ended {
    pub(crate) status: u8,
    pub(crate) text: Vec<u8>,
}

/// Which calls of the source and of the sink fail, and the most bytes that one of them moves.
#[derive(Clone, Copy)]
pub(crate) struct Outside {
    failing_read: u64,
    failing_write: u64,
    most: usize,
}

const NEVER: u64 = 999;

pub(crate) const GOOD: Outside = Outside {
    failing_read: NEVER,
    failing_write: NEVER,
    most: 65_536,
};

/// A run on an input by its words.
pub(crate) fn run_on(
    alloc: Global,
    words: &[&str],
    input: &[u8],
    outside: Outside,
) -> Result<Ended, Fail> {
    let mut given = Vec::new(alloc);
    for word in words {
        given.push(word.to_string(alloc)?)?;
    }
    let most = outside.most.max(1);
    let mut source = MemorySource::new(
        input.to_vec(alloc)?,
        most,
        [outside.failing_read].to_vec(alloc)?,
    );
    let mut sink = MemorySink::new(alloc, 65_536, most, [outside.failing_write].to_vec(alloc)?)?;
    let status = run(alloc, &given, &mut source, &mut sink).code();
    Ok(Ended {
        status,
        text: sink.bytes().to_vec(alloc)?,
    })
}

/// A run on an input ends with this status, and its sink took this text.
pub(crate) fn ends(
    alloc: Global,
    rt: &impl Abort,
    words: &[&str],
    input: &[u8],
    status: u8,
    text: &[u8],
) -> Result<(), Fail> {
    let ended = run_on(alloc, words, input, GOOD)?;
    assert_eq!(rt; ended.status, status);
    assert_eq!(rt; ended.text.as_slice(), text);
    Ok(())
}

/// What is certified of a text passes, and is renewed as it is.
fn check_certificate(alloc: Global, rt: &impl Abort, input: &[u8]) -> Result<(), Fail> {
    let file = run_on(alloc, &["cra", "certify"], input, GOOD)?.text;
    ends(alloc, rt, &["cra", "check"], &file, 0, b"check passed\n")?;
    ends(alloc, rt, &["cra", "renew"], &file, 0, &file)
}

#[test]
fn reports(rt: HostRuntime) -> Result<(), Fail> {
    let alloc = rt.alloc();
    let cases = [
        (PROVED, 0, PROVED_REPORT),
        (UNPROVED, 1, UNPROVED_REPORT),
        (FALSE, 1, FALSE_REPORT),
        (WIDE, 1, WIDE_REPORT),
        (PLAIN, 0, PLAIN_REPORT),
        (AGAIN, 1, AGAIN_REPORT),
        (HIDDEN, 1, HIDDEN_REPORT),
        (SPACED, 0, SPACED_REPORT),
        (DEEP, 0, DEEP_REPORT),
        (LOOP, 0, LOOP_REPORT),
        (SUM, 0, SUM_REPORT),
        (TRIANGLE, 0, TRIANGLE_REPORT),
        (BALANCED, 1, BALANCED_REPORT),
        (ERROR, 0, ERROR_REPORT),
        (QUOTIENT, 1, QUOTIENT_REPORT),
    ];
    for (input, status, text) in cases {
        ends(alloc, &rt, &["cra", "analyse"], input, status, text)?;
        check_certificate(alloc, &rt, input)?;
    }
    Ok(())
}

/// Each input of a table is answered by `check` with this status and the line that stands before
/// it.
fn check_table(alloc: Global, rt: &impl Abort, status: u8, table: &str) -> Result<(), Fail> {
    for row in table.lines() {
        let (line, file) = row.split_once(" | ").ok_or("no row")?;
        let line = format!(in alloc; "{line}\n")?;
        ends(
            alloc,
            rt,
            &["cra", "check"],
            file.as_bytes(),
            status,
            line.as_bytes(),
        )?;
    }
    Ok(())
}

/// A file with each change of a table is answered by `check` as the row says.
fn check_changes(alloc: Global, rt: &impl Abort, file: &str, table: &str) -> Result<(), Fail> {
    for row in table.lines() {
        let (answer, change) = row.split_once(" | ").ok_or("no row")?;
        let (status, line) = answer.split_once(' ').ok_or("no row")?;
        let (old, new) = change.split_once(" | ").ok_or("no row")?;
        let input = file.replacen(alloc, old, new, 1)?;
        let status = status.parse::<u8>().ok().ok_or("no status")?;
        let line = format!(in alloc; "{line}\n")?;
        ends(
            alloc,
            rt,
            &["cra", "check"],
            input.as_bytes(),
            status,
            line.as_bytes(),
        )?;
    }
    Ok(())
}

// Rows of files and outputs that an independent model of the rules gives.
#[test]
fn files(rt: HostRuntime) -> Result<(), Fail> {
    let alloc = rt.alloc();
    for (input, file) in CERTIFICATES {
        ends(alloc, &rt, &["cra", "certify"], input, 0, file)?;
    }
    check_table(alloc, &rt, 0, tables::CHECK_PASSED)?;
    check_table(alloc, &rt, 8, tables::CHECK_FAILED)?;
    check_table(alloc, &rt, 7, tables::CHECKED_WRONG)?;
    check_table(alloc, &rt, 3, tables::CHECKED_TEXT_REFUSED)?;
    check_changes(alloc, &rt, tables::LOOP_FILE, tables::CHANGES)?;
    check_changes(alloc, &rt, tables::SHARED_LOOP_FILE, tables::SHARED_CHANGES)
}

/// Each script of a table is answered by `edit` as its row says.
fn check_edits(alloc: Global, rt: &impl Abort, table: &str) -> Result<(), Fail> {
    for row in table.lines() {
        let (status, row) = row.split_once(" | ").ok_or("no row")?;
        let (script, told) = row.split_once(" | ").ok_or("no row")?;
        let status = status.parse::<u8>().ok().ok_or("no status")?;
        let told = format!(in alloc; "{told}\n")?.replace(alloc, "~", "\n")?;
        ends(
            alloc,
            rt,
            &["cra", "edit"],
            script.as_bytes(),
            status,
            told.as_bytes(),
        )?;
    }
    Ok(())
}

#[test]
fn edits(rt: HostRuntime) -> Result<(), Fail> {
    check_edits(rt.alloc(), &rt, tables::EDITS)
}

// Rows of outputs that an independent model of the rules gives.
#[test]
fn replays(rt: HostRuntime) -> Result<(), Fail> {
    for (input, status, text) in REPLAYS {
        ends(rt.alloc(), &rt, &["cra", "replay"], input, status, text)?;
    }
    Ok(())
}

// What an independent model of the rules proves of texts with phases, with products and with facets.
#[test]
fn proofs(rt: HostRuntime) -> Result<(), Fail> {
    for (word, input, status, text) in PROOFS {
        ends(rt.alloc(), &rt, &["cra", word], input, status, text)?;
    }
    Ok(())
}

// Bounds on a global's change that an independent model of the rules gives.
#[test]
fn costs(rt: HostRuntime) -> Result<(), Fail> {
    for (name, input, status, text) in COSTS {
        ends(rt.alloc(), &rt, &["cra", "cost", name], input, status, text)?;
        ends(
            rt.alloc(),
            &rt,
            &["cra", "cost", "--", name],
            input,
            status,
            text,
        )?;
    }
    Ok(())
}

/// The text is refused with this line.
fn check_refusal(alloc: Global, rt: &impl Abort, input: &[u8], line: &[u8]) -> Result<(), Fail> {
    ends(alloc, rt, &["cra", "analyse"], input, 3, line)
}

/// Each text of a table is refused with the line that stands before it.
fn check(alloc: Global, rt: &impl Abort, table: &str) -> Result<(), Fail> {
    for row in table.lines() {
        let (line, text) = row.split_once(": ").ok_or("no row")?;
        let line = format!(in alloc; "{line}\n")?;
        check_refusal(alloc, rt, text.as_bytes(), line.as_bytes())?;
    }
    Ok(())
}

#[test]
fn refused_texts(rt: HostRuntime) -> Result<(), Fail> {
    let alloc = rt.alloc();
    check(alloc, &rt, tables::REFUSED_BY_THE_CUT)?;
    check(alloc, &rt, tables::REFUSED_BY_THE_GRAMMAR)?;
    check(alloc, &rt, tables::REFUSED_BY_NAMES)?;
    check(alloc, &rt, tables::REFUSED_BY_CALLS)?;
    check(alloc, &rt, tables::REFUSED_BY_COUNTS)?;
    let others: [(&[u8], &[u8]); 5] = [
        (b"", b"refused main at 1:1\n"),
        (b"int main(void) { \xff }", b"refused byte at 1:18\n"),
        (b"/* \xc3", b"refused comment at 1:1\n"),
        (
            b"#include <x.h>\n#include <y.h>\nint main(void) { int x = 1; # }",
            b"refused byte at 3:29\n",
        ),
        (
            b"int main(void)\n{\n  int x = 1\n}\n",
            b"refused syntax at 4:1\n",
        ),
    ];
    for (text, line) in others {
        check_refusal(alloc, &rt, text, line)?;
    }
    Ok(())
}

/// The words of each line of a table ask for nothing.
fn wrong_words(alloc: Global, rt: &impl Abort, table: &str) -> Result<(), Fail> {
    for line in table.lines() {
        let words = line.split(' ').collect::<Vec<&str>>(alloc)?;
        ends(alloc, rt, &words, PLAIN, 2, USAGE)?;
    }
    Ok(())
}

/// The words of each line of a table are answered with the line below it, and no input is read.
fn check_samples(alloc: Global, rt: &impl Abort, table: &str) -> Result<(), Fail> {
    let lines = table.lines().collect::<Vec<&str>>(alloc)?;
    for row in lines.chunks(2) {
        let [line, told] = row else {
            return Err("no row".into());
        };
        let words = line.split(' ').collect::<Vec<&str>>(alloc)?;
        let text = format!(in alloc; "{told}\n")?;
        ends(alloc, rt, &words, PLAIN, 0, text.as_str().as_bytes())?;
    }
    Ok(())
}

#[test]
fn words(rt: HostRuntime) -> Result<(), Fail> {
    let alloc = rt.alloc();
    ends(alloc, &rt, &[], PLAIN, 2, USAGE)?;
    wrong_words(alloc, &rt, tables::WRONG_WORDS)?;
    check_samples(alloc, &rt, tables::SAMPLES)?;
    ends(alloc, &rt, &["cra", "--version"], b"", 0, b"cra 0.1.0\n")?;
    let help = run_on(alloc, &["cra", "--help"], b"", GOOD)?;
    assert!(rt;
        help.text
            .as_slice()
            .starts_with(b"cra: a verified analyser of numeric C\n")
    );
    Ok(())
}

#[test]
fn lengths(rt: HostRuntime) -> Result<(), Fail> {
    let alloc = rt.alloc();
    let full = vec![in alloc; b' '; MOST_BYTES]?;
    check_refusal(alloc, &rt, &full, b"refused main at 1:1048577\n")?;
    let past = vec![in alloc; b' '; MOST_BYTES + 1]?;
    ends(alloc, &rt, &["cra", "analyse"], &past, 9, TOO_LONG)?;
    ends(
        alloc,
        &rt,
        &["cra", "replay"],
        &past,
        7,
        b"input is not JSON\n",
    )?;
    let past = vec![in alloc; b' '; MOST_INPUT + 1]?;
    ends(alloc, &rt, &["cra", "replay"], &past, 9, TOO_LONG)?;
    ends(alloc, &rt, &["cra", "edit"], &past, 9, TOO_LONG)?;
    let full = vec![in alloc; b' '; MOST_INPUT]?;
    ends(
        alloc,
        &rt,
        &["cra", "edit"],
        &full,
        7,
        b"input is not JSON\n",
    )
}

/// A run over pieces of one byte, where one read or one write fails, ends with a status and so many
/// bytes of the report.
fn cut_short(
    alloc: Global,
    rt: &impl Abort,
    outside: Outside,
    status: u8,
    taken: usize,
) -> Result<(), Fail> {
    let ended = run_on(alloc, &["cra", "analyse"], LOOP, outside)?;
    assert_eq!(rt; ended.status, status);
    assert_eq!(rt; Some(ended.text.as_slice()), LOOP_REPORT.get(..taken));
    Ok(())
}

/// A run over pieces of one byte in which one read fails.
fn read_fails(
    alloc: Global,
    rt: &impl Abort,
    read: u64,
    status: u8,
    taken: usize,
) -> Result<(), Fail> {
    let outside = Outside {
        failing_read: read,
        most: 1,
        ..GOOD
    };
    cut_short(alloc, rt, outside, status, taken)
}

/// A run over pieces of one byte in which one write fails.
fn write_fails(
    alloc: Global,
    rt: &impl Abort,
    write: u64,
    status: u8,
    taken: usize,
) -> Result<(), Fail> {
    let outside = Outside {
        failing_write: write,
        most: 1,
        ..GOOD
    };
    cut_short(alloc, rt, outside, status, taken)
}

// The read that comes to the end is one more than the bytes.
#[test]
fn each_call_fails_in_turn(rt: HostRuntime) -> Result<(), Fail> {
    let alloc = rt.alloc();
    let whole = LOOP_REPORT.len();
    for (_, read) in (0..=LOOP.len()).zip(0u64..) {
        read_fails(alloc, &rt, read, 4, 0)?;
    }
    for (taken, write) in (0..whole).zip(0u64..) {
        write_fails(alloc, &rt, write, 5, taken)?;
    }
    read_fails(alloc, &rt, LOOP.len() as u64 + 1, 0, whole)?;
    write_fails(alloc, &rt, whole as u64, 0, whole)
}
