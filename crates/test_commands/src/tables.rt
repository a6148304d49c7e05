//! Tables of texts, each behind the line that it is answered with.

/// By the cut into tokens.
pub(crate) const REFUSED_BY_THE_CUT: &str = "\
refused comment at 1:18: int main(void){} /* x
refused literal at 1:25: int main(void) { return 9223372036854775808; }
refused byte at 1:18: int main(void) { @ }
refused literal at 1:26: int main(void) { int x = 01; }
refused literal at 1:26: int main(void) { int x = 1u; }
refused byte at 1:6: long @
refused comment at 1:8: x = 1; /*
";

/// By the grammar.
pub(crate) const REFUSED_BY_THE_GRAMMAR: &str = "\
refused unsupported at 1:23: int main(void) { int a[2]; }
refused syntax at 1:36: int main(void) { assert(0 <= 1); } ;
refused unsupported at 1:18: int main(void) { long x; }
refused unsupported at 1:18: int main(void) { goto a; }
refused syntax at 1:7: void f;
refused syntax at 1:13: int f(int); { }
refused unsupported at 1:20: int main(void) { x ? 1 : 2; }
refused syntax at 1:18: int main(void) { 1; }
refused syntax at 1:1: x = 1; int x; int x;
refused syntax at 1:24: int main(void) { if (1 }
";

/// By what names mean.
pub(crate) const REFUSED_BY_NAMES: &str = "\
refused unknown at 1:18: int main(void) { x = 1; }
refused unknown at 1:25: int main(void) { if (1) break; }
refused twice at 1:29: int main(void) { int x; int x; }
refused twice at 1:5: int exit(int x) { return x; } int main(void) { }
refused main at 1:26: int f(void) { return 1; }
refused unknown at 1:26: int main(void) { int x = y; int x; }
refused unknown at 1:31: int f(void); int main(void) { f(); }
refused unknown at 1:25: int main(void) { int f; f(1); }
refused unknown at 1:32: int main(void) { do { } while (x); }
refused twice at 1:13: int g; void g(void) { } int main(void) { }
";

/// By calls, prototypes and returns.
pub(crate) const REFUSED_BY_CALLS: &str = "\
refused place at 1:57: int f(int x) { return x; } int main(void) { return 1 && f(2); }
refused arity at 1:5: int f(void); int f(int x) { return x; } int main(void) { }
refused arity at 1:52: int f(int x) { return x; } int main(void) { return f(); }
refused arity at 1:5: int main(int x) { return x; }
refused arity at 1:16: void f(void) { return 1; } int main(void) { }
refused void at 1:42: void f(void) { } int main(void) { return f(); }
refused void at 1:26: int main(void) { int x = assert(1); }
refused place at 1:61: int f(void) { return 1; } int main(void) { return 0 || (1 + f()); }
refused arity at 1:18: int main(void) { main(); }
refused arity at 1:18: int main(void) { assert(1, 2); }
";

/// By counts that a short text passes.
pub(crate) const REFUSED_BY_COUNTS: &str = "\
refused many globals at 1:37: int a,b,c,d,e,f,g,h,i,j,k,l,m,n,o,p,q;
refused many slots at 1:70: int main(void) { int a,b,c,d,e,f,g,h,i,j,k,l,m,n,o,p,q,r,s,t,u,v,w,x,y; }
refused many parameters at 1:59: int f(int a,int b,int c,int d,int e,int f,int g,int h,int i) { return a; } int main(void) { }
refused many cases at 1:25: int main(void) { return (1<2)+(1<2)+(1<2)+(1<2)+(1<2)+(1<2)+(1<2)+(1<2)+(1<2); }
";

/// Certificate files that pass.
pub(crate) const CHECK_PASSED: &str = "\
check passed | {\"answers\":[],\"report\":\"procedure main\\ncase 1\\n  $ret = $1\\ntotal 0 proved, 0 unproved\\n\",\"text\":\"int main(void){}\"}
check passed | {\"answers\":[],\"order\":[],\"report\":\"procedure main\\ncase 1\\n  $ret = $1\\ntotal 0 proved, 0 unproved\\n\",\"text\":\"int main(void){}\",\"version\":2}
check passed | {\"answers\":[{\"point\":[\"0\",\"0\"]},{\"point\":[\"1\",\"0\"]}],\"order\":[0,0,0,0,1],\"report\":\"procedure main\\ncase 1\\n  $1 - $2 <= 0\\n  $ret = $3\\nassertion 1 at 4:3 unproved\\n  -$1 + $2 + 1 <= 0\\n  a = $1\\n  b = $2\\n  point $1 = 1, $2 = 0\\ntotal 0 proved, 1 unproved\\n\",\"text\":\"int main(void) {\\n  int a = __VERIFIER_nondet_int();\\n  int b = __VERIFIER_nondet_int();\\n  assert(a <= b);\\n}\\n\",\"version\":2}
check passed | {\"answers\":[{\"point\":[\"0\",\"0\"]},{\"point\":[\"0\",\"0\"]},{\"point\":[\"0\",\"0\"]},{\"point\":[\"0\",\"0\"]},{\"point\":[\"1\",\"0\"]}],\"report\":\"procedure main\\ncase 1\\n  $1 - $2 <= 0\\n  $ret = $3\\nassertion 1 at 4:3 unproved\\n  -$1 + $2 + 1 <= 0\\n  a = $1\\n  b = $2\\n  point $1 = 1, $2 = 0\\ntotal 0 proved, 1 unproved\\n\",\"text\":\"int main(void) {\\n  int a = __VERIFIER_nondet_int();\\n  int b = __VERIFIER_nondet_int();\\n  assert(a <= b);\\n}\\n\"}
";

/// Certificate files that do not pass.
pub(crate) const CHECK_FAILED: &str = "\
check failed: 1 answers left | {\"answers\":[{\"limit\":\"pivots\"}],\"report\":\"\",\"text\":\"int main(void){}\"}
check failed: report differs at byte 0 | {\"answers\":[],\"order\":[],\"report\":\"Procedure main\\ncase 1\\n  $ret = $1\\ntotal 0 proved, 0 unproved\\n\",\"text\":\"int main(void){}\",\"version\":2}
check failed: report differs at byte 22 | {\"answers\":[],\"order\":[],\"report\":\"procedure main\\ncase 1\\n\",\"text\":\"int main(void){}\",\"version\":2}
check failed: answer 5 | {\"answers\":[{\"point\":[\"0\",\"0\"]},{\"point\":[\"1\",\"0\"]}],\"order\":[0,0,0,0],\"report\":\"procedure main\\ncase 1\\n  $1 - $2 <= 0\\n  $ret = $3\\nassertion 1 at 4:3 unproved\\n  -$1 + $2 + 1 <= 0\\n  a = $1\\n  b = $2\\n  point $1 = 1, $2 = 0\\ntotal 0 proved, 1 unproved\\n\",\"text\":\"int main(void) {\\n  int a = __VERIFIER_nondet_int();\\n  int b = __VERIFIER_nondet_int();\\n  assert(a <= b);\\n}\\n\",\"version\":2}
check failed: 2 answers left | {\"answers\":[{\"point\":[\"0\",\"0\"]},{\"point\":[\"1\",\"0\"]}],\"order\":[0,0,0,0,1,1,0],\"report\":\"procedure main\\ncase 1\\n  $1 - $2 <= 0\\n  $ret = $3\\nassertion 1 at 4:3 unproved\\n  -$1 + $2 + 1 <= 0\\n  a = $1\\n  b = $2\\n  point $1 = 1, $2 = 0\\ntotal 0 proved, 1 unproved\\n\",\"text\":\"int main(void) {\\n  int a = __VERIFIER_nondet_int();\\n  int b = __VERIFIER_nondet_int();\\n  assert(a <= b);\\n}\\n\",\"version\":2}
check failed: answer 3 | {\"answers\":[{\"point\":[\"0\",\"0\"]},{\"point\":[\"1\",\"0\"]},{\"point\":[\"0\"]}],\"order\":[0,0,2,0,1],\"report\":\"procedure main\\ncase 1\\n  $1 - $2 <= 0\\n  $ret = $3\\nassertion 1 at 4:3 unproved\\n  -$1 + $2 + 1 <= 0\\n  a = $1\\n  b = $2\\n  point $1 = 1, $2 = 0\\ntotal 0 proved, 1 unproved\\n\",\"text\":\"int main(void) {\\n  int a = __VERIFIER_nondet_int();\\n  int b = __VERIFIER_nondet_int();\\n  assert(a <= b);\\n}\\n\",\"version\":2}
check failed: answer 2 | {\"answers\":[{\"point\":[\"0\",\"0\"]},{\"point\":[\"1\",\"0\"]}],\"order\":[0,0,0,0,1],\"report\":\"procedure main\\ncase 1\\n  $1 - $2 <= 0\\n  $ret = $3\\nassertion 1 at 4:3 unproved\\n  -$1 + $2 + 1 <= 0\\n  a = $1\\n  b = $2\\n  point $1 = 1, $2 = 0\\ntotal 0 proved, 1 unproved\\n\",\"text\":\"int main(void) {\\n  int a = __VERIFIER_nondet_int();\\n  int b = __VERIFIER_nondet_int();\\n  assert(a <= b);\\n}\\n\",\"version\":1}
";

/// Inputs that are no certificate files.
pub(crate) const CHECKED_WRONG: &str = "\
input has a wrong shape at /answers/0/point/0 | {\"answers\":[{\"point\":[\"2/4\"]}],\"report\":\"\",\"text\":\"\"}
input has a wrong shape at /text | {\"answers\":[],\"report\":\"\"}
version 3 is not known | {\"version\":3}
input has a wrong shape at /version | {\"version\":\"2\"}
input has a wrong shape at /order/0 | {\"answers\":[],\"order\":[0],\"report\":\"procedure main\\ncase 1\\n  $ret = $1\\ntotal 0 proved, 0 unproved\\n\",\"text\":\"int main(void){}\",\"version\":2}
input has a wrong shape at  | []
input is not JSON | {
";

/// Certificate files whose text is refused.
pub(crate) const CHECKED_TEXT_REFUSED: &str = "\
refused byte at 1:18 | {\"answers\":[],\"order\":[],\"report\":\"\",\"text\":\"int main(void) { @ }\",\"version\":2}
refused main at 1:1 | {\"answers\":[{\"limit\":\"pivots\"}],\"report\":\"\",\"text\":\"\"}
";

/// A certificate file of version 1 for a text with a loop, that an independent model of the rules
/// gives.
pub(crate) const LOOP_FILE: &str = "\
{\"answers\":[{\"point\":[\"0\"]},{\"point\":[\"1\",\"0\"]},{\"point\":[\"0\",\"0\"]},{\"point\":[\"0\",\"0\
\"]},{\"point\":[\"1\",\"0\"]},{\"basis\":{\"free\":[[\"-1\"]],\"relations\":[{\"a\":[\"1\"],\"b\":[],\"c\":\
\"1\",\"ties\":[{\"down\":[\"0\"],\"down_scale\":\"1\",\"up\":[\"0\"],\"up_scale\":\"1\"}]}],\"spots\":[{\"a\
t\":[\"1\",\"0\"],\"case\":0}]}},{\"unbounded\":{\"case\":0,\"point\":[\"1\",\"0\"],\"ray\":[\"1\",\"1\"]}},\
{\"unbounded\":{\"case\":0,\"point\":[\"1\",\"0\"],\"ray\":[\"-1\",\"-1\"]}},{\"unbounded\":{\"case\":0,\"po\
int\":[\"1\",\"0\"],\"ray\":[\"1\",\"1\"]}},{\"unbounded\":{\"case\":0,\"point\":[\"1\",\"0\"],\"ray\":[\"-1\
\",\"-1\"]}},{\"unbounded\":{\"case\":0,\"point\":[\"1\",\"0\",\"0\"],\"ray\":[\"0\",\"0\",\"1\"]}},{\"unbou\
nded\":{\"case\":0,\"point\":[\"1\",\"0\",\"0\"],\"ray\":[\"0\",\"0\",\"-1\"]}},{\"unbounded\":{\"case\":0,\
\"point\":[\"1\",\"0\"],\"ray\":[\"1\",\"0\"]}},{\"unbounded\":{\"case\":0,\"point\":[\"1\",\"0\",\"0\"],\"r\
ay\":[\"0\",\"0\",\"-1\"]}},{\"bound\":{\"at\":\"-1\",\"case\":0,\"certs\":[{\"by\":[\"1\"],\"scale\":\"1\",\
\"sum\":\"-1\"}],\"point\":[\"1\",\"0\"]}},{\"unbounded\":{\"case\":0,\"point\":[\"1\",\"0\",\"0\"],\"ray\":\
[\"0\",\"0\",\"-1\"]}},{\"unbounded\":{\"case\":0,\"point\":[\"1\",\"0\",\"0\"],\"ray\":[\"0\",\"0\",\"1\"]}\
},{\"unbounded\":{\"case\":0,\"point\":[\"1\",\"0\",\"0\"],\"ray\":[\"0\",\"0\",\"1\"]}},{\"unbounded\":{\"c\
ase\":0,\"point\":[\"1\",\"0\"],\"ray\":[\"1\",\"1\"]}},{\"unbounded\":{\"case\":0,\"point\":[\"1\",\"0\"],\
\"ray\":[\"-1\",\"-1\"]}},{\"unbounded\":{\"case\":0,\"point\":[\"1\",\"0\"],\"ray\":[\"1\",\"1\"]}},{\"unbo\
unded\":{\"case\":0,\"point\":[\"1\",\"0\"],\"ray\":[\"-1\",\"-1\"]}},{\"unbounded\":{\"case\":0,\"point\":[\
\"1\",\"0\",\"0\"],\"ray\":[\"0\",\"0\",\"1\"]}},{\"unbounded\":{\"case\":0,\"point\":[\"1\",\"0\",\"0\"],\"\
ray\":[\"0\",\"0\",\"-1\"]}},{\"unbounded\":{\"case\":0,\"point\":[\"1\",\"0\"],\"ray\":[\"1\",\"0\"]}},{\"u\
nbounded\":{\"case\":0,\"point\":[\"1\",\"0\",\"0\"],\"ray\":[\"0\",\"0\",\"-1\"]}},{\"bound\":{\"at\":\"0\"\
,\"case\":0,\"certs\":[{\"by\":[\"1\"],\"scale\":\"1\",\"sum\":\"0\"}],\"point\":[\"1\",\"0\"]}},{\"unbounde\
d\":{\"case\":0,\"point\":[\"1\",\"0\",\"0\"],\"ray\":[\"0\",\"0\",\"-1\"]}},{\"unbounded\":{\"case\":0,\"po\
int\":[\"1\",\"0\",\"0\"],\"ray\":[\"0\",\"0\",\"1\"]}},{\"unbounded\":{\"case\":0,\"point\":[\"1\",\"0\",\"\
0\"],\"ray\":[\"0\",\"0\",\"1\"]}},{\"bound\":{\"at\":\"0\",\"case\":0,\"certs\":[{\"by\":[\"0\"],\"scale\":\
\"1\",\"sum\":\"0\"}],\"point\":[\"1\",\"0\"]}},{\"bound\":{\"at\":\"0\",\"case\":0,\"certs\":[{\"by\":[\"0\
\"],\"scale\":\"1\",\"sum\":\"0\"}],\"point\":[\"1\",\"0\"]}},{\"bound\":{\"at\":\"1\",\"case\":0,\"certs\":\
[{\"by\":[\"0\"],\"scale\":\"1\",\"sum\":\"1\"}],\"point\":[\"1\",\"0\"]}},{\"bound\":{\"at\":\"-1\",\"case\
\":0,\"certs\":[{\"by\":[\"0\"],\"scale\":\"1\",\"sum\":\"-1\"}],\"point\":[\"1\",\"0\"]}},{\"bound\":{\"at\
\":\"0\",\"case\":0,\"certs\":[{\"by\":[\"0\"],\"scale\":\"1\",\"sum\":\"0\"}],\"point\":[\"1\",\"0\"]}},{\"\
bound\":{\"at\":\"0\",\"case\":0,\"certs\":[{\"by\":[\"0\"],\"scale\":\"1\",\"sum\":\"0\"}],\"point\":[\"1\"\
,\"0\"]}},{\"bound\":{\"at\":\"-1\",\"case\":0,\"certs\":[{\"by\":[\"0\"],\"scale\":\"1\",\"sum\":\"-1\"}],\
\"point\":[\"1\",\"0\"]}},{\"bound\":{\"at\":\"0\",\"case\":0,\"certs\":[{\"by\":[\"0\"],\"scale\":\"1\",\"s\
um\":\"0\"}],\"point\":[\"1\",\"0\"]}},{\"bound\":{\"at\":\"1\",\"case\":0,\"certs\":[{\"by\":[\"0\"],\"scal\
e\":\"1\",\"sum\":\"1\"}],\"point\":[\"1\",\"0\"]}},{\"bound\":{\"at\":\"1\",\"case\":0,\"certs\":[{\"by\":[\
\"0\"],\"scale\":\"1\",\"sum\":\"1\"}],\"point\":[\"1\",\"0\"]}},{\"bound\":{\"at\":\"0\",\"case\":0,\"certs\
\":[{\"by\":[\"0\"],\"scale\":\"1\",\"sum\":\"0\"}],\"point\":[\"1\",\"0\"]}},{\"bound\":{\"at\":\"-1\",\"ca\
se\":0,\"certs\":[{\"by\":[\"0\"],\"scale\":\"1\",\"sum\":\"-1\"}],\"point\":[\"1\",\"0\"]}},{\"point\":[\"1\
\",\"0\",\"2\"]},{\"infeasible\":[\"1\",\"1\",\"1\"]},{\"point\":[\"0\",\"0\",\"0\"]},{\"point\":[\"1\",\"0\
\",\"1\"]},{\"point\":[\"0\"]},{\"point\":[\"0\"]},{\"point\":[\"0\"]},{\"point\":[\"1\",\"1\"]},{\"point\":\
[\"1\"]},{\"point\":[\"2\",\"1\"]},{\"point\":[\"1\"]},{\"point\":[\"2\",\"1\"]},{\"point\":[\"1\"]},{\"poin\
t\":[\"2\",\"1\"]},{\"point\":[\"1\"]},{\"point\":[\"1\"]},{\"point\":[\"1\"]},{\"point\":[\"1\"]},{\"point\
\":[\"1\"]}],\"report\":\"procedure main\\ncase 1\\n  $ret = $1\\ncase 2\\n  -$1 + 1 <= 0\\n  $ret = $2\\nas\
sertion 1 at 6:3 proved\\ntotal 1 proved, 0 unproved\\n\",\"text\":\"int main(void) {\\n  int n = __VERIFIER\
_nondet_int();\\n  int i = 0;\\n  assume(n >= 0);\\n  while (i < n) i++;\\n  assert(i == n);\\n}\\n\"}";

/// Changes of that file: the status and the line that `check` answers with, what is changed, and
/// into what.
pub(crate) const CHANGES: &str = "\
0 check passed | x | x
8 check failed: answer 44 | \"infeasible\":[\"1\" | \"infeasible\":[\"-1\"
8 check failed: answer 1 | {\"point\":[\"0\"]} | {\"point\":[]}
8 check failed: answer 7 | {\"unbounded\":{\"case\":0 | {\"unbounded\":{\"case\":1
8 check failed: answer 15 | \"scale\":\"1\" | \"scale\":\"0\"
8 check failed: answer 44 | {\"infeasible\":[\"1\",\"1\",\"1\"]} | {\"limit\":{\"left\":\"1\",\"right\":\"1\",\"times\":true}}
8 check failed: 1 answers left | {\"point\":[\"1\"]}],\"report\" | {\"point\":[\"1\"]},{\"point\":[\"1\"]}],\"report\"
8 check failed: answer 61 | ,{\"point\":[\"1\"]}],\"report\" | ],\"report\"
3 refused syntax at 5:17 | while | whale
";

/// The file of version 2 for the same text, that the model gives.
pub(crate) const SHARED_LOOP_FILE: &str = "\
{\"answers\":[{\"point\":[\"0\"]},{\"point\":[\"1\",\"0\"]},{\"point\":[\"0\",\"0\"]},{\"basis\":{\
\"free\":[[\"-1\"]],\"relations\":[{\"a\":[\"1\"],\"b\":[],\"c\":\"1\",\"ties\":[{\"down\":[\"0\"]\
,\"down_scale\":\"1\",\"up\":[\"0\"],\"up_scale\":\"1\"}]}],\"spots\":[{\"at\":[\"1\",\"0\"],\"cas\
e\":0}]}},{\"unbounded\":{\"case\":0,\"point\":[\"1\",\"0\"],\"ray\":[\"1\",\"1\"]}},{\"unbounded\
\":{\"case\":0,\"point\":[\"1\",\"0\"],\"ray\":[\"-1\",\"-1\"]}},{\"unbounded\":{\"case\":0,\"poin\
t\":[\"1\",\"0\",\"0\"],\"ray\":[\"0\",\"0\",\"1\"]}},{\"unbounded\":{\"case\":0,\"point\":[\"1\",\
\"0\",\"0\"],\"ray\":[\"0\",\"0\",\"-1\"]}},{\"unbounded\":{\"case\":0,\"point\":[\"1\",\"0\"],\"r\
ay\":[\"1\",\"0\"]}},{\"bound\":{\"at\":\"-1\",\"case\":0,\"certs\":[{\"by\":[\"1\"],\"scale\":\"1\
\",\"sum\":\"-1\"}],\"point\":[\"1\",\"0\"]}},{\"bound\":{\"at\":\"0\",\"case\":0,\"certs\":[{\"by\
\":[\"1\"],\"scale\":\"1\",\"sum\":\"0\"}],\"point\":[\"1\",\"0\"]}},{\"bound\":{\"at\":\"0\",\"ca\
se\":0,\"certs\":[{\"by\":[\"0\"],\"scale\":\"1\",\"sum\":\"0\"}],\"point\":[\"1\",\"0\"]}},{\"bou\
nd\":{\"at\":\"1\",\"case\":0,\"certs\":[{\"by\":[\"0\"],\"scale\":\"1\",\"sum\":\"1\"}],\"point\"\
:[\"1\",\"0\"]}},{\"bound\":{\"at\":\"-1\",\"case\":0,\"certs\":[{\"by\":[\"0\"],\"scale\":\"1\",\
\"sum\":\"-1\"}],\"point\":[\"1\",\"0\"]}},{\"point\":[\"1\",\"0\",\"2\"]},{\"infeasible\":[\"1\",\
\"1\",\"1\"]},{\"point\":[\"0\",\"0\",\"0\"]},{\"point\":[\"1\",\"0\",\"1\"]},{\"point\":[\"1\",\"\
1\"]},{\"point\":[\"1\"]},{\"point\":[\"2\",\"1\"]}],\"order\":[0,1,2,2,1,3,4,5,4,5,6,7,8,7,9,7,6,\
6,4,5,4,5,6,7,8,7,10,7,6,6,11,11,12,13,11,11,13,11,12,12,11,13,14,15,16,17,0,0,0,18,19,20,19,20,19\
,20,19,19,19,19,19],\"report\":\"procedure main\\ncase 1\\n  $ret = $1\\ncase 2\\n  -$1 + 1 <= 0\\\
n  $ret = $2\\nassertion 1 at 6:3 proved\\ntotal 1 proved, 0 unproved\\n\",\"text\":\"int main(voi\
d) {\\n  int n = __VERIFIER_nondet_int();\\n  int i = 0;\\n  assume(n >= 0);\\n  while (i < n) i++\
;\\n  assert(i == n);\\n}\\n\",\"version\":2}";

/// Changes of that file.
pub(crate) const SHARED_CHANGES: &str = "\
0 check passed | x | x
8 check failed: answer 44 | \"infeasible\":[\"1\" | \"infeasible\":[\"-1\"
8 check failed: answer 1 | {\"point\":[\"0\"]} | {\"point\":[]}
8 check failed: answer 7 | {\"unbounded\":{\"case\":0 | {\"unbounded\":{\"case\":1
8 check failed: answer 15 | \"scale\":\"1\" | \"scale\":\"0\"
8 check failed: answer 44 | {\"infeasible\":[\"1\",\"1\",\"1\"]} | {\"limit\":{\"left\":\"1\",\"right\":\"1\",\"times\":true}}
8 check failed: 1 answers left | 19,19,19] | 19,19,19,19]
8 check failed: answer 61 | 19,19,19] | 19,19]
3 refused syntax at 5:17 | while | whale
0 check passed | ,{\"point\":[\"2\",\"1\"]}] | ,{\"point\":[\"2\",\"1\"]},{\"point\":[\"7\"]}]
7 input has a wrong shape at /order/51 | ,{\"point\":[\"2\",\"1\"]}] | ]
7 input has a wrong shape at /order/60 | 19,19,19] | 19,19,21]
7 input has a wrong shape at /order/60 | 19,19,19] | 19,19,\"19\"]
8 check failed: answer 4 | \"version\":2 | \"version\":1
";

/// Edit scripts, each behind its status and before what it is answered with, in which `~` ends a line.
/// An independent model of the rules gives what comes.
pub(crate) const EDITS: &str = "\
1 | {\"text\":\"int add(int x) { return x + 1; }\\nint two(void) { return 2; }\\nint main(void) { int y = add(3); assert(y == 4); }\\n\",\"edits\":[{\"at\":28,\"remove\":1,\"insert\":\"2\"}]} | version 0 work 3 of 3 proved 1 unproved 0~version 1 work 2 of 3 proved 0 unproved 1~procedure add~case 1~  $ret = x + 2~procedure two~case 1~  $ret = 2~procedure main~none~assertion 1 at 3:34 unproved~  y = 5~  point none~total 0 proved, 1 unproved
0 | {\"text\":\"int main(void){}\",\"edits\":[{\"at\":15,\"remove\":1,\"insert\":\"\"},{\"at\":15,\"remove\":0,\"insert\":\"}\"}]} | version 0 work 1 of 1 proved 0 unproved 0~version 1 refused syntax at 1:16~version 2 work 0 of 1 proved 0 unproved 0~procedure main~case 1~  $ret = $1~total 0 proved, 0 unproved
3 | {\"text\":\"int main(void){}\",\"edits\":[{\"at\":15,\"remove\":1,\"insert\":\"\"}]} | version 0 work 1 of 1 proved 0 unproved 0~version 1 refused syntax at 1:16
7 | {\"text\":1} | input has a wrong shape at /text
7 | {\"text\":\"\",\"edits\":[{\"at\":1,\"remove\":0,\"insert\":\"x\"}]} | edit 1 is out of range
7 | { | input is not JSON
7 | [] | input has a wrong shape at 
7 | {\"text\":\"int main(void){}\"} | input has a wrong shape at /edits
7 | {\"text\":\"int main(void){}\",\"edits\":{}} | input has a wrong shape at /edits
0 | {\"text\":\"int main(void){}\",\"edits\":[]} | version 0 work 1 of 1 proved 0 unproved 0~procedure main~case 1~  $ret = $1~total 0 proved, 0 unproved
3 | {\"edits\":[{\"at\":9,\"remove\":1,\"insert\":\"x\"}],\"text\":\"int main(void){}\",\"more\":1} | version 0 work 1 of 1 proved 0 unproved 0~version 1 refused syntax at 1:10
7 | {\"text\":\"int main(void){}\",\"edits\":[{\"at\":-1,\"remove\":0,\"insert\":\"\"}]} | input has a wrong shape at /edits/0/at
7 | {\"text\":\"int main(void){}\",\"edits\":[{\"at\":0,\"remove\":4294967296,\"insert\":\"\"}]} | input has a wrong shape at /edits/0/remove
7 | {\"text\":\"int main(void){}\",\"edits\":[{\"at\":0,\"insert\":\"\"}]} | input has a wrong shape at /edits/0/remove
7 | {\"text\":\"int main(void){}\",\"edits\":[{\"at\":0,\"remove\":0,\"insert\":\"x\"},{\"at\":0,\"remove\":1,\"insert\":1}]} | input has a wrong shape at /edits/1/insert
7 | {\"text\":\"@\",\"edits\":[{\"at\":4294967295,\"remove\":4294967295,\"insert\":\"\"}]} | edit 1 is out of range
7 | {\"text\":\"/* \\u00e9 */int main(void){}\",\"edits\":[{\"at\":3,\"remove\":0,\"insert\":\"x\"},{\"at\":5,\"remove\":0,\"insert\":\"x\"}]} | edit 2 is out of range
0 | {\"text\":\"/* \\u00e9 */int main(void){}\",\"edits\":[{\"at\":3,\"remove\":2,\"insert\":\"x\"},{\"at\":3,\"remove\":1,\"insert\":\"\\u20ac\"}]} | version 0 work 1 of 1 proved 0 unproved 0~version 1 work 0 of 1 proved 0 unproved 0~version 2 work 0 of 1 proved 0 unproved 0~procedure main~case 1~  $ret = $1~total 0 proved, 0 unproved
3 | {\"text\":\"@\",\"edits\":[{\"at\":0,\"remove\":1,\"insert\":\"int main(void) { assert(1); }\"},{\"at\":16,\"remove\":0,\"insert\":\"@\"}]} | version 0 refused byte at 1:1~version 1 work 1 of 1 proved 1 unproved 0~version 2 refused byte at 1:17
0 | {\"text\":\"int add(int x) { return x + 1; }\\nint two(void) { return 2; }\\nint main(void) { int y = add(3); assert(y == 4); }\\n\",\"edits\":[{\"at\":0,\"remove\":0,\"insert\":\"/* first */\\n\"},{\"at\":12,\"remove\":33,\"insert\":\"\"},{\"at\":12,\"remove\":0,\"insert\":\"int add(int z) { return z + 1; }\\n\"},{\"at\":0,\"remove\":12,\"insert\":\"int g = 1;\\n\"},{\"at\":8,\"remove\":1,\"insert\":\"2\"}]} | version 0 work 3 of 3 proved 1 unproved 0~version 1 work 0 of 3 proved 1 unproved 0~version 2 refused unknown at 3:26~version 3 work 0 of 3 proved 1 unproved 0~version 4 work 3 of 3 proved 1 unproved 0~version 5 work 0 of 3 proved 1 unproved 0~procedure add~case 1~  g' = g~  $ret = z + 1~procedure two~case 1~  g' = g~  $ret = 2~procedure main~case 1~  g' = g~  $ret = $1~assertion 1 at 4:34 proved~total 1 proved, 0 unproved
0 | {\"text\":\"int add(int x) { return x + 1; }\\nint two(void) { return 2; }\\nint main(void) { int y = add(3); assert(y == 4); }\\n\",\"edits\":[{\"at\":24,\"remove\":5,\"insert\":\"1 + x\"},{\"at\":24,\"remove\":5,\"insert\":\"x - 1\"},{\"at\":24,\"remove\":5,\"insert\":\"x + 1\"}]} | version 0 work 3 of 3 proved 1 unproved 0~version 1 work 1 of 3 proved 1 unproved 0~version 2 work 2 of 3 proved 0 unproved 1~version 3 work 2 of 3 proved 1 unproved 0~procedure add~case 1~  $ret = x + 1~procedure two~case 1~  $ret = 2~procedure main~case 1~  $ret = $1~assertion 1 at 3:34 proved~total 1 proved, 0 unproved
";

/// Words that ask for nothing.
pub(crate) const WRONG_WORDS: &str = "\
cra
cra analyze
cra analyse again
cra analyse --
cra analyse --help
cra edit again
cra edit --
cra edit --help
cra replay --help
cra facets again
cra facets --help
cra --help replay
cra help
cra -h
cra -V
cra sample
cra sample 0
cra sample 03
cra sample 251
cra sample 1000
cra sample +3
cra sample -3
cra sample 3 3
cra sample -- -- 3
cra -- sample 3
cra cost
cra cost 1x
cra cost -x
cra cost a-b
cra cost g h
cra cost g --
cra cost --help
cra cost -- -- g
cra -- cost g
analyse cra
";

/// Words with what they are answered with: counts of made texts.
pub(crate) const SAMPLES: &str = "\
cra sample 3
sample 3: 292 bytes, 4 groups, 3 proved, 0 unproved
cra sample -- 3
sample 3: 292 bytes, 4 groups, 3 proved, 0 unproved
";
