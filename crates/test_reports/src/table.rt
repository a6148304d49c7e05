//! Reports of worked texts, beside their parts.

/// How many reports there are.
pub(crate) const COUNT: usize = 28;

/// The parts of a report and its text. A procedure has its name, the names before and after it, the
/// number of its exit columns and its notes, and then its cases; an assertion its place, the names
/// and numbers of its columns, and its case and the numbers of its point, or that it is proved;
/// rows at a point where they hold, the name of the procedure, the names of the columns, and those
/// of the globals that are left, and then the rows; that the search for rows was cut.
pub(crate) const TABLE: &str = "\
> procedure main ;  ;  ; 1 ; 
1 ; $1
> assertion 4 3 @ x y @ 0 1 @ proved
> report
procedure main
case 1
  $ret = $1
assertion 1 at 4:3 proved
total 1 proved, 0 unproved

> procedure main ;  ;  ; 1 ; 
3 | $1 - $2 <= 0 ; $3
> assertion 4 3 @ a b @ 0 1 @ 2 | -$1 + $2 + 1 <= 0 ; $1 ; $2 @ 1,0
> report
procedure main
case 1
  $1 - $2 <= 0
  $ret = $3
assertion 1 at 4:3 unproved
  -$1 + $2 + 1 <= 0
  a = $1
  b = $2
  point $1 = 1, $2 = 0
total 0 proved, 1 unproved

> procedure main ;  ;  ; 1 ; 
> assertion 3 3 @ x @ 0 @ 0 ; 1 @ 
> report
procedure main
none
assertion 1 at 3:3 unproved
  x = 1
  point none
total 0 proved, 1 unproved

> procedure main ;  ;  ; 1 ; 
1 ; $1
> report
procedure main
case 1
  $ret = $1
total 0 proved, 0 unproved

> procedure main ;  ;  ; 1 ; 
3 | $1 + $2 <= 0 | -$1 + 1 <= 0 | $2 <= 0 ; $3
> assertion 7 3 @ x y @ 0 1 @ proved
> report
procedure main
case 1
  $1 + $2 <= 0
  -$1 + 1 <= 0
  $2 <= 0
  $ret = $3
assertion 1 at 7:3 proved
total 1 proved, 0 unproved

> procedure main ;  ;  ; 1 ; 
1 ; $1
2 | -$1 + 1 <= 0 ; $2
> assertion 6 3 @ n i @ 0 1 @ proved
> report
procedure main
case 1
  $ret = $1
case 2
  -$1 + 1 <= 0
  $ret = $2
assertion 1 at 6:3 proved
total 1 proved, 0 unproved

> procedure main ;  ;  ; 1 ; 
1 ; $1
2 | -$1 + 1 <= 0 ; $2
> assertion 5 3 @ n i @ 0 1 @ 1 | $1 + 1 <= 0 ; $1 ; 0 @ -1
> report
procedure main
case 1
  $ret = $1
case 2
  -$1 + 1 <= 0
  $ret = $2
assertion 1 at 5:3 unproved
  $1 + 1 <= 0
  n = $1
  i = 0
  point $1 = -1
total 0 proved, 1 unproved

> procedure main ;  ;  ; 1 ; 
> assertion 2 3 @  @  @ 0 @ 
> report
procedure main
none
assertion 1 at 2:3 unproved
  point none
total 0 proved, 1 unproved

> procedure main ;  ;  ; 1 ; 
1 ; $1
3 | -$2 + 1 <= 0 | $2*$2 - 2*$1 - $2 = 0 ; $3
> assertion 10 3 @ n i s @ 0 1 2 @ proved
> report
procedure main
case 1
  $ret = $1
case 2
  -$2 + 1 <= 0
  $2*$2 - 2*$1 - $2 = 0
  $ret = $3
assertion 1 at 10:3 proved
total 1 proved, 0 unproved

> procedure main ;  ;  ; 1 ; 
5 | $1 - $2 <= 0 | $2 - $3 <= 0 | $3 - $4 <= 0 | $1 - $4 <= 0 ; $5
> assertion 9 3 @ a b c d @ 0 1 2 3 @ proved
> report
procedure main
case 1
  $1 - $2 <= 0
  $2 - $3 <= 0
  $3 - $4 <= 0
  $1 - $4 <= 0
  $ret = $5
assertion 1 at 9:3 proved
total 1 proved, 0 unproved

> procedure main ;  ;  ; 1 ; 
1 ; $1
2 | -$1 + 1 <= 0 ; $2
> assertion 4 3 @ i @ 0 @ proved
> assertion 5 3 @ i @ 0 @ 1 | -$1 + 1 <= 0 ; $1 @ 1
> report
procedure main
case 1
  $ret = $1
case 2
  -$1 + 1 <= 0
  $ret = $2
assertion 1 at 4:3 proved
assertion 2 at 5:3 unproved
  -$1 + 1 <= 0
  i = $1
  point $1 = 1
total 1 proved, 1 unproved

> procedure main ;  ;  ; 1 ; squash 32
2 | $1 - 5 <= 0 | -$1 <= 0 ; $2
> assertion 9 3 @ t x @ 0 1 @ proved
> report
procedure main
case 1
  $1 - 5 <= 0
  -$1 <= 0
  $ret = $2
note squash 32 cases
assertion 1 at 9:3 proved
total 1 proved, 0 unproved

> procedure main ;  ;  ; 1 ; 
2 | $1 <= 0 ; $2
2 | -$1 + 1 <= 0 ; $2
> assertion 3 3 @ x @ 0 @ proved
> report
procedure main
case 1
  $1 <= 0
  $ret = $2
case 2
  -$1 + 1 <= 0
  $ret = $2
assertion 1 at 3:3 proved
total 1 proved, 0 unproved

> procedure main ;  ;  ; 1 ; 
1 ; $1
4 | -$3 + 1 <= 0 | $3*$3 - 2*$1 - $3 = 0 | $3*$3*$3 - 3*$3*$3 - 6*$2 + 2*$3 = 0 ; $4
> assertion 12 3 @ n i s t @ 0 1 2 3 @ proved
> report
procedure main
case 1
  $ret = $1
case 2
  -$3 + 1 <= 0
  $3*$3 - 2*$1 - $3 = 0
  $3*$3*$3 - 3*$3*$3 - 6*$2 + 2*$3 = 0
  $ret = $4
assertion 1 at 12:3 proved
total 1 proved, 0 unproved

> procedure main ;  ;  ; 1 ; 
1 ; $1
> assertion 2 3 @  @  @ proved
> report
procedure main
case 1
  $ret = $1
assertion 1 at 2:3 proved
total 1 proved, 0 unproved

> procedure up ; g ; g ; 1 ; 
0 ; x0 + 1
> procedure main ; g ; g ; 2 ; 
1 | x0 = 0 ; x0 + 2 ; $1
> assertion 3 30 @ g @ 0 @ proved
> report
procedure up
case 1
  g' = g + 1
procedure main
case 1
  g = 0
  g' = g + 2
  $ret = $1
assertion 1 at 3:30 proved
total 1 proved, 0 unproved

> procedure sum ; n ;  ; 1 ; 
0 | x0 <= 0 ; 0
1 | x0*x0 + x0 - 2*$1 = 0 | -x0 + 1 <= 0 | x0 - $1 <= 0 ; $1
> procedure main ;  ;  ; 1 ; 
1 ; $1
3 | -$1 + 1 <= 0 | $1*$1 + $1 - 2*$2 = 0 | $1 - $2 <= 0 ; $3
> assertion 5 3 @ m @ 0 @ proved
> report
procedure sum
case 1
  n <= 0
  $ret = 0
case 2
  n*n + n - 2*$1 = 0
  -n + 1 <= 0
  n - $1 <= 0
  $ret = $1
procedure main
case 1
  $ret = $1
case 2
  -$1 + 1 <= 0
  $1*$1 + $1 - 2*$2 = 0
  $1 - $2 <= 0
  $ret = $3
assertion 1 at 5:3 proved
total 1 proved, 0 unproved

> procedure f ; g n ; g ; 1 ; 
0 | x0 - 2 <= 0 | x1 <= 0 ; x0
0 | -x1 + 1 <= 0 | x0 + x1 - 2 <= 0 ; x0
> procedure main ; g ; g ; 2 ; 
1 | x0 + 1 <= 0 ; x0 ; $1
> assertion 2 17 @ g n @ 0 1 @ 0 ; 3 ; 0 @ 
> report
procedure f
case 1
  g - 2 <= 0
  n <= 0
  g' = g
case 2
  -n + 1 <= 0
  g + n - 2 <= 0
  g' = g
procedure main
case 1
  g + 1 <= 0
  g' = g
  $ret = $1
assertion 1 at 2:17 unproved
  g = 3
  n = 0
  point none
total 0 proved, 1 unproved

> procedure add ; x ;  ; 1 ; 
0 ; x0 + 2
> procedure two ;  ;  ; 1 ; 
0 ; 2
> procedure main ;  ;  ; 1 ; 
> assertion 3 34 @ y @ 0 @ 0 ; 5 @ 
> report
procedure add
case 1
  $ret = x + 2
procedure two
case 1
  $ret = 2
procedure main
none
assertion 1 at 3:34 unproved
  y = 5
  point none
total 0 proved, 1 unproved

> procedure main ;  ;  ; 1 ; 
0 ; 0
1 | -$1 + 1 <= 0 ; 0
> assertion 9 3 @ x @ 0 @ proved
> report
procedure main
case 1
  $ret = 0
case 2
  -$1 + 1 <= 0
  $ret = 0
assertion 1 at 9:3 proved
total 1 proved, 0 unproved

> procedure main ;  ;  ; 1 ; 
1 ; $1
4 | -$3 + 1 <= 0 | $2 - $3 + 1 <= 0 | -$3*$3 + 2*$1 + $3 <= 0 ; $4
> assertion 12 3 @ n i s d @ 0 1 2 3 @ proved
> report
procedure main
case 1
  $ret = $1
case 2
  -$3 + 1 <= 0
  $2 - $3 + 1 <= 0
  -$3*$3 + 2*$1 + $3 <= 0
  $ret = $4
assertion 1 at 12:3 proved
total 1 proved, 0 unproved

> procedure main ;  ;  ; 1 ; 
0 ; 9223372036854775807
> report
procedure main
case 1
  $ret = 9223372036854775807
total 0 proved, 0 unproved

> procedure main ;  ;  ; 1 ; wide 147808829414345923316083210206383297601 3
2 | $1 - 4 <= 0 ; $2
2 | -$1 + 6 <= 0 ; $2
> assertion 84 3 @ x @ 0 @ 0 ; 5 @ 
> report
procedure main
case 1
  $1 - 4 <= 0
  $ret = $2
case 2
  -$1 + 6 <= 0
  $ret = $2
note wide 147808829414345923316083210206383297601 * 3
assertion 1 at 84:3 unproved
  x = 5
  point none
total 0 proved, 1 unproved

> procedure main ;  ;  ; 1 ; squash 32 , squash 32
2 | -$1 <= 0 ; $2
> assertion 8 3 @ x @ 0 @ proved
> report
procedure main
case 1
  -$1 <= 0
  $ret = $2
note squash 32 cases
note squash 32 cases
assertion 1 at 8:3 proved
total 1 proved, 0 unproved

> procedure reach_error ;  ;  ; 0 ; 
> procedure main ;  ;  ; 1 ; 
0 ; 0
> assertion 1 26 @  @  @ proved
> report
procedure reach_error
none
procedure main
case 1
  $ret = 0
assertion 1 at 1:26 proved
total 1 proved, 0 unproved

> procedure main ;  ;  ; 1 ; 
2 | $1 <= 0 ; $2
4 | -$3 + 1 <= 0 | -$2 <= 0 | $1 - $2 - $3 <= 0 | -$1 + 2*$2 <= 0 ; $4
> assertion 17 3 @ n i x y c z @ 0 1 2 3 4 5 @ proved
> report
procedure main
case 1
  $1 <= 0
  $ret = $2
case 2
  -$3 + 1 <= 0
  -$2 <= 0
  $1 - $2 - $3 <= 0
  -$1 + 2*$2 <= 0
  $ret = $4
assertion 1 at 17:3 proved
total 1 proved, 0 unproved

> procedure grow ; inner tips k ; inner tips ; 2 ; 
0 | x2 <= 0 ; x0 ; x1 + 1
4 | -x2 + 1 <= 0 | x0 - $1 + 1 <= 0 | x1 - $2 + 1 <= 0 | $1 - $3 <= 0 | $2 - $4 + 1 <= 0 ; $3 ; $4
> rows entry grow ; inner tips k ; 
-x0 + x1 <= 0
> rows return grow ; inner tips k ; inner tips
-x3 + x4 - 1 <= 0
-x3 <= 0
-x4 + 1 <= 0
x0 - x1 - x3 + x4 - 1 = 0
> assertion 3 60 @ inner tips k @ 0 1 2 @ proved
> report
procedure grow
case 1
  k <= 0
  inner' = inner
  tips' = tips + 1
case 2
  -k + 1 <= 0
  inner - $1 + 1 <= 0
  tips - $2 + 1 <= 0
  $1 - $3 <= 0
  $2 - $4 + 1 <= 0
  inner' = $3
  tips' = $4
reached grow
  -inner + tips <= 0
returned grow
  -inner' + tips' - 1 <= 0
  -inner' <= 0
  -tips' + 1 <= 0
  inner - tips - inner' + tips' - 1 = 0
assertion 1 at 3:60 proved
total 1 proved, 0 unproved

> procedure two ; b ;  ; 1 ; 
1 ; $1
> procedure main ;  ;  ; 1 ; 
2 | -$1 <= 0 | $1 - 3 <= 0 ; $2
> rows 1 two ; b k s ; 
-x2 <= 0
x2 - 4 <= 0
x0 - x2 - 4 <= 0
x1 - x2 - 6 <= 0
-x0 + x2 <= 0
-x1 + x2 - 3 <= 0
> rows return two ; b ; 
-x1 <= 0
x1 - 4 <= 0
> search cut
> assertion 2 34 @ r @ 0 @ proved
> assertion 2 50 @ r @ 0 @ 1 | -$1 + 4 <= 0 ; $1 @ 4
> report
procedure two
case 1
  $ret = $1
procedure main
case 1
  -$1 <= 0
  $1 - 3 <= 0
  $ret = $2
note search beyond
reached two loop 1
  -s <= 0
  s - 4 <= 0
  b - s - 4 <= 0
  k - s - 6 <= 0
  -b + s <= 0
  -k + s - 3 <= 0
returned two
  -$ret <= 0
  $ret - 4 <= 0
assertion 1 at 2:34 proved
assertion 2 at 2:50 unproved
  -$1 + 4 <= 0
  r = $1
  point $1 = 4
total 1 proved, 1 unproved";
