//! Queries and their canonical texts, worked out by hand from the grammar and the rules in
//! `docs/query-language.md`.

/// A text, ` => `, and its canonical text, a row a line. A line without an arrow is a heading.
/// There are 180 rows.
pub(crate) const QUERIES: &str = r##"# numbers
10 => 10
007 => 7
.5 => 0.5
5. => 5
1.50 => 1.5
1e3 => 1000
1E-3 => 0.001
1e20 => 100000000000000000000
1e21 => 1e+21
1e-7 => 0.0000001
1e-8 => 1e-8
0e99999 => 0
1.5e1000 => 1.5e+1000
0.1e-999 => 1e-1000
12345678901234567890123456789012345678 => 1.2345678901234567890123456789012345678e+37
100000000000000000000000000000000000000 => 1e+38
# strings
"a" => "a"
'a' => "a"
'' => ""
'say "a"' => "say \"a\""
"it's" => "it's"
'it\'s' => "it's"
"it\'s" => "it's"
'\"' => "\""
'\\' => "\\"
'a\nb' => "a\nb"
'é # no comment' => "é # no comment"
# selectors
up => up
job:x:rate5m => job:x:rate5m
{} => {}
x{} => x{}
x { } => x{}
{a='1'} => {a="1"}
{a="1",} => {a="1"}
{a = "1", b != "2", c =~ "3", d !~ "4"} => {a="1",b!="2",c=~"3",d!~"4"}
{a="1" or b="2", OR c="3"} => {a="1" or b="2" or c="3"}
x{a="1", or b="2"} => x{a="1" or b="2"}
x{a="1", or="2"} => x{a="1",or="2"}
{or="1" or or="2"} => {or="1" or or="2"}
{By="1", with!="2"} => {By="1",with!="2"}
x{f, a="1", g} => x{f,a="1",g}
{f} => {f}
{__name__="up"} => {__name__="up"}
# windows and offsets
a[5m] => a[5m]
a [ 5m ] => a[5m]
a[1h30m] => a[90m]
a[5i] => a[5i]
a[1d2i] => a[1d2i]
a[2i1s3i] => a[1s5i]
a[1w] => a[7d]
a[1y] => a[365d]
a[24h] => a[1d]
a[60s] => a[1m]
a[90s] => a[90s]
a[1500ms] => a[1500ms]
a[1m1ms] => a[60001ms]
a[0s] => a[0s]
a[0i] => a[0s]
a[000000000000000000000000000001m] => a[1m]
a[281474976710655ms281474976710655i] => a[281474976710655ms281474976710655i]
a offset 5m => a offset 5m
a OFFSET - 5m => a offset -5m
a offset -1h3i => a offset -1h3i
a offset -0s => a offset 0s
a[5m] offset 1d => a[5m] offset 1d
# what a window stands on
(a)[5m] => a[5m]
(a[5m])[1h] => (a[5m])[1h]
(a[5m]) offset 1h => (a[5m]) offset 1h
(a + b)[5m] => (a + b)[5m]
a + b[5m] => a + b[5m]
-a[5m] => -a[5m]
(-a)[5m] => (-a)[5m]
x{}[5m] => x{}[5m]
f(a)[5m] offset 1m => f(a)[5m] offset 1m
5[5m] => 5[5m]
"x"[5m] => "x"[5m]
sum(a) by (x) keep_metric_names[5m] => sum(a) by (x) keep_metric_names[5m]
# calls
f() => f()
f(a) => f(a)
f(1, (2),) => f(1, 2)
Foo(Bar(a)) => Foo(Bar(a))
SUM(Rate(a[5m])) => sum(rate(a[5m]))
sum by (x) (a) => sum(a) by (x)
sum(a) BY(x, y,) => sum(a) by (x,y)
sum Without () (a) => sum(a) without ()
sum by (x) (a) without (y) => sum by (x) (a) without (y)
sum(a) by (by, OR) => sum(a) by (by,OR)
sum by (x) (sum(a) by (x, y)) => sum(sum(a) by (x,y)) by (x)
rate(a[5m]) Keep_Metric_Names => rate(a[5m]) keep_metric_names
sum by (x) (a) keep_metric_names => sum(a) by (x) keep_metric_names
topk(3, a default b) => topk(3, a default b)
f((a), -b, "c") => f(a, -b, "c")
# templates
with () a => WITH () a
with (x = 1) x => WITH (x = 1) x
With (x = 1,) x + 1 => WITH (x = 1) x + 1
with (f() = 1) f => WITH (f = 1) f
with (f(a, b) = a / b, y = 2) f(y, 3) => WITH (f(a,b) = a / b, y = 2) f(y, 3)
1 + with (x = 2) x => 1 + (WITH (x = 2) x)
(with (x = 2) x) + 1 => (WITH (x = 2) x) + 1
(with (x = a) x)[5m] => (WITH (x = a) x)[5m]
with (x = a) x[5m] => WITH (x = a) x[5m]
with (x = with (y = 1) y) x => WITH (x = (WITH (y = 1) y)) x
with (x = 1) with (y = 2) x + y => WITH (x = 1) (WITH (y = 2) x + y)
f(with (x = 1) x) => f((WITH (x = 1) x))
-with (x = 1) x * 2 => -(WITH (x = 1) x * 2)
with (x = {a="1"}) {x, b="2"} => WITH (x = {a="1"}) {x,b="2"}
a default with (x = 1) x default b => a default (WITH (x = 1) x default b)
# blanks and comments
a# => a
a+b*c => a + b * c
# reserved words in any case
a DEFAULT b => a default b
a If b IFNOT c => a if b ifnot c
a OR b => a or b
a And b => a and b
a Unless b => a unless b
a == Bool b => a == bool b
a + ON(x) GROUP_LEFT b => a + on(x) group_left() b
a + Ignoring(x) Group_Right(with) b => a + ignoring(x) group_right(with) b
a + on(on, With) b => a + on(on,With) b
defaults or ons and bools => defaults or ons and bools
# signs
- 1 => -1
(-1) => -1
+a => a
-+a => -a
+-a => -a
--a => -(-a)
-a * b => -a * b
-(a * b) => -(a * b)
(-a) * b => -a * b
a * -b => a * -b
a - -b => a - -b
a--b => a - -b
a + +b => a + b
-(a + b) => -(a + b)
-f(-a) => -f(-a)
-(-1) => -(-1)
# operators of one level
a default b default c => a default b default c
a default (b default c) => a default (b default c)
(a if b) ifnot c => a if b ifnot c
a if (b ifnot c) => a if (b ifnot c)
(a or b) or c => a or b or c
a or (b or c) => a or (b or c)
(a and b) unless c => a and b unless c
a unless (b and c) => a unless (b and c)
(a == b) < c => a == b < c
a >= (b != c) => a >= (b != c)
(a - b) - c => a - b - c
a - (b - c) => a - (b - c)
a + (b - c) => a + (b - c)
(a / b) * c % d => a / b * c % d
a / (b * c) => a / (b * c)
# operators of two levels
a default (b if c) => a default b if c
(a ifnot b) default c => a ifnot b default c
(a default b) if c => (a default b) if c
a if (b or c) => a if b or c
(a or b) ifnot c => a or b ifnot c
(a if b) or c => (a if b) or c
a or (b and c) => a or b and c
(a unless b) or c => a unless b or c
(a or b) and c => (a or b) and c
a and (b == c) => a and b == c
(a < b) unless c => a < b unless c
(a and b) >= c => (a and b) >= c
a > (b + c) => a > b + c
(a - b) != c => a - b != c
(a <= b) - c => (a <= b) - c
a + (b * c) => a + b * c
(a / b) - c => a / b - c
(a + b) % c => (a + b) % c
a * (b + c) => a * (b + c)
a default b if c or d and e == f + g * h => a default b if c or d and e == f + g * h
a * b + c == d and e or f if g default h => a * b + c == d and e or f if g default h
# modifiers as they are written
a + on(x) group_left b => a + on(x) group_left() b
a + on (x, y,) group_left (z,) b => a + on(x,y) group_left(z) b
a + on(x) group_left(y) (b) => a + on(x) group_left(y) b
a + on(x) group_left (y) +b => a + on(x) group_left(y) b
a + on(x) group_left -b => a + on(x) group_left() -b
a == bool ignoring(x) -b => a == bool ignoring(x) -b
a == on(x) (b + c) => a == on(x) b + c
a + on(x) b * ignoring(y) c => a + on(x) b * ignoring(y) c
a ==on(bool)b => a == on(bool) b"##;
