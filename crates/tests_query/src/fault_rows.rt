//! Texts that are no query, and what is wrong with queries, worked out by hand from the grammar and
//! the rules in `docs/query-language.md`.

/// A text that is no query, ` => `, its fault and the fault's place, a row a line. A line without
/// an arrow is a heading. There are 146 rows.
pub(crate) const FAULTS: &str = r##"# texts that end too early
  # only a comment => unexpected 18
a + => unexpected 3
- => unexpected 1
( => unexpected 1
sum( => unexpected 4
sum(a => unexpected 5
sum(a, => unexpected 6
sum by => unexpected 6
sum(a) by (x => unexpected 12
a[ => unexpected 2
a[5m => unexpected 4
a offset => unexpected 8
a offset - => unexpected 10
a == bool => unexpected 9
a + on(x) => unexpected 9
a + on(x) group_left (b) => unexpected 24
{ => unexpected 1
{a="1" or => unexpected 9
with => unexpected 4
with (x = 1 => unexpected 11
with (x = 1) => unexpected 12
# tokens where an expression is wanted
) => unexpected 0
() => unexpected 1
* a => unexpected 0
a + * b => unexpected 4
a + ) => unexpected 4
a == == b => unexpected 5
by => unexpected 0
sum(by) => unexpected 4
OR => unexpected 0
a or or b => unexpected 5
5m => unexpected 0
] => unexpected 0
f(,) => unexpected 2
f(a,,b) => unexpected 4
a + bool b => unexpected 4
a or bool b => unexpected 5
a + group_left(x) b => unexpected 4
a + default => unexpected 4
= => unexpected 0
a + keep_metric_names => unexpected 4
# tokens behind an expression
a b => unexpected 2
1 2 => unexpected 2
a 'b' => unexpected 2
a) => unexpected 1
(a)) => unexpected 3
a,b => unexpected 1
a = b => unexpected 2
a =~ b => unexpected 2
a bool b => unexpected 2
a on(x) b => unexpected 2
1 by (x) => unexpected 2
a by (x) => unexpected 8
1(a) => unexpected 1
(a)(b) => unexpected 3
f(a)(b) => unexpected 4
'a'{} => unexpected 3
{}x => unexpected 2
x{}{} => unexpected 3
x{}(a) => unexpected 3
a with () b => unexpected 2
(a, b) => unexpected 2
f(a b) => unexpected 4
a keep_metric_names => unexpected 2
a 1e1001 => unexpected 2
a 99999999999y => unexpected 2
# windows and offsets
a[] => unexpected 2
a[5] => unexpected 2
a[x] => unexpected 2
a[-5m] => unexpected 2
a[5m 1s] => unexpected 5
a[5m]] => unexpected 5
a[5m][1m] => unexpected 5
a[5m:1m] => unexpected 4
a offset 5 => unexpected 9
a offset x => unexpected 9
a offset + 5m => unexpected 9
a offset - -5m => unexpected 11
a offset 5m offset 1m => unexpected 12
a offset 1d[5m] => unexpected 11
with (x = 1) x[5m][5m] => unexpected 18
a[1e1001] => unexpected 2
# calls and modifiers
sum by x (a) => unexpected 7
sum by (x) a => unexpected 11
sum by (x) by (y) (a) => unexpected 11
sum by (x,,y) (a) => unexpected 10
sum by (,) (a) => unexpected 8
sum by ('x') (a) => unexpected 8
sum(a) by (x) by (y) => unexpected 14
sum(a) keep_metric_names by (x) => unexpected 25
sum keep_metric_names (a) => unexpected 4
a + on b => unexpected 7
a + on(x b) => unexpected 9
a + on(x) on(y) b => unexpected 10
a + on(x) group_left group_right b => unexpected 21
a + on(x) group_left(y) group_left(z) b => unexpected 24
a + on(x) bool b => unexpected 10
a == bool bool b => unexpected 10
a == on(x) bool b => unexpected 11
# braces
{a => unexpected 2
{a= => unexpected 3
{a=1} => unexpected 3
{a=b} => unexpected 3
{a="1" => unexpected 6
{a=="1"} => unexpected 2
{"a"} => unexpected 1
{,} => unexpected 1
{a,,b} => unexpected 3
{a b} => unexpected 3
{by} => unexpected 3
{or} => unexpected 3
{or b} => unexpected 4
{a="1" or} => unexpected 9
{a="1",or} => unexpected 9
{a="1" or or b="2"} => unexpected 13
x{a) => unexpected 3
# templates
with a => unexpected 5
with (x) a => unexpected 7
with (x = ) a => unexpected 10
with (x = 1 y = 2) a => unexpected 12
with (x = 1,, y = 2) a => unexpected 12
with (,) a => unexpected 6
with (by = 1) a => unexpected 6
with (1 = 1) a => unexpected 6
with (x == 1) a => unexpected 8
with (f(by) = 1) a => unexpected 8
with (f(a,) = 1) a => unexpected 10
with (f(a b) = 1) a => unexpected 10
with (f(1) = 1) a => unexpected 8
with (f(a)) a => unexpected 10
with (x = 1) ) => unexpected 13
(with (x = 1) a => unexpected 15
# numbers too wide
1e1001 => too wide 0
a + 10e1000 => too wide 4
1.5e-1000 => too wide 0
f(123456789012345678901234567890123456789) => too wide 2
a[99999999999y] => too wide 2
a[281474976710656ms] => too wide 2
a[281474976710655ms1ms] => too wide 2
a[281474976710656i] => too wide 2
a[0s281474976710656i] => too wide 2
a[340282366920938463463374607431768211456ms] => too wide 2
a offset 281474976710656ms => too wide 9
a offset -281474976710656ms => too wide 10
1e1001 1e1001 => too wide 0
1e1001 + => too wide 0"##;

/// A query, ` => `, and the fault that `check` finds, or `right`, a row a line. A line without an
/// arrow is a heading. There are 125 rows.
pub(crate) const CHECKS: &str = r##"# each function over a window
default_rollup(a[5m]) => right
last_over_time(a) => right
first_over_time(a[5m]) => right
min_over_time(a[5m]) => right
max_over_time(a[5m]) => right
avg_over_time(a[5m]) => right
sum_over_time(a[5m]) => right
count_over_time(a[5m]) => right
distinct_over_time(a[5m]) => right
present_over_time(a[5m]) => right
range_over_time(a[5m]) => right
changes(a[5m]) => right
resets(a[5m]) => right
delta(a[5m]) => right
increase(a[5m]) => right
rate({a="1"}[5m] offset 1d) => right
deriv_fast(a[5m]) => right
idelta(a[5m]) => right
ideriv(a[5m]) => right
irate(a[5i]) => right
lag(a[5m]) => right
lifetime(a[5m]) => right
tfirst_over_time(a[5m]) => right
tlast_over_time(a[5m]) => right
tmin_over_time(a[5m]) => right
tmax_over_time(a offset -5m) => right
# each aggregate
sum(a) => right
min(a) by (x) => right
max(a) without (x,y) => right
count(a) by () => right
avg(rate(a[5m])) by (x) => right
group(1) => right
any(a) => right
topk(3, a) => right
bottomk(0, a) by (x) => right
limitk(4294967295, a) => right
count_values("l", a) => right
# each function over points
abs(a) => right
sgn(a) => right
ceil(a) keep_metric_names => right
floor(a) => right
round(a) => right
round(a, 0.5) => right
clamp(a, 1, time()) => right
clamp_min(a, -1) => right
clamp_max(a, scalar(b) + abs(2)) => right
scalar(a) => right
vector(1) => right
time() => right
absent(a{x="1"}) => right
label_set(a, "x", "1") => right
label_set(a, "x", "1", "y", "") => right
label_del(a, "x", "y") => right
label_keep(a, "x") => right
label_copy(a, "x", "y") => right
label_join(a, "x", "-", "y", "z") => right
label_replace(a, "x", "$1", "y", "(.*)") => right
union(a) => right
union(a, b, c) => right
sort(a) => right
sort_desc(a) => right
# operators and windows
1 => right
{} => right
a[5m] offset 1h => right
a and on(x) b => right
a == bool on(x) group_right(y) b => right
a + ignoring() group_left() 1 => right
-a * -1 => right
WITH (x = 1) a => right
# unknown functions
foo(x) => unknown 0
1 + foo() => unknown 4
foo(bar(x)) => unknown 4
rate(foo(x)) => unknown 5
sum(foo(rate(a[5m]))) => unknown 4
foo(1) + rate(1) => unknown 0
summ(a) => unknown 0
# wrong arguments of calls
rate(1) => wrong 0
rate() => wrong 0
rate(a, b) => wrong 0
rate(rate(a)) => wrong 0
rate(a + b) => wrong 0
foo(rate(1)) => wrong 4
rate(1) + foo(1) => wrong 0
sum() => wrong 0
1 + sum(a, b) => wrong 4
sum("x") => wrong 0
topk(a, b) => wrong 0
topk(1.5, b) => wrong 0
topk(-1, b) => wrong 0
topk(4294967296, b) => wrong 0
count_values("1l", a) => wrong 0
count_values(a, a) => wrong 0
round(a, 0) => wrong 0
round(a, b) => wrong 0
clamp(a, b, 1) => wrong 0
clamp_min(a) => wrong 0
time(1) => wrong 0
label_set(a, "x", "1", "y") => wrong 0
label_del(a) => wrong 0
label_copy(a, "x", y) => wrong 0
label_join(a, "x", "-") => wrong 0
label_replace(a, "x", "1", "y", "z", "w") => wrong 0
union() => wrong 0
sort(a, 1) => wrong 0
# wrong groups
rate(a) by (x) => wrong 0
abs by (x) (a) => wrong 0
sum by (x) (a) by (y) => wrong 0
sum(a) keep_metric_names => wrong 0
1 - sum by (x) (a) without (x) => wrong 4
# wrong windows and operands
1[5m] => wrong 1
(a + b)[5m] => wrong 7
(a[5m])[5m] => wrong 7
(a offset 1m) offset 1m => wrong 14
rate(a) offset 1m => wrong 8
"x" => wrong 0
("x") => wrong 1
-"x" => wrong 0
a + "x" => wrong 2
"x" + a => wrong 4
1 + (a == "x") => wrong 7
a and on(x) group_left() b => wrong 2
a or on(x) group_right(y) b => wrong 2
a default on(x) group_left() b => wrong 2
a if on(x) group_left() b => wrong 2
(a[5m])[5m] + rate(1) => wrong 7"##;
