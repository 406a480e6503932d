/// Malformed lines, and words of lines that are at fault: what the lines before them set stays. A line of a story ends
/// before a carriage return, so that where one is wanted at an end there are two.
pub const REFUSED_LINES: &str = "\
= the lines before a bad one stay
file q empty
text 7 1 2 0 0
text # note
text 8 1 2 0
input
both setquota -u -b q
status 1
! quota: input: bad line 3
changes q
run repquota -v q
head user q 7days 7days
> #7           --          0          1          2      -        0        0        0      -
file q empty
text 7 1 2 0 0
text 8 1 2 0 0 0
text 9 1 1 1 1
input
both setquota -u -b q
status 1
! quota: input: bad line 2
changes q
run repquota -v q
head user q 7days 7days
> #7           --          0          1          2      -        0        0        0      -
file q empty
text 7 1 2 0 0
text zoe x 2 0
raw 9 1 1 1 1
input
both setquota -u -b q
status 1
! quota: input: bad line 2
changes q
run repquota -v q
head user q 7days 7days
> #7           --          0          1          2      -        0        0        0      -
file q empty
text 7 1 2 0 0
raw 8 1 2 0\x20
hex ff 0a
input
both setquota -u -b q
status 1
! quota: input: bad line 2
changes q
run repquota -v q
head user q 7days 7days
> #7           --          0          1          2      -        0        0        0      -
file q empty
text 7 1 2 0 0
hex ff
raw  1 2 0 0
text
input
both setquota -u -b q
status 1
! quota: input: bad line 2
changes q
run repquota -v q
head user q 7days 7days
> #7           --          0          1          2      -        0        0        0      -
file q empty
text 7 1 2 0 0
text  # note
input
both setquota -u -b q
status 1
! quota: input: bad line 2
changes q
run repquota -v q
head user q 7days 7days
> #7           --          0          1          2      -        0        0        0      -
file q empty
text 7 1 2 0 0
hex 0d 0a
input
both setquota -u -b q
status 1
! quota: input: bad line 2
changes q
run repquota -v q
head user q 7days 7days
> #7           --          0          1          2      -        0        0        0      -
file q empty
text 7 1 2 0 0
hex 00 0a
input
both setquota -u -b q
status 1
! quota: input: bad line 2
changes q
run repquota -v q
head user q 7days 7days
> #7           --          0          1          2      -        0        0        0      -
file q empty
text 7 1 2 0 0
text
text  \t
raw 8
input
both setquota -u -b q
status 1
! quota: input: bad line 4
changes q
run repquota -v q
head user q 7days 7days
> #7           --          0          1          2      -        0        0        0      -

= the lines before a faulty word stay
file q empty
text 7 1 2 0 0
text # note
text 8 x 2 0 0
input
both setquota -b q
status 1
! quota: input line 3: bad number x
changes q
run repquota -v q
head user q 7days 7days
> #7           --          0          1          2      -        0        0        0      -
file q empty
text 7 1 2 0 0
text
text 8 1 2 0 -1
text 9 1
input
both setquota -b q
status 1
! quota: input line 3: bad number -1
changes q
run repquota -v q
head user q 7days 7days
> #7           --          0          1          2      -        0        0        0      -
file q empty
text 7 1 2 0 0
text zoe 1 1 1 1
input
both setquota -b q
status 1
! quota: input line 2: unknown name zoe
changes q
run repquota -v q
head user q 7days 7days
> #7           --          0          1          2      -        0        0        0      -
file q empty
text 7 1 2 0 0
text zoe x 1 1 1
input
both setquota -b q
status 1
! quota: input line 2: unknown name zoe
changes q
run repquota -v q
head user q 7days 7days
> #7           --          0          1          2      -        0        0        0      -
file q empty
text 7 1 2 0 0
text é 1 1 1 1
input
both setquota -b q
status 1
! quota: input line 2: unknown name é
changes q
run repquota -v q
head user q 7days 7days
> #7           --          0          1          2      -        0        0        0      -
file q empty
text 7 1 2 0 0
raw 4294967296 1 1 1 1
input
both setquota -b q
status 1
! quota: input line 2: bad number 4294967296
changes q
run repquota -v q
head user q 7days 7days
> #7           --          0          1          2      -        0        0        0      -
file q empty
text 7 1 2 0 0
raw 8 1k 1 1 1
input
both setquota -b q
status 1
! quota: input line 2: bad number 1k
changes q
run repquota -v q
head user q 7days 7days
> #7           --          0          1          2      -        0        0        0      -
file q empty
text 7 1 2 0 0
raw 8 1 1 1 1K
input
both setquota -b q
status 1
! quota: input line 2: bad number 1K
changes q
run repquota -v q
head user q 7days 7days
> #7           --          0          1          2      -        0        0        0      -
file q empty
text 7 1 2 0 0
text 8 1 1 1 18446744073709551616
input
both setquota -b q
status 1
! quota: input line 2: bad number 18446744073709551616
changes q
run repquota -v q
head user q 7days 7days
> #7           --          0          1          2      -        0        0        0      -
file q empty
text 7 1 2 0 0
raw 8 1 2 0 0
hex 0d 0a
input
both setquota -b q
status 1
! quota: input line 2: bad number 0\r\r
changes q
run repquota -v q
head user q 7days 7days
> #7           --          0          1          2      -        0        0        0      -
file q empty
text 7 1 2 0 0
raw 8
hex 00
raw  1 2 0 0
text
input
both setquota -b q
status 1
! quota: input line 2: unknown name 8\0
changes q
run repquota -v q
head user q 7days 7days
> #7           --          0          1          2      -        0        0        0      -
file q empty
text 7 1 2 0 0
raw 8 1
hex 00
raw  2 0 0
text
input
both setquota -b q
status 1
! quota: input line 2: bad number 1\0
changes q
run repquota -v q
head user q 7days 7days
> #7           --          0          1          2      -        0        0        0      -
";
